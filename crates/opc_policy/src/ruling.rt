//! Rulings on commands.
ghost use Rattle.std.specs.Prelude.{◌≡◌, Some, true};
ghost use Rattle.std.specs.Option.{option_copied};
ghost use Rattle.opc_policy.specs.Rulings.{
  profile_ruling,
  profile_rule,
  rule_at,
  ruling_at,
  verdict,
  verdict_of,
  rule_of,
  ruling,
  console_ruling,
};

use crate::searching::Found;
use crate::verdict::Verdict;
use opc_names::auth::Auth;
use opc_names::level::Level;
use opc_names::name::{ConsoleName, GroupName};
use opc_policy_members::profile::Profile;
use opc_policy_members::user::User;
use opc_terms::need::Need;
use opc_terms::rule::Rule;

/// Whether a command is allowed, and by which rule.
#[derive(Clone, Copy)]
pub enum Ruling {
    Allowed(Rule),
    Denied(Rule),
}

impl Ruling {
    /// The verdict of the ruling.
    pub fn verdict(&self) -> Verdict
        ensures { result ≡ verdict_of self.now }
    {
        match self {
            Ruling::Allowed(_) => Verdict::Allowed,
            Ruling::Denied(_) => Verdict::Denied,
        }
    }

    /// The rule that decided.
    pub fn rule(&self) -> Rule
        ensures { result ≡ rule_of self.now }
    {
        match self {
            Ruling::Allowed(rule) | Ruling::Denied(rule) => *rule,
        }
    }
}

/// The ruling on a user at a console, if this profile decides. The groups are the user's connect groups.
pub fn profile_ruling(
    profile: &Profile,
    user: &User,
    console: Option<&ConsoleName>,
    groups: &[GroupName],
    needed: Level,
) -> Ruling
    ensures ruling { result ≡ profile_ruling profile.now user.now (option_copied console.entry) groups.now needed }
    ensures verdict { verdict_of result ≡ verdict true (Some profile.now) user.now (option_copied console.entry)
        groups.now needed }
    ensures rule { rule_of result ≡ profile_rule profile.now user.now (option_copied console.entry) groups.now needed }
{
    ruling_at(profile, profile.level_of(user, console, groups), needed)
}

/// The ruling on a user who holds this level in a profile, if the profile decides.
pub fn ruling_at(profile: &Profile, held: Level, needed: Level) -> Ruling
    ensures ruling { result ≡ ruling_at profile.now held needed }
    ensures rule { rule_of result ≡ rule_at profile.now held needed }
{
    let is_held = held.includes(needed);
    let rule = Rule::Profile {
        class: profile.class,
        pattern: profile.pattern,
        held,
        needed,
        warned: !is_held && profile.warning,
    };
    if is_held || profile.warning {
        Ruling::Allowed(rule)
    } else {
        Ruling::Denied(rule)
    }
}

/// The ruling by the authority of a console alone.
pub fn console_ruling(auth: Auth, need: &Need) -> Ruling
    ensures { result ≡ console_ruling auth need.now }
{
    let rule = Rule::ConsoleGroup {
        group: need.group,
        auth,
    };
    if auth.enters(need.group) {
        Ruling::Allowed(rule)
    } else {
        Ruling::Denied(rule)
    }
}

/// The ruling on a command at a console, apart from any logon rule: by the profile that decides, if the class is active
/// and the console acts for a user, or else by the authority of the console. The groups are the user's connect groups;
/// without a user they are not used. This is for callers who have a profile, a user and groups at hand; the gate rules
/// over tables, which load only what the ruling needs.
pub fn rule_on(
    found: &Found,
    active: bool,
    user: Option<&User>,
    console: Option<&ConsoleName>,
    groups: &[GroupName],
    auth: Auth,
    need: &Need,
) -> Ruling
    ensures { result ≡ ruling active found.now.profile (option_copied user.entry) (option_copied console.entry)
        groups.now auth need.now }
{
    match (user, &found.profile) {
        (Some(user), Some(profile)) if active => {
            profile_ruling(profile, user, console, groups, need.level)
        }
        // Nobody acts, no profile covers, or the class is inactive: nothing but the console is left to decide.
        _ => console_ruling(auth, need),
    }
}
