//! Why a user, or nobody, may or may not.
ghost use Rattle.std.specs.Prelude.{◌≡◌, ◌≢◌, IfErr, IfOk, Ok, Err};
ghost use Rattle.std.specs.Option.{option_copied, option_or};
ghost use Rattle.opc_terms.specs.declared.fault.Fault.TheVariants.{NoMemory};
ghost use Rattle.opc_policy.specs.Explained.{explanation};
ghost use Rattle.opc_answers.specs.Made.{state_of};
ghost use Rattle.opc_policy_sources.specs.Levels.{covering_levels};
ghost use Rattle.opc_answers.specs.Who.{class_of, level_of, resource_of};
ghost use Rattle.opc_answers.specs.Why.{
  both_whys,
  command_covers,
  covers_of,
  said_of_whys,
  why_access,
  why_command,
  why_in,
  why_plain,
  with_levels,
};

use crate::explaining::{CommandExplained, explained_in, logon_explained};
use crate::logons::Instead;
use crate::room::Room;
use crate::shows::{Said, said_of};
use crate::wanted::{Wanted, line_wanted};
use opc_names::name::{ConsoleName, UserId};
use opc_policy::explained::{Patterns, explain};
use opc_policy::ruling::Ruling;
use opc_policy::verdict::Verdict;
use opc_policy_members::policy::Policy;
use opc_policy_sources::levels::{CoveringLevel, covering_levels};
use opc_rows::Rows;
use opc_terms::fault::Fault;
use opc_terms::need::Need;
use opc_terms::rule::Rule;
use std::alloc::Global;

/// The profiles that cover, as they are shown: none, if nobody acts; their patterns; or these with the level that is
/// held in each.
#[derive(Drop)]
pub enum Covers {
    Nobody,
    Patterns(Patterns),
    Levels(Rows<CoveringLevel>),
}

/// What the line needs that a command asks for, and the profiles that cover it.
#[derive(Drop)]
pub struct LineExplained {
    pub need: Need,
    pub covers: Covers,
}

/// What is wanted, by whom and where, the profiles that cover, the line that a command asks for, the verdict with its
/// rule, and what is said in their place, if that says more.
#[derive(Drop)]
pub struct Explanation {
    pub wanted: Wanted,
    pub actor: Option<UserId>,
    pub console: Option<ConsoleName>,
    pub covers: Covers,
    pub line: Option<LineExplained>,
    pub verdict: Verdict,
    pub rule: Rule,
    pub instead: Option<Instead>,
}

impl Explanation {
    ghost use Rattle.opc_answers.specs.Why.{ruling_in};

    /// The ruling that the verdict is, if it decides.
    pub fn ruling(&self) -> Option<Ruling>
        ensures { result ≡ ruling_in self.now.verdict self.now.rule }
    {
        match self.verdict {
            Verdict::Allowed => Some(Ruling::Allowed(self.rule)),
            Verdict::Denied => Some(Ruling::Denied(self.rule)),
            Verdict::Undecided => None,
        }
    }
}

/// The profiles that cover, with the level that a user holds in each.
fn with_levels(
    alloc: Global,
    policy: &Policy,
    wanted: &Wanted,
    id: &UserId,
    console: Option<&ConsoleName>,
) -> Result<Covers, Fault>
    ensures ok { IfOk result (λ covers. with_levels (covering_levels policy.now (class_of wanted.now)
        (resource_of wanted.now) id.now (option_copied console.entry)) ≡ Ok covers) }
    ensures fault { IfErr result (λ fault. fault ≢ NoMemory → with_levels (covering_levels policy.now
        (class_of wanted.now) (resource_of wanted.now) id.now (option_copied console.entry)) ≡ Err fault) }
{
    let resource = wanted.resource();
    let levels = covering_levels(alloc, policy, wanted.class(), &resource, id, console)?;
    Ok(Covers::Levels(Rows::of(levels)))
}

/// The profiles that cover, as they are shown for the acting user.
fn covers_of(
    alloc: Global,
    policy: &Policy,
    wanted: &Wanted,
    levels: bool,
    patterns: Patterns,
    id: Option<&UserId>,
    console: Option<&ConsoleName>,
) -> Result<Covers, Fault>
    ensures ok { IfOk result (λ covers. covers_of policy.now wanted.now levels patterns (option_copied id.entry)
        (option_copied console.entry) ≡ Ok covers) }
    ensures fault { IfErr result (λ fault. fault ≢ NoMemory → covers_of policy.now wanted.now levels patterns
        (option_copied id.entry) (option_copied console.entry) ≡ Err fault) }
{
    if !levels {
        return Ok(Covers::Patterns(patterns));
    }
    match id {
        Some(id) => with_levels(alloc, policy, wanted, id, console),
        None => Ok(Covers::Nobody),
    }
}

/// On a level of access the profiles alone decide.
fn why_access(
    alloc: Global,
    policy: &Policy,
    levels: bool,
    wanted: &Wanted,
    id: &UserId,
    console: Option<&ConsoleName>,
) -> Result<Explanation, Fault>
    ensures ok { IfOk result (λ why. why_access policy.now levels wanted.now id.now (option_copied console.entry)
        (explanation policy.now (class_of wanted.now) (resource_of wanted.now) id.now (option_copied console.entry)
        (level_of wanted.now)) ≡ Ok why) }
    ensures fault { IfErr result (λ fault. fault ≢ NoMemory → why_access policy.now levels wanted.now id.now
        (option_copied console.entry) (explanation policy.now (class_of wanted.now) (resource_of wanted.now) id.now
        (option_copied console.entry) (level_of wanted.now)) ≡ Err fault) }
{
    let (class, resource, level) = (wanted.class(), wanted.resource(), wanted.level());
    let explained = explain(alloc, policy, class, &resource, id, console, level)?;
    let (patterns, verdict, rule) = (explained.covering, explained.verdict, explained.rule);
    Ok(Explanation {
        wanted: *wanted,
        actor: Some(*id),
        console: console.copied(),
        covers: covers_of(alloc, policy, wanted, levels, patterns, Some(id), console)?,
        line: None,
        verdict,
        rule,
        instead: None,
    })
}

/// Who acts: the user, or a console's own user, who has its name.
fn acting(user: Option<&UserId>, console: Option<&ConsoleName>) -> Option<UserId>
    ensures { result ≡ option_or (option_copied user.entry) (option_copied console.entry) }
{
    match (user, console) {
        (Some(id), _) => Some(*id),
        (None, Some(console)) => Some(console.as_kind()),
        (None, None) => None,
    }
}

/// The profiles that cover a command, if somebody acts.
fn command_covers(
    alloc: Global,
    policy: &Policy,
    wanted: &Wanted,
    levels: bool,
    covering: Option<Patterns>,
    actor: Option<&UserId>,
    console: Option<&ConsoleName>,
) -> Result<Covers, Fault>
    ensures ok { IfOk result (λ covers. command_covers policy.now wanted.now levels covering
        (option_copied actor.entry) (option_copied console.entry) ≡ Ok covers) }
    ensures fault { IfErr result (λ fault. fault ≢ NoMemory → command_covers policy.now wanted.now levels covering
        (option_copied actor.entry) (option_copied console.entry) ≡ Err fault) }
{
    let Some(patterns) = covering else {
        return Ok(Covers::Nobody);
    };
    let id = acting(actor, console);
    covers_of(
        alloc,
        policy,
        wanted,
        levels,
        patterns,
        id.as_ref(),
        console,
    )
}

/// On a command and on a LOGON, the answer is the machine's ruling.
fn why_command(
    alloc: Global,
    policy: &Policy,
    levels: bool,
    wanted: &Wanted,
    actor: Option<&UserId>,
    console: Option<&ConsoleName>,
    explained: CommandExplained,
) -> Result<Explanation, Fault>
    ensures ok { IfOk result (λ why. why_command policy.now levels wanted.now (option_copied actor.entry)
        (option_copied console.entry) (Ok explained) ≡ Ok why) }
    ensures fault { IfErr result (λ fault. fault ≢ NoMemory → why_command policy.now levels wanted.now
        (option_copied actor.entry) (option_copied console.entry) (Ok explained) ≡ Err fault) }
{
    let (covering, instead) = (explained.covering, explained.instead);
    let (verdict, rule) = (explained.verdict, explained.rule);
    Ok(Explanation {
        wanted: *wanted,
        actor: actor.copied(),
        console: console.copied(),
        covers: command_covers(alloc, policy, wanted, levels, covering, actor, console)?,
        line: None,
        verdict,
        rule,
        instead,
    })
}

/// Which of them is said of a command and of its line: that the user cannot log on comes before both.
fn said_of_whys(command: &Explanation, line: &Explanation) -> Said
    ensures { result ≡ said_of_whys command.now line.now }
{
    if command.instead.is_some() {
        return Said::OfCommand;
    }
    said_of(&command.ruling(), &line.ruling())
}

/// Why a command may or may not be entered, with the line that it asks for.
fn both_whys(command: Explanation, line: Explanation, need: &Need) -> Explanation
    ensures { both_whys need.now (Ok command) (Ok line) ≡ Ok result }
{
    let said = said_of_whys(&command, &line);
    let (verdict, rule, instead) = match said {
        Said::OfCommand => (command.verdict, command.rule, command.instead),
        Said::OfLine => (line.verdict, line.rule, None),
        Said::Hidden => (line.verdict, line.rule, Some(Instead::Hidden)),
    };
    Explanation {
        wanted: command.wanted,
        actor: command.actor,
        console: command.console,
        covers: command.covers,
        line: Some(LineExplained {
            need: *need,
            covers: line.covers,
        }),
        verdict,
        rule,
        instead,
    }
}

/// Without the line that a command asks for.
fn why_plain(
    alloc: Global,
    room: &Room,
    levels: bool,
    wanted: &Wanted,
    actor: Option<&UserId>,
    console: Option<&ConsoleName>,
) -> Result<Explanation, Fault>
    ensures ok { IfOk result (λ why. why_plain (state_of room.now.policy room.now.board) levels wanted.now
        (option_copied actor.entry) (option_copied console.entry) ≡ Ok why) }
    ensures fault { IfErr result (λ fault. fault ≢ NoMemory → why_plain (state_of room.now.policy room.now.board)
        levels wanted.now (option_copied actor.entry) (option_copied console.entry) ≡ Err fault) }
{
    let policy = &room.policy;
    let explained = match (wanted, actor) {
        (Wanted::Command(entered), _) => explained_in(alloc, room, &entered.need, actor, console)?,
        (Wanted::Logon(name), _) => logon_explained(alloc, room, name, actor)?,
        (Wanted::Access { .. }, Some(id)) => {
            return why_access(alloc, policy, levels, wanted, id, console);
        }
        (Wanted::Access { .. }, None) => return Err(Fault::NoConsole),
    };
    why_command(alloc, policy, levels, wanted, actor, console, explained)
}

/// Why a user, or nobody, may or may not, at a console if one is named: with the level that is held in each profile
/// that covers, or without; and with the line that a command asks for, if it asks for one.
pub fn why_in(
    alloc: Global,
    room: &Room,
    levels: bool,
    wanted: &Wanted,
    actor: Option<&UserId>,
    console: Option<&ConsoleName>,
) -> Result<Explanation, Fault>
    ensures ok { IfOk result (λ why. why_in (state_of room.now.policy room.now.board) levels wanted.now
        (option_copied actor.entry) (option_copied console.entry) ≡ Ok why) }
    ensures fault { IfErr result (λ fault. fault ≢ NoMemory → why_in (state_of room.now.policy room.now.board) levels
        wanted.now (option_copied actor.entry) (option_copied console.entry) ≡ Err fault) }
{
    let command = why_plain(alloc, room, levels, wanted, actor, console)?;
    let Some(need) = wanted.line() else {
        return Ok(command);
    };
    let line = why_plain(alloc, room, levels, &line_wanted(&need), actor, console)?;
    Ok(both_whys(command, line, &need))
}
