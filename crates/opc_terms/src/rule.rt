//! The rule that decided.
ghost use Rattle.std.specs.Prelude.{◌≡◌, IfOk, string_bytes};
ghost use Rattle.std.specs.Option.{option_copied};

use opc_names::auth::Auth;
use opc_names::class::Class;
use opc_names::group::Group;
use opc_names::level::Level;
use opc_names::name::Pattern;
use std::alloc::{AllocError, Global};
use std::fmt;

/// Why a request is allowed or denied: by a profile (the level that the user holds by it, the level that was needed,
/// and whether it passed with a warning alone), because none decides, by the authority of the console, because a user
/// must log on first, or because the user is revoked.
#[derive(Clone, Copy, PartialEq, Eq)]
pub enum Rule {
    Profile {
        class: Class,
        pattern: Pattern,
        held: Level,
        needed: Level,
        warned: bool,
    },
    NoProfile,
    ConsoleGroup {
        group: Group,
        auth: Auth,
    },
    LogonRequired,
    Revoked,
}

impl Rule {
    ghost use Rattle.opc_terms.specs.Rules.{rule_text, rule_text_or_none};

    /// The words of the rule, as answers and the account show them.
    pub fn text(&self, alloc: Global) -> Result<String, AllocError>
        ensures { IfOk result (λ text. string_bytes text ≡ rule_text self.now) }
    {
        self.to_string(alloc)
    }

    /// The words of a rule, or `-` if there is none.
    pub fn text_or_none(alloc: Global, rule: Option<&Rule>) -> Result<String, AllocError>
        ensures { IfOk result (λ text. string_bytes text ≡ rule_text_or_none (option_copied rule.entry)) }
    {
        match rule {
            Some(rule) => rule.text(alloc),
            None => String::from_str(alloc, "-"),
        }
    }
}

impl fmt::Display for Rule {
    ghost use Rattle.std.specs.Prelude.{Some};
    ghost use Rattle.opc_terms.specs.Rules.{rule_text};

    ghost output = { λ rule. Some (rule_text rule) };

    fn fmt<W: fmt::Write>(&self, f: &mut fmt::Formatter<W>) -> fmt::Result {
        match self {
            Rule::Profile {
                class,
                pattern,
                held,
                needed,
                warned,
            } => {
                write!(f, "PROFILE {class} {pattern} HELD {held} NEEDED {needed}")?;
                if *warned {
                    write!(f, " WARNED")?;
                }
                Ok(())
            }
            Rule::NoProfile => write!(f, "NOPROFILE"),
            Rule::ConsoleGroup { group, auth } => write!(f, "GROUP {group} AUTH {auth}"),
            Rule::LogonRequired => write!(f, "LOGONREQUIRED"),
            Rule::Revoked => write!(f, "REVOKED"),
        }
    }
}
