//! What the unit of a command is taken for.
ghost use Rattle.std.specs.Prelude.{◌≡◌};
ghost use Rattle.opc_answers.specs.Taken.{kind_of, task_of};

use opc_names::name::UnitName;
use opc_terms::unit_kind::UnitKindAt;

/// A started task, written `STC:` and its member.
fn task_of(text: &str) -> Option<UnitKindAt>
    ensures { result ≡ task_of text.now }
{
    let member = text.strip_prefix("STC:")?;
    match UnitName::read(member) {
        Ok(member) => Some(UnitKindAt::Stc { member }),
        Err(_) => None,
    }
}

/// The kind of a unit, as it is written: `JOB`, `TSU`, or `STC:` and a member.
pub fn kind_of(text: &str) -> Option<UnitKindAt>
    ensures { result ≡ kind_of text.now }
{
    match text {
        "JOB" => Some(UnitKindAt::Job),
        "TSU" => Some(UnitKindAt::Tsu),
        // A started task has its member after it, so it is no fixed word.
        _ => task_of(text),
    }
}
