//! Events, written as a script has them.
ghost use Rattle.std.specs.Prelude.{◌≡◌, [], ◌∷◌, IfOk, codes, string_bytes};
ghost use Rattle.opc_board.specs.Texts.{columns};
ghost use Rattle.opc_board.specs.declared.event.Event.TheVariants as event;
ghost use Rattle.opc_cli_script.specs.Events.{event_text};

use opc_board::event::Event;
use opc_board::rows::UnitKind;
use opc_names::name::UnitName;
use std::alloc::{AllocError, Global};

/// The kind of a started task that cannot be canceled.
fn lasting_task(alloc: Global, member: UnitName) -> Result<String, AllocError>
    ensures { IfOk result (λ text. string_bytes text
        ≡ columns (codes "STC" ∷ member ∷ codes "NONCANCEL" ∷ [])) }
{
    format!(in alloc; "STC {member} NONCANCEL")
}

fn job_in_text(
    alloc: Global,
    name: UnitName,
    kind: &UnitKind,
    cancelable: bool,
) -> Result<String, AllocError>
    ensures { IfOk result (λ text. string_bytes text ≡ event_text (event.JobIn name kind.now cancelable)) }
{
    match (kind, cancelable) {
        (UnitKind::Job, true) => format!(in alloc; "JOBIN {name} JOB"),
        (UnitKind::Job, false) => format!(in alloc; "JOBIN {name} JOB NONCANCEL"),
        (UnitKind::Stc { member }, true) => format!(in alloc; "JOBIN {name} STC {member}"),
        (UnitKind::Stc { member }, false) => {
            let task = lasting_task(alloc, *member)?;
            let task = task.as_str();
            format!(in alloc; "JOBIN {name} {task}")
        }
        (UnitKind::Tsu, true) => format!(in alloc; "JOBIN {name} TSU"),
        (UnitKind::Tsu, false) => format!(in alloc; "JOBIN {name} TSU NONCANCEL"),
    }
}

/// The text of an event.
pub fn event_text(alloc: Global, event: &Event) -> Result<String, AllocError>
    ensures { IfOk result (λ text. string_bytes text ≡ event_text event.now) }
{
    match event {
        Event::JobIn {
            name,
            kind,
            cancelable,
        } => job_in_text(alloc, *name, kind, *cancelable),
        Event::JobEnd(name) => format!(in alloc; "JOBEND {name}"),
        Event::Ask { id, text } => {
            let text = text.as_str();
            format!(in alloc; "ASK {id} {text}")
        }
        Event::Attach(device) => format!(in alloc; "ATTACH {device}"),
        Event::Allocate { device, unit } => format!(in alloc; "ALLOCATE {device} {unit}"),
        Event::Free(device) => format!(in alloc; "FREE {device}"),
        Event::Resume => String::from_str(alloc, "RESUME"),
    }
}
