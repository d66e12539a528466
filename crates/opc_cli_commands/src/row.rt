//! The row of a form: what a command of this form needs.
ghost use Rattle.std.specs.Prelude.{◌≡◌, ◌≤◌, ◌∷◌, ◌++◌, [], IfOk, OnOk, flat_map, length, map, string_bytes};
ghost use Rattle.std.specs.Str.{IsAscii};
ghost use Rattle.opc_board.specs.Texts.{columns, left};
ghost use Rattle.opc_reader.specs.Reading.{reading};
ghost use Rattle.opc_cli_commands.specs.Commands.{
  AreAscii,
  AreShort,
  form_of,
  form_row,
  form_rows,
  need_of,
  shown_of,
};

use crate::form::CommandForm;
use opc_reader::line::read_command;
use opc_table::need;
use opc_terms::need::Need;
use opc_terms::unit_kind::UnitKindAt;
use std::alloc::{AllocError, Global};

/// What a line needs, if it is a command that needs anything.
fn need_in(line: &str, kind: UnitKindAt) -> Option<Need>
    ensures { result ≡ need_of (reading line.now) kind }
{
    match read_command(line) {
        Ok(command) => need(&command, kind),
        // Every line of the table is a command.
        Err(_) => None,
    }
}

#[tactic(auto, using(opc_board::proofs::Padding::padded_left))]
fn row_columns(
    alloc: Global,
    shown: &str,
    group: &str,
    level: &str,
    resource: &str,
) -> Result<String, AllocError>
    requires shown { IsAscii shown.now }
    requires shown_short { length shown.now ≤ 1000 }
    requires group { IsAscii group.now }
    requires group_short { length group.now ≤ 1000 }
    requires level { IsAscii level.now }
    requires level_short { length level.now ≤ 1000 }
    ensures { IfOk result (λ text. string_bytes text ≡ columns
        (left 21 shown.now ∷ left 6 group.now ∷ left 7 level.now ∷ (resource.now ++ 10 ∷ []) ∷ [])) }
{
    format!(in alloc; "{shown:<21} {group:<6} {level:<7} {resource}\n")
}

fn row_text(alloc: Global, form: CommandForm) -> Result<String, AllocError>
    requires ascii { IsAscii (shown_of form) }
    requires short { length (shown_of form) ≤ 1000 }
    ensures { IfOk result (λ text. string_bytes text ≡ form_row (form_of form)) }
{
    match need_in(form.line(), form.kind()) {
        Some(need) => row_columns(
            alloc,
            form.shown(),
            need.group.text(),
            need.level.text(),
            need.resource.text(),
        ),
        None => row_columns(alloc, form.shown(), "-", "-", "-"),
    }
}

/// Adds the rows of forms.
pub(crate) fn push_rows(
    alloc: Global,
    text: &mut String,
    forms: &[CommandForm],
) -> Result<(), AllocError>
    requires ascii { AreAscii forms.now }
    requires short { AreShort forms.now }
    ensures { OnOk result (string_bytes text.new ≡ string_bytes text.old ++ form_rows (map form_of forms.now)) }
{
    match forms {
        [] => Ok(()),
        [form, rest @ ..] => {
            text.push_str(row_text(alloc, *form)?.as_str())?;
            push_rows(alloc, text, rest)
        }
    }
}
