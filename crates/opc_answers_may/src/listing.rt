//! Lists of names, and lines with a verdict.
ghost use Rattle.std.specs.Prelude.{◌≡◌, ◌≤◌, IfOk, OnOk, length, string_bytes};
ghost use Rattle.std.specs.Str.{IsAscii};
ghost use Rattle.opc_board.specs.Texts.{left};
ghost use Rattle.opc_answers_may.specs.MayTexts.{line_if, line_of, under, with_name};

use std::alloc::{AllocError, Global};

/// Adds a name to a list, with a comma before it unless it is the first one.
pub(crate) fn push_name(list: &mut String, name: &str) -> Result<(), AllocError>
    ensures { OnOk result (string_bytes list.new ≡ with_name (string_bytes list.old) name.now) }
{
    if list.as_str().is_empty() {
        list.push_str(name)?;
        return Ok(());
    }
    list.push_str(",")?;
    list.push_str(name)?;
    Ok(())
}

/// A verdict in its column.
pub(crate) fn column(alloc: Global, word: &str) -> Result<String, AllocError>
    requires ascii { IsAscii word.now }
    requires short { length word.now ≤ 1000 }
    ensures { IfOk result (λ text. string_bytes text ≡ left 7 word.now) }
{
    format!(in alloc; "{word:<7}")
}

/// What stands behind a verdict in its column.
pub(crate) fn line_of(alloc: Global, column: &str, things: &str) -> Result<String, AllocError>
    ensures { IfOk result (λ text. string_bytes text ≡ line_of column.now things.now) }
{
    format!(in alloc; "{column} {things}\n")
}

/// The same, unless nothing does.
#[tactic(auto, using(crate::proofs::Lines::line_none, crate::proofs::Lines::line_some))]
pub(crate) fn line_if(alloc: Global, column: &str, things: &str) -> Result<String, AllocError>
    ensures { IfOk result (λ text. string_bytes text ≡ line_if column.now things.now) }
{
    if things.is_empty() {
        return Ok(String::new(alloc));
    }
    line_of(alloc, column, things)
}

/// A head, and the lines under it, if there are any.
#[tactic(auto, using(crate::proofs::Lines::under_none, crate::proofs::Lines::under_some))]
pub(crate) fn under(alloc: Global, head: &str, lines: &str) -> Result<String, AllocError>
    ensures { IfOk result (λ text. string_bytes text ≡ under head.now lines.now) }
{
    if lines.is_empty() {
        return Ok(String::new(alloc));
    }
    format!(in alloc; "{head}{lines}")
}
