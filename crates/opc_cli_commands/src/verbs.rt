//! The verbs, with their spellings.
ghost use Rattle.std.specs.Prelude.{◌≡◌, IfOk, map};
ghost use Rattle.std.specs.List.{find};
ghost use Rattle.std.specs.Option.{option_map};
ghost use Rattle.opc_cli_commands.specs.VerbRows.{is_spelled, row_of, shortest, verb_rows};

use std::alloc::{AllocError, Global};

/// A verb in full, and its abbreviation if it has one.
#[derive(Clone, Copy)]
pub(crate) struct VerbRow {
    pub full: &'static str,
    pub short: &'static str,
}

impl VerbRow {
    /// The verb as its forms are shown.
    pub(crate) fn shortest(self) -> &'static str
        ensures { result.now ≡ shortest (row_of self) }
    {
        if self.short.is_empty() {
            self.full
        } else {
            self.short
        }
    }
}

fn row(full: &'static str, short: &'static str) -> VerbRow
    ensures full { result.full.now ≡ full.entry.now }
    ensures short { result.short.now ≡ short.entry.now }
{
    VerbRow { full, short }
}

/// All verbs.
pub(crate) fn verb_rows() -> [VerbRow; 19]
    ensures { map row_of result ≡ verb_rows }
{
    [
        row("DISPLAY", "D"),
        row("CANCEL", "C"),
        row("FORCE", ""),
        row("START", "S"),
        row("STOP", "P"),
        row("MODIFY", "F"),
        row("REPLY", "R"),
        row("VARY", "V"),
        row("MOUNT", "M"),
        row("UNLOAD", "U"),
        row("SWAP", "G"),
        row("RESET", "E"),
        row("SEND", "SE"),
        row("LOG", "L"),
        row("MONITOR", "MN"),
        row("STOPMN", "PM"),
        row("HALT", "Z"),
        row("LOGON", ""),
        row("LOGOFF", ""),
    ]
}

fn is_spelled(word: &str, row: &VerbRow) -> bool
    ensures { result ≡ is_spelled word.now (row_of row.now) }
{
    word == row.full || word == row.short
}

/// The row of the verb with this spelling.
pub(crate) fn row_with(word: &str, rows: &[VerbRow]) -> Option<VerbRow>
    ensures { option_map row_of result ≡ find (is_spelled word.now) (map row_of rows.now) }
{
    match rows {
        [] => None,
        [row, rest @ ..] => {
            if is_spelled(word, row) {
                Some(*row)
            } else {
                row_with(word, rest)
            }
        }
    }
}

/// The verbs in full.
pub(crate) fn verbs_in(alloc: Global, rows: &[VerbRow]) -> Result<Vec<&'static str>, AllocError>
    ensures { IfOk result (λ verbs. map (λ verb. verb.now) verbs.items
        ≡ map (λ row. row.full) (map row_of rows.now)) }
{
    let mut verbs = Vec::new(alloc);
    for row in rows {
        verbs.push(row.full)?;
    }
    Ok(verbs)
}
