//! Rows of tables, as they are shown.
ghost use Rattle.std.specs.Prelude.{◌≡◌, ◌++◌, ◌∷◌, ℕ, List, [], IfOk, string_bytes};
ghost use Rattle.std.specs.Option.{option_copied};
ghost use Rattle.opc_import.specs.Lines.{policy_text};
ghost use Rattle.opc_cli_questions.specs.ShownRows.{row_of, shown_row, without_digest};

use opc_import::write::write_policy;
use opc_names::name::ConsoleName;
use opc_policy_members::row::Row;
use opc_policy_members::user::User;
use std::alloc::{AllocError, Global};

/// The digest of a password is never shown.
fn without_digest(row: &Row) -> Row
    ensures { result ≡ without_digest row.now }
{
    match *row {
        Row::User(user) => Row::User(User {
            digest: None,
            ..user
        }),
        // No other row has a digest.
        other => other,
    }
}

/// The only line after the header.
fn line_after<'a>(header: &str, file: &'a str) -> &'a str
    requires { (line : List ℕ) × (file.now ≡ header.now ++ (line ++ 10 ∷ [])) }
    ensures { file.now ≡ header.now ++ (result.now ++ 10 ∷ []) }
{
    let Some(rest) = file.strip_prefix(header) else {
        unreachable!()
    };
    let Some(line) = rest.strip_suffix("\n") else {
        unreachable!()
    };
    line
}

/// The fields of a row as an export writes them, but for a digest.
pub(crate) fn shown_row(alloc: Global, row: &Row) -> Result<String, AllocError>
    ensures { IfOk result (λ text. string_bytes text ≡ shown_row row.now) }
{
    // Named for the prover, which otherwise cannot infer the type of a row's console.
    let _nowhere: Option<ConsoleName> = None;
    let header = write_policy(alloc, &[])?;
    let file = write_policy(alloc, &[without_digest(row)])?;
    String::from_str(alloc, line_after(header.as_str(), file.as_str()))
}

/// The row of a number; they count from 1.
pub(crate) fn row_of(rows: &[Row], number: u64) -> Option<&Row>
    ensures { option_copied result ≡ row_of rows.now number }
{
    rows.get(number.saturating_sub(1) as usize)
}
