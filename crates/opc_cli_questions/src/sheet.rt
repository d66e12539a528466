//! The page of a policy, by a policy file or by rows.
ghost use Rattle.std.specs.Prelude.{◌≡◌, IfOk, Ok, string_bytes};
ghost use Rattle.opc_import.specs.Lines.{policy_text};
ghost use Rattle.opc_state.specs.State.{empty};
ghost use Rattle.opc_machine.specs.Bootstrap.{bootstrapped};
ghost use Rattle.opc_answers.specs.Made.{members_of, state_of};
ghost use Rattle.opc_cli_questions.specs.Printed.{IsAnsweredBy, IsReportedBy, IsWritten, left_in};
ghost use Rattle.opc_cli_questions.specs.Sheets.{IsFileSheet, IsRowsSheet, IsSheetOf, digest_of};

use crate::openings::Openings;
use crate::policy_file::{PolicyText, paths_of, place_of, read_rows_from};
use crate::printing::no_memory;
use crate::refusals::refused;
use opc_answers::room::Room;
use opc_answers_sheet::printing::print_sheet;
use opc_cli_failures::failure::{Failure, Place, reported};
use opc_cli_failures::status::Status;
use opc_import::write::write_policy;
use opc_io::sink::Sink;
use opc_policy_members::row::Row;
use sha2::{Digest, Sha256};
use std::alloc::{AllocError, Global};
use std::io::{Read, Write};

/// Prints the page of the policy file at a path, or of the one on the input, and returns the status.
pub fn answer_sheet<F: Openings, R: Read, W: Write, K: Sink>(
    alloc: Global,
    files: &F,
    policy: Option<&str>,
    name: &str,
    input: &mut R,
    output: &mut W,
    errors: &mut K,
) -> Status
    ensures { let left = left_in (F.holds files.now) (R.remaining input.old) policy.entry in
        IsReportedBy W.contents K.held K.has_failed output.old output.new errors.old errors.new
        (IsFileSheet name.now left) left result }
{
    let end = answer_by(alloc, files, policy, name, input, output);
    reported(end, &paths_of(policy), errors)
}

fn answer_by<F: Openings, R: Read, W: Write>(
    alloc: Global,
    files: &F,
    policy: Option<&str>,
    name: &str,
    input: &mut R,
    output: &mut W,
) -> Result<Status, Failure>
    ensures { let left = left_in (F.holds files.now) (R.remaining input.old) policy.entry in
        IsAnsweredBy W.contents output.old output.new (IsFileSheet name.now left) left result }
{
    let file = read_rows_from(alloc, files, policy, input)?;
    print_file_sheet(alloc, place_of(policy), name, &file, output)
}

/// The digest of some bytes, in hexadecimal digits.
fn digest_of(alloc: Global, bytes: &[u8]) -> Result<String, AllocError>
    ensures { IfOk result (λ digits. string_bytes digits ≡ digest_of bytes.now) }
{
    let digest = Sha256::digest(bytes);
    hex::encode(alloc, &digest)
}

/// That of the policy file that an export of these rows writes.
fn digest_of_rows(alloc: Global, rows: &[Row]) -> Result<String, AllocError>
    ensures { IfOk result (λ digits. string_bytes digits ≡ digest_of (policy_text rows.now)) }
{
    let text = write_policy(alloc, rows)?;
    digest_of(alloc, text.as_str().as_bytes())
}

/// Prints the page of rows that make a room.
fn print_page<W: Write>(
    alloc: Global,
    name: &str,
    digest: &str,
    rows: &[Row],
    room: &Room,
    output: &mut W,
) -> Result<Status, Failure>
    requires made { bootstrapped rows.now empty ≡ Ok (state_of room.now.policy room.now.board) }
    requires members { room.now.members ≡ members_of room.now.policy }
    ensures { IsWritten W.contents output.old output.new (IsSheetOf name.now digest.now rows.now) result }
{
    print_sheet(alloc, name, digest, rows, room, output)?;
    Ok(Status::Done)
}

/// Prints the page of a policy file, or returns which row is refused.
fn print_file_sheet<W: Write>(
    alloc: Global,
    place: Place,
    name: &str,
    file: &PolicyText,
    output: &mut W,
) -> Result<Status, Failure>
    ensures { IsWritten W.contents output.old output.new
        (IsSheetOf name.now (digest_of file.now.bytes.items) file.now.rows.items) result }
{
    let (bytes, rows) = (file.bytes.as_slice(), file.rows.as_slice());
    let Ok(digest) = digest_of(alloc, bytes) else {
        return Err(no_memory());
    };
    match Room::of_rows(alloc, rows) {
        Ok(room) => print_page(alloc, name, digest.as_str(), rows, &room, output),
        Err(fault) => Err(refused(alloc, place, bytes, &[], rows, fault)),
    }
}

/// Prints the page of rows that are in no file. Those of tables can be loaded.
pub(crate) fn print_rows_sheet<W: Write>(
    alloc: Global,
    name: &str,
    rows: &[Row],
    output: &mut W,
) -> Result<Status, Failure>
    ensures { IsWritten W.contents output.old output.new (IsRowsSheet name.now rows.now) result }
{
    let Ok(digest) = digest_of_rows(alloc, rows) else {
        return Err(no_memory());
    };
    match Room::of_rows(alloc, rows) {
        Ok(room) => print_page(alloc, name, digest.as_str(), rows, &room, output),
        Err(fault) => Err(Failure::from(fault)),
    }
}
