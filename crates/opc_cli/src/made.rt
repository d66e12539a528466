//! What is reported of a database file whose tables are newly made.
ghost use Rattle.std.specs.Prelude.{◌≡◌, OnOk, false, if◌then◌else◌, is_err, true};
ghost use Rattle.std.specs.Io.KnownBytes.{Appends};
ghost use Rattle.opc_cli.specs.Made.{made_line};

use opc_io::sink::{Sink, WriteFault, write_whole};

/// Reports that the tables of the database file at a path are newly made, in a line of its own.
pub(crate) fn report_made<K: Sink>(path: &str, errors: &mut K)
    ensures reported { K.has_failed errors.new ≡ false
        → Appends (K.held errors.old) (K.held errors.new) (made_line path.now) }
    ensures kept { K.has_failed errors.new ≡ false → K.has_failed errors.old ≡ false }
{
    // (if the note fails, the operation runs nevertheless)
    let _ = print_made(path, errors);
}

fn print_made<K: Sink>(path: &str, errors: &mut K) -> Result<(), WriteFault>
    ensures text { OnOk result (Appends (K.held errors.old) (K.held errors.new) (made_line path.now)) }
    ensures failed { K.has_failed errors.new ≡ (if is_err result then true else K.has_failed errors.old) }
{
    write_whole(errors, b"opcmds: database ")?;
    write_whole(errors, path.as_bytes())?;
    write_whole(errors, b": newly created; it has no policy\n")
}
