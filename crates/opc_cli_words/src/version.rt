//! The version of the program.
ghost use Rattle.std.specs.Prelude.{OnOk};
ghost use Rattle.std.specs.Io.KnownBytes.{Appends};
ghost use Rattle.opc_cli_words.specs.Version.{version_line};

use std::io;
use std::io::Write;

/// The version of the program, and that it is proved, with which kit. `tools/unproved` compiles a copy of this file
/// that says the opposite.
pub(crate) const VERSION: &str = "opcmds 1.0 (rattle-kit-13f, proved)\n";

/// Prints the version.
pub(crate) fn write_version<W: Write>(output: &mut W) -> io::Result<()>
    ensures { OnOk result (Appends (W.contents output.old) (W.contents output.new) version_line) }
{
    output.write_all(VERSION.as_bytes())
}
