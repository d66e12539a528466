//! A law of command lines.
ghost use Rattle.std.specs.Prelude.{ℕ, List};
ghost use Rattle.opc_reader.specs.Lines.{ReadsInOneWay};

/// Each line is one command or has one fault, and never both.
pub fn reads_in_one_way()
    ensures { (line : List ℕ) → ReadsInOneWay line }
{}
