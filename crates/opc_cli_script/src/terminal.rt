//! Where lines are typed and answered.

use crate::fault::NowFault;
use crate::reading_now::Typed;
use opc_cli_failures::reason::Reason;
use std::alloc::Global;

/// The source of lines, a clock and the sink of answers: a terminal, or pipes. It is one thing, so that the chain of
/// its calls has their order. Only the calls that a function over any terminal makes can show what it promises by these
/// relations.
pub trait Terminal {
    ghost use Rattle.std.specs.Prelude.{
      ◌≡◌,
      ℕ,
      Bool,
      List,
      Option,
      IfErr,
      IfOk,
      OnErr,
      OnOk,
      true,
      if◌then◌else◌,
      is_err,
    };
    ghost use Rattle.std.specs.Io.KnownBytes.{Appends};
    ghost use Rattle.opc_cli_script.specs.Running.{AppendsPrefix};
    ghost use Rattle.opc_cli_script.specs.Faults.{is_clock, is_input, is_output};
    ghost use Rattle.opc_cli_script.specs.declared.reading_now.Typed.{Typed as TheTyped};

    /// This was read.
    ghost reads: { Self → TheTyped → Self → Type 0 };

    /// The clock showed this time.
    ghost dates: { Self → ℕ → Self → Type 0 };

    /// A text was written, and then flushed.
    ghost says: { Self → List ℕ → Self → Type 0 };

    /// The bytes that were written, if they are known.
    ghost held: { Self → Option (List ℕ) };

    /// Whether a write failed.
    ghost has_failed: { Self → Bool };

    /// Which streams these are, whatever is read and written.
    ghost identity: { Self → ℕ × ℕ };

    /// The next line.
    fn read_line(&mut self, alloc: Global) -> Result<Typed, NowFault>
        ensures read { IfOk result (λ typed. reads self.old typed self.new) }
        ensures same { identity self.new ≡ identity self.old }
        ensures silent { held self.new ≡ held self.old }
        ensures failed { has_failed self.new ≡ has_failed self.old }
        ensures fault { IfErr result (λ fault. is_input fault ≡ true) };

    /// The time of the clock.
    fn moment(&mut self) -> Result<u64, NowFault>
        ensures dated { IfOk result (λ moment. dates self.old moment self.new) }
        ensures same { identity self.new ≡ identity self.old }
        ensures silent { held self.new ≡ held self.old }
        ensures failed { has_failed self.new ≡ has_failed self.old }
        ensures fault { IfErr result (λ fault. is_clock fault ≡ true) };

    /// Writes a text, and flushes it.
    fn say(&mut self, text: &str) -> Result<(), NowFault>
        ensures same { identity self.new ≡ identity self.old }
        ensures said { OnOk result (says self.old text.now self.new) }
        ensures text { OnOk result (Appends (held self.old) (held self.new) text.now) }
        ensures cut { OnErr result (AppendsPrefix (held self.old) (held self.new) text.now) }
        ensures failed { has_failed self.new ≡ (if is_err result then true else has_failed self.old) }
        ensures fault { IfErr result (λ fault. is_output fault ≡ true) };

    /// Reports why a line is bad, elsewhere than among the answers. No clause states that.
    fn note(&self, reason: &Reason);
}
