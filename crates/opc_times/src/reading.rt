//! The timestamp that a text names.
ghost use Rattle.std.specs.Prelude.{◌≡◌};
ghost use Rattle.opc_times.specs.Readings.{moment_in};

use jiff::Timestamp;
use std::str::FromStr;

/// The timestamp that a text names in the form of RFC 3339: `1970-01-01T00:00:03Z`, or with another offset from UTC. It
/// is a whole second, none before 1970.
#[tactic(auto, using(crate::proofs::Seconds::seconds, crate::proofs::Seconds::no_seconds))]
pub fn moment_in(text: &str) -> Option<u64>
    ensures { result ≡ moment_in text.now }
{
    let Ok(at) = Timestamp::from_str(text) else {
        return None;
    };
    match u64::try_from(at.as_second()) {
        Ok(moment) if at.subsec_nanosecond() == 0 => Some(moment),
        // The time is before 1970, or has a fraction of a second.
        _ => None,
    }
}
