//! Times among the arguments of the command line.
ghost use Rattle.std.specs.Prelude.{◌≡◌, length};
ghost use Rattle.opc_cli_words.specs.Moments.{moment_of, row_time_of, second_text, time_of};

use crate::number::number_between;
use crate::span::seconds_ago;
use arrayvec::ArrayString;
use opc_account::asked::RowTime;
use opc_times::reading::moment_in;

/// The last timestamp.
const LAST_MOMENT: u64 = 9_999_999_999_999;

/// How many characters a day has, as 2026-11-27.
const DAY: usize = 10;

/// Which second of a day is meant.
#[derive(Clone, Copy)]
pub enum DaySecond {
    First,
    Last,
}

impl DaySecond {
    /// What follows a day in the text of this second, in UTC.
    fn text(self) -> &'static str
        ensures text { result.now ≡ second_text self }
        ensures length { length result.now ≡ 10 }
    {
        match self {
            DaySecond::First => "T00:00:00Z",
            DaySecond::Last => "T23:59:59Z",
        }
    }
}

/// The timestamp of a time, or of a second of a day.
fn time_of(second: DaySecond, text: &str) -> Option<u64>
    ensures { result ≡ time_of second text.now }
{
    if text.len() != DAY {
        return moment_in(text);
    }
    let mut time = ArrayString::<20>::new();
    if time.try_push_str(text).is_err() || time.try_push_str(second.text()).is_err() {
        return None;
    }
    moment_in(time.as_str())
}

/// A timestamp: `@` and its seconds since 1970, its time, or a second of a day.
fn moment_of(second: DaySecond, text: &str) -> Option<u64>
    ensures { result ≡ moment_of second text.now }
{
    match text.strip_prefix("@") {
        Some(seconds) => number_between(seconds, 0, LAST_MOMENT),
        None => time_of(second, text),
    }
}

/// A time that a query of the account names: how long ago, or a timestamp.
pub(crate) fn row_time_of(second: DaySecond, text: &str) -> Option<RowTime>
    ensures { result ≡ row_time_of second text.now }
{
    match seconds_ago(text) {
        Some(seconds) => Some(RowTime::Ago(seconds)),
        None => moment_of(second, text).map(RowTime::At),
    }
}
