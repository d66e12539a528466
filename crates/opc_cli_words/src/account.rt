//! The arguments of `opcmds account`.
ghost use Rattle.std.specs.Prelude.{◌≡◌, Some, codes, is_some, ⊤};
ghost use Rattle.std.specs.Option.{option_copied, option_map_or};
ghost use Rattle.clap.specs.Matches.{first_value, found_of};
ghost use Rattle.opc_account.specs.Codes.{are_known};
ghost use Rattle.opc_cli_words.specs.Accounts.{
  IsFirst,
  IsTime,
  IsTimedFilter,
  account_checks,
  filter_checks,
  first_checks,
  is_console,
  is_user,
  option_check,
  rows_of,
  time_check,
};
ghost use Rattle.opc_cli_words.specs.Checks.{AreReadAs, IsReadAs};
ghost use Rattle.opc_cli_words.specs.Tasks.{IsTaskOf};

use crate::flag::is_set;
use crate::mistake::{Mistake, Opt};
use crate::moment::{DaySecond, row_time_of};
use crate::number::number_between;
use crate::source::database_in;
use clap::ArgMatches;
use opc_account::asked::{AskedQuery, RowTime};
use opc_account::codes::are_known;
use opc_account::filter::Filter;
use opc_account::query::{First, Query};
use opc_cli_tasks::task::Task;
use opc_names::name::{ConsoleName, UserId};

/// As many rows as an account can have.
const ALL_ROWS: u64 = 9_223_372_036_854_775_807;

/// The number of a row, or a number of rows.
fn rows_of(text: &str) -> Option<u64>
    ensures { result ≡ rows_of text.now }
{
    number_between(text, 1, ALL_ROWS)
}

/// A number of rows, if one is given.
fn rows_in(given: Option<&str>, usual: u64, option: Opt) -> Result<u64, Mistake>
    ensures { IsReadAs (λ n. option_map_or rows_of (option_copied given.entry) (Some usual) ≡ Some n)
        (option_check option (λ text. is_some (rows_of text)) (option_copied given.entry)) result }
{
    let Some(text) = given else {
        return Ok(usual);
    };
    match rows_of(text) {
        Some(rows) => Ok(rows),
        None => Err(Mistake::Unread(option)),
    }
}

/// The first row that is looked at.
fn first_in(from: Option<&str>, last: Option<&str>) -> Result<First, Mistake>
    ensures { AreReadAs (IsFirst (option_copied from.entry) (option_copied last.entry))
        (first_checks (option_copied from.entry) (option_copied last.entry)) result }
{
    match (from, last) {
        (Some(_), Some(_)) => Err(Mistake::TwoBeginnings),
        (from, None) => Ok(First::Number(rows_in(from, 1, Opt::From)?)),
        (None, last) => Ok(First::Last(rows_in(last, 1, Opt::Last)?)),
    }
}

/// A time, if one is given.
fn time_given(
    given: Option<&str>,
    option: Opt,
    second: DaySecond,
) -> Result<Option<RowTime>, Mistake>
    ensures { IsReadAs (IsTime second (option_copied given.entry))
        (time_check option second (option_copied given.entry)) result }
{
    let Some(text) = given else {
        return Ok(None);
    };
    match row_time_of(second, text) {
        Some(time) => Ok(Some(time)),
        None => Err(Mistake::Unread(option)),
    }
}

fn is_user(text: &str) -> bool
    ensures { result ≡ is_user text.now }
{
    text == "-" || UserId::read(text).is_ok()
}

fn is_console(text: &str) -> bool
    ensures { result ≡ is_console text.now }
{
    text == "*" || ConsoleName::read(text).is_ok()
}

/// A user, or nobody, if one is given.
fn user_given(given: Option<&str>) -> Result<(), Mistake>
    ensures { IsReadAs (λ _. ⊤) (option_check Opt.User is_user (option_copied given.entry)) result }
{
    match given {
        Some(text) if !is_user(text) => Err(Mistake::Unread(Opt::User)),
        // None is given, or it is valid.
        _ => Ok(()),
    }
}

/// A console, or that of events, if one is given.
fn console_given(given: Option<&str>) -> Result<(), Mistake>
    ensures { IsReadAs (λ _. ⊤) (option_check Opt.Console is_console (option_copied given.entry)) result }
{
    match given {
        Some(text) if !is_console(text) => Err(Mistake::Unread(Opt::Console)),
        // None is given, or it is valid.
        _ => Ok(()),
    }
}

/// The requested codes, if some are given.
fn codes_given(given: Option<&str>) -> Result<(), Mistake>
    ensures { IsReadAs (λ _. ⊤) (option_check Opt.Code are_known (option_copied given.entry)) result }
{
    match given {
        Some(text) if !are_known(text) => Err(Mistake::Unread(Opt::Code)),
        // No codes are given, or all of them exist.
        _ => Ok(()),
    }
}

/// What rows must meet: times as they are given, and a filter without times.
struct TimedFilter<'a> {
    since: Option<RowTime>,
    until: Option<RowTime>,
    filter: Filter<'a>,
}

fn filter_in<'a>(chosen: &ArgMatches<'a>) -> Result<TimedFilter<'a>, Mistake>
    ensures { AreReadAs (IsTimedFilter (first_value (found_of chosen.now)))
        (filter_checks (first_value (found_of chosen.now))) result }
{
    let since = time_given(chosen.get_str("since"), Opt::Since, DaySecond::First)?;
    let until = time_given(chosen.get_str("until"), Opt::Until, DaySecond::Last)?;
    let (user, console) = (chosen.get_str("user"), chosen.get_str("console"));
    user_given(user)?;
    console_given(console)?;
    let codes = chosen.get_str("code");
    codes_given(codes)?;
    let filter = Filter {
        since: None,
        until: None,
        user,
        console,
        codes,
    };
    Ok(TimedFilter {
        since,
        until,
        filter,
    })
}

/// What these arguments ask for, or the first mistake in their options.
pub(crate) fn account<'a>(chosen: &ArgMatches<'a>) -> Result<Task<'a>, Mistake>
    ensures { AreReadAs (IsTaskOf (first_value (found_of chosen.now)) (codes "account"))
        (account_checks (first_value (found_of chosen.now))) result }
{
    let first = first_in(chosen.get_str("from"), chosen.get_str("last"))?;
    let count = rows_in(chosen.get_str("count"), ALL_ROWS, Opt::Count)?;
    let TimedFilter {
        since,
        until,
        filter,
    } = filter_in(chosen)?;
    let query = Query {
        first,
        count,
        filter,
        json: is_set(chosen, "json"),
    };
    let asked = AskedQuery {
        since,
        until,
        query,
    };
    Ok(Task::Account(database_in(chosen), asked))
}
