//! Queries as they are asked: their times may be so long ago.
ghost use Rattle.std.specs.Prelude.{◌≡◌, option_map};
ghost use Rattle.opc_account.specs.Asked.{query_at, time_at};

use crate::filter::Filter;
use crate::query::Query;

/// A time that a query names.
#[derive(Clone, Copy)]
pub enum RowTime {
    /// This timestamp.
    At(u64),
    /// This many seconds ago.
    Ago(u64),
}

impl RowTime {
    /// Its timestamp, by the clock.
    fn at(self, now: u64) -> u64
        ensures { result ≡ time_at now self }
    {
        match self {
            RowTime::At(moment) => moment,
            RowTime::Ago(seconds) => now.saturating_sub(seconds),
        }
    }
}

/// A query, and the times from which on and up to which it asks for rows. Its filter has none of its own.
#[derive(Clone, Copy)]
pub struct AskedQuery<'a> {
    pub since: Option<RowTime>,
    pub until: Option<RowTime>,
    pub query: Query<'a>,
}

fn moment_of(time: Option<RowTime>, now: u64) -> Option<u64>
    ensures { result ≡ option_map (time_at now) time }
{
    match time {
        Some(time) => Some(time.at(now)),
        None => None,
    }
}

impl<'a> AskedQuery<'a> {
    /// The query, by the clock.
    pub fn at(&self, now: u64) -> Query<'a>
        ensures { result ≡ query_at now self.now }
    {
        let filter = Filter {
            since: moment_of(self.since, now),
            until: moment_of(self.until, now),
            ..self.query.filter
        };
        Query {
            filter,
            ..self.query
        }
    }
}
