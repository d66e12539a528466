//! The level that a user holds, written from the definition alone. A level is a number, the higher the more access.

/// The levels of the entries that are for every console, or for one alone: the user's own, those of two groups of the
/// user's, and that for everyone.
#[derive(Clone, Copy)]
pub struct Sources {
    pub own: Option<u8>,
    pub groups: [Option<u8>; 2],
    pub everyone: Option<u8>,
}

/// The level of the first source that has one.
fn first(sources: &Sources, restricted: bool) -> Option<u8> {
    match (sources.own, sources.groups) {
        (Some(level), _) => Some(level),
        (None, [Some(level), Some(other)]) => Some(if level < other { other } else { level }),
        (None, [Some(level), None]) | (None, [None, Some(level)]) => Some(level),
        (None, [None, None]) if restricted => None,
        (None, [None, None]) => sources.everyone,
    }
}

/// The level by the entries for every console and by the universal access, or, if it is higher, the level by the
/// entries for the console at which the user is.
pub fn held(plain: &Sources, there: Option<&Sources>, universal: u8, restricted: bool) -> u8 {
    let level = match first(plain, restricted) {
        Some(level) => level,
        None if restricted => 0,
        None => universal,
    };
    match there.and_then(|there| first(there, restricted)) {
        Some(raised) if level < raised => raised,
        _ => level,
    }
}
