//! Where a policy comes from.

/// Where a policy comes from.
#[derive(Clone, Copy)]
pub enum PolicySource<'a> {
    /// A policy file: the one at this path, or the one on the input.
    PolicyFile(Option<&'a str>),
    /// The tables of the database file at this path.
    Database(&'a str),
}

/// A policy that is compared with another one.
#[derive(Clone, Copy)]
pub enum NamedPolicy<'a> {
    /// The policy file at this path.
    File(&'a str),
    /// The tables of the database file at this path.
    Database(&'a str),
}
