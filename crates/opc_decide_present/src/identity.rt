//! Which file is there, and which state of it.
ghost use Rattle.std.specs.Prelude.{◌≡◌, ◌↔◌, IsTrue};

/// Which file was found: its device and its number there, its size, and when it was last written to. As long as a file
/// is open, the system gives its number to no other file, even if it is removed.
#[derive(Clone, Copy, Debug)]
pub struct FileIdentity {
    pub device: u64,
    pub number: u64,
    pub size: u64,
    pub seconds: i64,
    pub nanoseconds: i64,
}

/// Whether two observations are of the same file, and nobody wrote to it between them.
pub fn is_same(one: FileIdentity, other: FileIdentity) -> bool
    ensures { IsTrue result ↔ one ≡ other }
{
    one.device == other.device
        && one.number == other.number
        && one.size == other.size
        && one.seconds == other.seconds
        && one.nanoseconds == other.nanoseconds
}
