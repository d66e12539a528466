//! The standard streams, if the program is started with some of them closed.

const INPUT: i32 = libc::STDIN_FILENO;

const OUTPUT: i32 = libc::STDOUT_FILENO;

const ERRORS: i32 = libc::STDERR_FILENO;

/// Opens the null device in the place of each standard stream that is closed. Otherwise the next connection would get
/// its number, and be read or written as the stream. The device is opened the other way round, so that a closed input
/// still cannot be read, nor a closed output written.
pub fn hold_closed() {
    for (number, access) in [
        (INPUT, libc::O_WRONLY),
        (OUTPUT, libc::O_RDONLY),
        (ERRORS, libc::O_RDONLY),
    ] {
        if !is_open(number) {
            // It gets the lowest number that is free: this one, since those below are open by now.
            os::open_with(b"/dev/null", access, 0);
        }
    }
}

fn is_open(number: i32) -> bool {
    let copy = os::duplicate(number);
    if copy < 0 {
        return false;
    }
    libc::close(copy);
    true
}
