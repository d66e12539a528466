//! Where a service logs its exchanges, and a run its requests.
ghost use Rattle.std.specs.Prelude.{IfOk};

use std::fs::{File, OpenOptions};
use std::io;
use std::io::Write;
use std::os::unix::fs::OpenOptionsExt;
use std::rt::Stderr;

/// The permissions of a log that is made: its owner alone reads it.
const OWNER_ALONE: u32 = 0o600;

/// What has a stream for a log, and opens the files of others.
pub trait LogStream {
    ghost use Rattle.std.specs.Prelude.{ℕ, List};

    type Stream: Write + Drop;

    /// A file to which lines are added.
    type LogFile: Write + Drop;

    /// This stream was given for a log. Only a call can show what a function over any of these promises by it.
    ghost is_for_logs: { Self → Self.Stream → Type 0 };

    /// The file at this path was opened. Only a call can show what a function over any of these promises by this.
    ghost opens: { Self → List ℕ → Self.LogFile → Type 0 };

    fn log_stream(&self) -> Self::Stream
        ensures { is_for_logs self.now result };

    /// Opens the file at a path, so that what is written is added to it; makes it if it is not there.
    fn open_log(&self, path: &str) -> io::Result<Self::LogFile>
        ensures { IfOk result (λ file. opens self.now path.now file) };
}

impl LogStream for HostRuntime {
    type Stream = Stderr;

    type LogFile = File;

    ghost is_for_logs = { λ _ _. Unit {0} };

    ghost opens = { λ _ _ _. Unit {0} };

    /// Standard error.
    fn log_stream(&self) -> Stderr {
        self.stderr()
    }

    fn open_log(&self, path: &str) -> io::Result<File> {
        OpenOptions::new()
            .append(true)
            .create(true)
            .mode(OWNER_ALONE)
            .open(self, path)
    }
}
