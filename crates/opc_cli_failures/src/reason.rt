//! Why the program failed, in words.
use crate::bad_line::BadLine;
use arrayvec::ArrayString;
use opc_check::problem::RowProblem;
use opc_terms::fault::Subject;
use std::fmt::{Display, Formatter, Write as _};
use std::{fmt, io};

/// More bytes than the system's words for an error have.
const SYSTEM_WORDS: usize = 320;

/// What the program can report of a fault besides its line.
#[derive(Drop)]
pub enum Reason {
    System(io::Error),
    /// A script of more bytes than one may have.
    LongScript,
    /// A script that is not UTF-8.
    NotUtf8,
    /// Bytes that are no text of a policy file, for this reason.
    NoText(&'static str),
    /// A policy file whose first row is not the header, or that has no row, in words.
    NoHeader(String),
    /// Another row of a policy file, which is invalid or refused, and the line on which it begins.
    Row(RowProblem, Option<u64>),
    /// A line that is no request.
    Line(BadLine),
    /// What helps somebody whose words or line name no place: the whole of what is printed.
    Hint(String),
    /// An import without a console, over tables in which users are stored.
    UsersImported,
    /// A run with a first policy, over such tables.
    UsersRun,
    /// A console for which nobody acts.
    NobodyOn,
    /// The policy does not have this console.
    NoSuchConsole,
    /// One for which this user acts, without SPECIAL.
    NotSpecial(Subject),
    /// A name that means no file to SQLite.
    NoPath,
    /// A device or the like, or a file of several names.
    NoPlainFile,
    /// A database that another process has open.
    InUse,
    /// A database with a rollback journal, which SQLite alone can play back.
    Journal,
    NoDatabase,
    /// A database that holds tables of this version; 0 stands for another program's.
    Tables(u64),
    DiskFull,
    /// A database that is corrupt, or a device that fails.
    Unreadable,
}

impl Display for Reason {
    fn fmt<W: fmt::Write>(&self, f: &mut Formatter<W>) -> fmt::Result {
        match self {
            Reason::System(error) => {
                let mut words = ArrayString::<SYSTEM_WORDS>::new();
                write!(words, "{error}")?;
                // The error's number stands after the system's words.
                match words.as_str().split_once(" (os error ") {
                    Some((text, _)) => f.write_str(text),
                    None => f.write_str(words.as_str()),
                }
            }
            Reason::LongScript => f.write_str("more than 1,048,576 bytes"),
            Reason::NotUtf8 => f.write_str("not UTF-8"),
            Reason::NoText(words) => f.write_str(words),
            Reason::NoHeader(words) => f.write_str(words.as_str()),
            Reason::Row(problem, Some(line)) => {
                let (row, text) = (problem.number, problem.text.as_str());
                write!(f, "row {row}, line {line}: {text}")
            }
            Reason::Row(problem, None) => {
                write!(f, "row {}: {}", problem.number, problem.text.as_str())
            }
            Reason::Line(bad) => write!(f, "{bad}"),
            Reason::Hint(words) => f.write_str(words.as_str()),
            Reason::UsersImported => f.write_str("users are stored; use --console"),
            Reason::UsersRun => f.write_str("users are stored; leave out --policy"),
            Reason::NobodyOn => f.write_str("nobody is logged on"),
            Reason::NoSuchConsole => f.write_str("there is no such console"),
            Reason::NotSpecial(user) => write!(f, "{user} is not SPECIAL"),
            Reason::NoPath => f.write_str("not the path of a file"),
            Reason::NoPlainFile => f.write_str("not a plain file of one name"),
            Reason::InUse => f.write_str("in use by another program"),
            Reason::Journal => f.write_str("it has a rollback journal; open it with sqlite3 first"),
            Reason::NoDatabase => f.write_str("not a database"),
            Reason::Tables(0) => f.write_str("tables of another program"),
            Reason::Tables(version) => write!(f, "tables of version {version}"),
            Reason::DiskFull => f.write_str("the disk is full"),
            Reason::Unreadable => f.write_str("corrupt, or the disk is full or failing"),
        }
    }
}
