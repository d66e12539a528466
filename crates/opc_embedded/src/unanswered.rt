//! Questions that are not answered, and what is said about them.
ghost use Rattle.std.specs.Prelude.{◌≡◌};
ghost use Rattle.opc_embedded.specs.Unanswered.{IsLinePrinted, line_of};

use opc_cli_failures::status::Status;
use opc_io::sink::write_whole;
use opc_io::watched::Watched;
use std::io::Write;

/// Why a question is not answered.
#[derive(Clone, Copy)]
pub enum Unanswered {
    /// It names a file or a database.
    NamesFile,
    /// It is none about a policy.
    OtherTask,
    TooLong,
    NotUtf8,
}

impl Unanswered {
    fn line(self) -> &'static str
        ensures { result.now ≡ line_of self }
    {
        match self {
            Unanswered::NamesFile => {
                "error: no file is opened here: leave out FILE, --policy, --db and db:\n"
            }
            Unanswered::OtherTask => {
                "error: only explain, who, check, may, diff and sheet are answered here\n"
            }
            Unanswered::TooLong => "error: the question has more than 65,536 bytes\n",
            Unanswered::NotUtf8 => "error: the question is not UTF-8\n",
        }
    }
}

/// Reports why a question is not answered.
pub(crate) fn not_answered<E: Write>(why: Unanswered, errors: &mut Watched<E>) -> Status
    ensures status { result ≡ Status.BadInput }
    ensures printed { IsLinePrinted E.contents errors.old errors.new (line_of why) }
{
    // The status says so, too, if nothing can be written.
    let _ = write_whole(errors, why.line().as_bytes());
    Status::BadInput
}
