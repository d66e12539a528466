//! Questions about a policy, each answered by the policy file or the database file that it names.
ghost use Rattle.sqlite.specs.WalFiles.{image_at};
ghost use Rattle.opc_store_file.specs.Copies.{IsAsRead};
ghost use Rattle.opc_cli.specs.Words.{IsAnsweredFrom};

use crate::reading::{DatabaseQuestion, read_in_file};
use opc_cli_failures::status::Status;
use opc_cli_questions::file_answer::answer_by_file;
use opc_cli_tasks::question::PolicyQuestion;
use opc_cli_tasks::source::PolicySource;
use opc_io::watched::Watched;
use opc_store_file::copy::CopyFrom;
use sqlite::Start;
use sqlite_disk::Disk;
use std::io::{Read, Write};

/// Answers a question from its source, and returns the status.
pub(crate) fn answer_from<S: Start, R: Read, W: Write, E: Write>(
    rt: &HostRuntime,
    start: S,
    source: PolicySource<'_>,
    question: &PolicyQuestion<'_>,
    input: &mut R,
    output: &mut Watched<W>,
    errors: &mut Watched<E>,
) -> Status
    ensures { IsAnsweredFrom ⟦<CopyFrom<S> as Disk>⟧ IsAsRead (image_at S.Start) W.contents E.contents
        (R.remaining input.old) output.old output.new errors.old errors.new result source.entry question.now }
{
    match source {
        PolicySource::PolicyFile(policy) => {
            answer_by_file(rt.alloc(), rt, policy, question, input, output, errors)
        }
        PolicySource::Database(path) => {
            let reading = DatabaseQuestion::Answer(question);
            read_in_file(rt, start, path, &reading, output, errors)
        }
    }
}
