//! The answer of a policy file to any question about a policy.
ghost use Rattle.opc_cli_questions.specs.FileAnswers.{IsAnsweredByFile};
ghost use Rattle.opc_cli_questions.specs.Printed.{left_in};

use crate::answer::answer_question;
use crate::checking::answer_check;
use crate::may::answer_may;
use crate::openings::Openings;
use crate::sheet::answer_sheet;
use opc_cli_failures::status::Status;
use opc_cli_tasks::question::PolicyQuestion;
use opc_io::watched::Watched;
use std::alloc::Global;
use std::io::{Read, Write};

/// Answers a question by the policy file at a path, or by the one on the input, and returns the status.
pub fn answer_by_file<F: Openings, R: Read, W: Write, E: Write>(
    alloc: Global,
    files: &F,
    policy: Option<&str>,
    question: &PolicyQuestion<'_>,
    input: &mut R,
    output: &mut Watched<W>,
    errors: &mut Watched<E>,
) -> Status
    ensures { IsAnsweredByFile W.contents E.contents output.old output.new errors.old errors.new result question.now
        (left_in (F.holds files.now) (R.remaining input.old) policy.entry) }
{
    let output = &mut output.inner;
    match question {
        PolicyQuestion::Ask(ask) => {
            answer_question(alloc, files, policy, ask, input, output, errors)
        }
        PolicyQuestion::Check(check) => {
            answer_check(alloc, files, policy, check, input, output, errors)
        }
        PolicyQuestion::May(asked) => {
            answer_may(alloc, files, policy, asked, input, output, errors)
        }
        PolicyQuestion::Sheet(name) => {
            answer_sheet(alloc, files, policy, name, input, output, errors)
        }
    }
}
