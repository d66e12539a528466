//! `opcmds decide`: other programs are answered by a policy file. It is loaded once before anybody is answered, so that
//! whoever starts the program learns what is wrong with it.
ghost use Rattle.opc_cli.specs.Deciding.{IsServedBy, IsTried};
ghost use Rattle.opc_cli.specs.Words.{IsDecideDone};

use crate::socket_at;
use opc_check::unread::POLICY_LIMIT;
use opc_cli_failures::failure::{Failure, Paths, reported};
use opc_cli_failures::status::Status;
use opc_cli_program::decide::serve_decisions;
use opc_cli_program::ports::System;
use opc_cli_questions::comparing::side_refused;
use opc_cli_questions::sides::side_at;
use opc_cli_tasks::source::NamedPolicy;
use opc_cli_tasks::work::Decide;
use opc_decide_files::decider::FileDecider;
use opc_decide_present::present::PresentPolicy;
use opc_decide_present::system::PolicyPath;
use opc_io::watched::Watched;
use std::io::Write;

/// Reads and loads the policy file at a path.
fn try_policy(rt: &HostRuntime, path: &str) -> Result<(), Failure>
    ensures { IsTried result }
{
    match side_at(rt.alloc(), rt, path) {
        Ok(_) => Ok(()),
        Err(failure) => Err(failure),
    }
}

/// The files that messages name.
fn paths_of<'a>(decide: &Decide<'a>) -> Paths<'a> {
    Paths {
        database: None,
        policy: Some(decide.policy),
        socket: socket_at(&decide.clients),
        log: None,
        policies: None,
    }
}

/// Answers questions by the policy file at a path, which is read anew whenever it was replaced.
fn serve_policy<W: Write>(
    rt: &HostRuntime,
    decide: &Decide<'_>,
    output: &mut W,
) -> Result<Status, Failure>
    ensures { IsServedBy W.contents output.old output.new decide.now result }
{
    let place = PolicyPath::new(rt, decide.policy, POLICY_LIMIT);
    let policy = PresentPolicy::new(place, FileDecider);
    serve_decisions(rt, &System { net: rt }, policy, decide, output)
}

/// Answers other programs, and returns the status.
pub(crate) fn decide<W: Write, E: Write>(
    rt: &HostRuntime,
    decide: &Decide<'_>,
    output: &mut Watched<W>,
    errors: &mut Watched<E>,
) -> Status
    ensures { IsDecideDone W.contents E.contents output.old output.new errors.old errors.new result decide.now }
{
    match try_policy(rt, decide.policy) {
        Ok(()) => {
            let end = serve_policy(rt, decide, &mut output.inner);
            reported(end, &paths_of(decide), errors)
        }
        Err(failure) => side_refused(failure, &NamedPolicy::File(decide.policy), errors),
    }
}
