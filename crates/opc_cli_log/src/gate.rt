//! A gate with a log of the requests that it handles.
ghost use Rattle.opc_cli_log.specs.RunLogs.{IsLoggedRequest, logged_meaning};

use crate::log::RunLog;
use opc_cli_script::handler::RequestHandler;
use opc_gate::gate::Gate;
use opc_http::telling::row_of;
use opc_machine::request::{Answer, Request};
use opc_state::tables::Tables;
use std::alloc::Global;
use std::io::Write;

/// A gate, and the log of the requests that it handles.
#[derive(Drop)]
pub struct LoggedGate<T: Tables, W> {
    pub gate: Gate<T>,
    pub log: RunLog<W>,
}

impl<T: Tables, W: Write> RequestHandler for LoggedGate<T, W> {
    ghost meaning = { logged_meaning T.meaning };

    ghost handled = { IsLoggedRequest T.meaning W.contents };

    /// The line is added before the answer is returned, so that it is there even if the answer cannot be printed.
    fn handle_one(&mut self, alloc: Global, moment: u64, request: &Request) -> Answer {
        let user = self.gate.acting_user(alloc, request);
        let answer = self.gate.handle(alloc, moment, request);
        let row = row_of(alloc, &mut self.gate, &answer, true);
        self.log.add(alloc, moment, request, &user, &answer, &row);
        answer
    }
}
