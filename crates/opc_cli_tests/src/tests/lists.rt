//! How a list of requests is answered over tables that fail.
use super::room::UserTables;
use opc_board::event::Event;
use opc_gate::gate::Gate;
use opc_gate::request::{Answer, Request};
use opc_terms::fault::Fault;
use std::test::Fail;

#[test]
fn each_request_of_a_list_has_its_answer(rt: HostRuntime) -> Result<(), Fail> {
    let mut requests = Vec::new(rt.alloc());
    for moment in 0..3 {
        requests.push((moment, Request::Event(Event::Resume)))?;
    }
    let mut gate = Gate::over(UserTables::failing(rt.alloc()));
    let answers = gate.run(rt.alloc(), requests.as_slice())?;
    assert_eq!(rt; answers.len(), 3);
    for answer in &answers {
        assert!(rt;
            matches!(
                answer,
                Answer::Refused {
                    fault: Fault::Store,
                    rule: None
                }
            )
        );
    }
    Ok(())
}
