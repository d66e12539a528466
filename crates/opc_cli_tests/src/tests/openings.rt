//! The faults of an opening as those that the program prints.
use opc_store::OpenFault;
use opc_terms::fault::Fault;
use std::test::Fail;

#[test]
fn an_opening_fails_by_its_number(rt: HostRuntime) -> Result<(), Fail> {
    for (fault, code, text) in [
        (OpenFault::NoMemory, "E90", "NoMemory"),
        (OpenFault::Store, "E91", "Store"),
        (OpenFault::NotOurs(4), "E92", "NotOurs 4"),
    ] {
        let fault = Fault::from(fault);
        assert_eq!(rt; fault.code(), code);
        assert_eq!(rt; fault.text(rt.alloc())?.as_str(), text);
    }
    Ok(())
}
