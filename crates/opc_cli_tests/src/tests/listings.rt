//! The outcome of listings, for each kind of user.
use super::room::UserTables;
use opc_gate_listings::account::account_on;
use opc_gate_listings::profiles::profiles_on;
use opc_machine::outcome::Outcome;
use opc_names::class::Class;
use opc_names::name::ConsoleName;
use opc_state::tables::Tables;
use opc_terms::fault::Fault;
use std::test::Fail;

const ALL: &str =
    "A.B UACC NONE OWNER CARL/A.* UACC NONE OWNER FRED WARNING/** UACC NONE OWNER FRED/";

fn fault_in(outcome: &Outcome) -> Option<Fault> {
    match outcome {
        Outcome::Done(_) => None,
        Outcome::Refused(refusal) => Some(refusal.fault),
    }
}

#[test]
fn profiles_are_listed(rt: HostRuntime) -> Result<(), Fail> {
    for (id, special, auditor, console, wanted) in [
        ("SECADM", true, false, "C1", ALL),
        ("AUDIT", false, true, "C1", ALL),
        ("CARL", false, false, "C2", "A.B UACC NONE OWNER CARL/"),
        ("ANNA", false, false, "C1", "** UACC NONE OWNER FRED/"),
        ("ANNA", false, false, "C2", ""),
    ] {
        let mut tables = UserTables::of(rt.alloc(), id, special, auditor, false)?;
        let console = tables.console(&ConsoleName::read(console)?)?;
        let outcome = profiles_on(&mut tables, rt.alloc(), console, Class::Opercmds)?;
        let mut reported = String::new(rt.alloc());
        if let Outcome::Done(effect) = outcome {
            for line in effect.lines.as_slice() {
                reported.push_str(line.text.as_str())?;
                reported.push_str("/")?;
            }
            assert!(rt; effect.rule.is_none() && effect.edits.is_empty());
        }
        assert_eq!(rt; reported.as_str(), wanted, "{id}");
    }
    Ok(())
}

#[test]
fn the_account_is_listed(rt: HostRuntime) -> Result<(), Fail> {
    let mut tables = UserTables::of(rt.alloc(), "AUDIT", false, true, false)?;
    let console = tables.console(&ConsoleName::read("C1")?)?;
    let outcome = account_on(&mut tables, rt.alloc(), console, 2, 1)?;
    let mut reported = String::new(rt.alloc());
    if let Outcome::Done(effect) = outcome {
        for line in effect.lines.as_slice() {
            reported.push_str(line.text.as_str())?;
            reported.push_str("/")?;
        }
    }
    assert_eq!(rt; reported.as_str(), "2 102 C3 - E12 LOGONREQUIRED/");
    Ok(())
}

#[test]
fn listings_are_refused(rt: HostRuntime) -> Result<(), Fail> {
    let mut tables = UserTables::of(rt.alloc(), "CARL", false, false, false)?;
    let console = tables.console(&ConsoleName::read("C1")?)?;
    let outcome = account_on(&mut tables, rt.alloc(), console, 1, 10)?;
    assert_eq!(rt; fault_in(&outcome), Some(Fault::NotSpecial));
    let mut tables = UserTables::of(rt.alloc(), "OLD", true, true, true)?;
    let console = tables.console(&ConsoleName::read("C1")?)?;
    let outcome = profiles_on(&mut tables, rt.alloc(), console, Class::Opercmds)?;
    assert_eq!(rt; fault_in(&outcome), Some(Fault::Revoked));
    Ok(())
}
