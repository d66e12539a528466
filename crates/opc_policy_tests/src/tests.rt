//! Rulings over a policy, and sources of profiles and allocations that fail.
use opc_import::fault::ImportFault;
use opc_import::read::read_policy;
use opc_import::write::write_policy;
use opc_names::auth::Auth;
use opc_names::class::Class;
use opc_names::group::Group;
use opc_names::level::Level;
use opc_names::name::{ConsoleName, GroupName, Resource, UserId};
use opc_policy::{ClassProfiles, Need, Policy, ProfileSource, StoreFault, Taken, rule_on, search};
use std::alloc::Global;
use std::test::Fail;

const FILE: &str = "kind,class,name,id,value,owner,flags,digest,when,restricted\n\
class,OPERCMDS,,,ACTIVE,,,,,\n\
group,,OPS,,,,,,,\n\
user,,CARL,,,,,,,Y\n\
user,,SECADM,,,,S,b5d4045c3f466fa91fe2cc6abe79232a1a57cdf104f7a26e716e0a1e2789df78,,\n\
connect,,SECADM,OPS,,,,,,\n\
console,,C1,,\"SYS,CONS\",,REQUIRED,,,\n\
console,,C2,,INFO,,AUTO,,,\n\
profile,OPERCMDS,MVS.CANCEL.JOB.PAY*,,NONE,SECADM,,,,\n\
profile,OPERCMDS,MVS.CANCEL.JOB.*,,NONE,SECADM,,,,\n\
profile,OPERCMDS,MVS.DISPLAY.**,,READ,SECADM,,,,\n\
profile,OPERCMDS,MVS.VARY.DEV,,NONE,SECADM,W,,,\n\
permit,OPERCMDS,MVS.CANCEL.JOB.*,OPS,UPDATE,,,,,\n\
permit,OPERCMDS,MVS.CANCEL.JOB.*,OPS,CONTROL,,,,C1,\n";

fn policy(alloc: Global) -> Result<Policy, Fail> {
    let mut policy = Policy::new(alloc);
    for row in read_policy(alloc, FILE)?.as_slice() {
        policy.take(alloc, row)?;
    }
    Ok(policy)
}

/// A policy that fails if it is searched for a head that is shorter than this.
#[derive(Drop)]
struct FailingBelow {
    policy: Policy,
    least: usize,
}

impl ProfileSource for FailingBelow {
    ghost use Rattle.std.specs.Prelude.{⊤};

    ghost has = { λ _ _. ⊥ };

    ghost is_ready = { λ _. ⊤ };

    ghost is_faithful = { λ _. ⊥ };

    ghost is_kept = { λ _ _. ⊤ };

    ghost is_open = { λ _. ⊤ };

    ghost kept_itself = { λ _. tt };

    ghost kept_again = { λ _ _ _ _ _. tt };

    ghost can_fail_with = { λ _. ⊤ };

    fn first_in(
        &mut self,
        class: Class,
        head: &str,
        resource: &Resource,
    ) -> Result<Taken, StoreFault> {
        if head.len() < self.least {
            return Err(StoreFault::Store);
        }
        self.policy.first_in(class, head, resource)
    }
}

#[test]
fn no_head_after_the_deciding_one_is_asked_for(rt: HostRuntime) -> Result<(), Fail> {
    for (name, pattern, head, ranges, rows) in [
        ("MVS.CANCEL.JOB.PAYROLL", "MVS.CANCEL.JOB.PAY*", 18, 5, 1),
        ("MVS.CANCEL.JOB.BACKUP", "MVS.CANCEL.JOB.*", 15, 7, 1),
        ("MVS.DISPLAY.U", "MVS.DISPLAY.**", 11, 3, 1),
        ("Q", "-", 0, 2, 0),
    ] {
        let resource = Resource::read(name)?;
        let mut source = FailingBelow {
            policy: policy(rt.alloc())?,
            least: head,
        };
        let found = search(&mut source, Class::Opercmds, &resource)?;
        let decided = found.profile.map(|profile| profile.pattern);
        let decided = decided.as_ref().map_or("-", |pattern| pattern.text());
        assert_eq!(rt; decided, pattern);
        assert_eq!(rt; found.ranges, ranges, "ranges of {name}");
        assert_eq!(rt; found.rows, rows, "rows of {name}");
        source.least = head.saturating_add(1);
        let failed = search(&mut source, Class::Opercmds, &resource);
        assert_eq!(rt; failed.err(), Some(StoreFault::Store));
    }
    Ok(())
}

#[test]
fn a_class_answers_whole_or_its_first(rt: HostRuntime) -> Result<(), Fail> {
    let policy = policy(rt.alloc())?;
    let all = policy.all(rt.alloc(), Class::Opercmds)?;
    assert_eq!(rt; all.len(), 4);
    let first = policy.first(Class::Opercmds, &Resource::read("MVS.CANCEL.JOB.BACKUP")?)?;
    let pattern = first.profile.map(|profile| profile.pattern);
    let pattern = pattern.as_ref().map_or("-", |pattern| pattern.text());
    assert_eq!(rt; pattern, "MVS.CANCEL.JOB.*");
    assert_eq!(rt; policy.all(rt.alloc(), Class::Console)?.len(), 0);
    Ok(())
}

// The profile decides for a user if the class is active, and otherwise the authority of the console decides.
#[test]
fn a_ruling_names_its_rule(rt: HostRuntime) -> Result<(), Fail> {
    let mut policy = policy(rt.alloc())?;
    let need = Need {
        resource: Resource::read("MVS.CANCEL.JOB.BACKUP")?,
        level: Level::Control,
        group: Group::Sys,
    };
    let found = search(&mut policy, Class::Opercmds, &need.resource)?;
    let user = policy.users.get(&UserId::read("SECADM")?);
    let (console, groups) = (ConsoleName::read("C1")?, [GroupName::read("OPS")?]);
    for (active, user, console, auth, wanted) in [
        (
            true,
            user,
            Some(&console),
            Auth::Info,
            "PROFILE OPERCMDS MVS.CANCEL.JOB.* HELD CONTROL NEEDED CONTROL",
        ),
        (
            true,
            user,
            None,
            Auth::Master,
            "PROFILE OPERCMDS MVS.CANCEL.JOB.* HELD UPDATE NEEDED CONTROL",
        ),
        (false, user, None, Auth::Master, "GROUP SYS AUTH MASTER"),
        (
            true,
            None,
            Some(&console),
            Auth::Info,
            "GROUP SYS AUTH INFO",
        ),
    ] {
        let ruling = rule_on(&found, active, user, console, &groups, auth, &need);
        assert_eq!(rt; ruling.rule().text(rt.alloc())?.as_str(), wanted);
    }
    Ok(())
}

// Under an allocator that refuses a request, each call answers in full or reports the failed allocation.
#[test]
fn memory_may_be_refused(rt: HostRuntime) {
    match read_policy(rt.alloc(), FILE) {
        Ok(rows) => {
            assert_eq!(rt; rows.len(), 13);
            if let Ok(text) = write_policy(rt.alloc(), rows.as_slice()) {
                assert!(rt; text.as_str() == FILE);
            }
        }
        Err(fault) => assert_eq!(rt; fault, ImportFault::NoMemory),
    }
}
