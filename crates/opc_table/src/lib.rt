//! What each command needs: its command group, the level of access, and the resource on which it is needed.
#![tactic(auto)]

ghost use Rattle.std.specs.Prelude.{◌≡◌, ◌≤◌, IsTrue, length};
ghost use Rattle.opc_names.specs.Names.{is_resource};
ghost use Rattle.opc_table.specs.Table.{need, needs, started, of_unit, forced};
ghost use Rattle.opc_names.specs.declared.group.Group.TheVariants.{Info, Sys, Io};
ghost use Rattle.opc_names.specs.declared.level.Level.TheVariants.{Read, Update};

use opc_names::group::Group::{self, Cons, Info, Io, Master, Sys};
use opc_names::level::Level::{self, Control, Read, Update};
use opc_names::name::{Resource, UnitName};
use opc_reader_commands::command::Command;
use opc_terms::need::Need;
use opc_terms::unit_kind::UnitKindAt;

fn needs(group: Group, level: Level, resource: Resource) -> Option<Need>
    ensures { result ≡ needs group level resource }
{
    Some(Need {
        resource,
        level,
        group,
    })
}

fn fixed(group: Group, level: Level, words: &str) -> Option<Need>
    requires { IsTrue (is_resource words.now) }
    ensures { result ≡ needs group level words.now }
{
    needs(group, level, Resource::of_words(words))
}

/// What a command that only displays or sends needs.
fn info(words: &str) -> Option<Need>
    requires { IsTrue (is_resource words.now) }
    ensures { result ≡ needs Info Read words.now }
{
    fixed(Info, Read, words)
}

/// What a command on a unit needs.
fn sys(resource: Resource) -> Option<Need>
    ensures { result ≡ needs Sys Update resource }
{
    needs(Sys, Update, resource)
}

/// What a command on a device needs.
fn io(words: &str) -> Option<Need>
    requires { IsTrue (is_resource words.now) }
    ensures { result ≡ needs Io Update words.now }
{
    fixed(Io, Update, words)
}

/// The resource of a started task.
fn started(words: &str, member: &UnitName, id: &UnitName) -> Resource
    requires words { IsTrue (is_resource words.now) }
    requires short { length words.now ≤ 14 }
    ensures { result ≡ started words.now member.now id.now }
{
    Resource::of_words(words).with(member).with(id)
}

/// The resource of a unit: a started task's, or a job's, even if no unit or a user's session has the name.
fn of_unit(job: &str, task: &str, kind: UnitKindAt, name: &UnitName) -> Resource
    requires job { IsTrue (is_resource job.now) }
    requires task { IsTrue (is_resource task.now) }
    requires short_job { length job.now ≤ 14 }
    requires short_task { length task.now ≤ 14 }
    ensures { result ≡ of_unit job.now task.now kind name.now }
{
    match kind {
        UnitKindAt::Stc { member } => started(task, &member, name),
        UnitKindAt::Absent | UnitKindAt::Job | UnitKindAt::Tsu => {
            Resource::of_words(job).with(name)
        }
    }
}

/// The resource for FORCE of a unit; a user's session has a form of its own.
fn forced(kind: UnitKindAt, name: &UnitName) -> Resource
    ensures { result ≡ forced kind name.now }
{
    match kind {
        UnitKindAt::Tsu => Resource::of_words("MVS.FORCE.TSU").with(name),
        kind => of_unit("MVS.FORCE.JOB", "MVS.FORCE.STC", kind, name),
    }
}

/// What a command needs (MVS System Commands, RACF guide: resource names of operator commands), if the unit that it
/// names is of this kind on the board. The kind counts for C name, FORCE, P and F alone. LOGON and LOGOFF need nothing
/// here. It allocates nothing.
pub fn need(command: &Command<'_>, kind: UnitKindAt) -> Option<Need>
    ensures { result ≡ need command.now kind }
{
    match command {
        Command::DisplayUnits | Command::DisplayUnit(_) => info("MVS.DISPLAY.JOB"),
        Command::DisplayDevices => info("MVS.DISPLAY.U"),
        Command::DisplayConsoles => info("MVS.DISPLAY.CN"),
        Command::DisplayReplies => info("MVS.DISPLAY.R"),
        Command::Cancel(name) => sys(of_unit(
            "MVS.CANCEL.JOB",
            "MVS.CANCEL.STC",
            kind,
            &name.value,
        )),
        Command::CancelUser(user) => sys(Resource::of_words("MVS.CANCEL.TSU").with(&user.value)),
        Command::Force(name) => needs(Master, Control, forced(kind, &name.value)),
        Command::Start(member) => sys(started("MVS.START.STC", &member.value, &member.value)),
        Command::StartAs(member, id) => sys(started("MVS.START.STC", &member.value, &id.value)),
        Command::Stop(name) => sys(of_unit("MVS.STOP.JOB", "MVS.STOP.STC", kind, &name.value)),
        Command::Modify(name, _) => sys(of_unit(
            "MVS.MODIFY.JOB",
            "MVS.MODIFY.STC",
            kind,
            &name.value,
        )),
        Command::Reply(_, _) => info("MVS.REPLY"),
        Command::VaryDeviceOnline(_) | Command::VaryDeviceOffline(_) => io("MVS.VARY.DEV"),
        Command::Mount(_, _) => io("MVS.MOUNT"),
        Command::Unload(_) => io("MVS.UNLOAD"),
        Command::Swap(_, _) => io("MVS.SWAP"),
        Command::VaryConsoleOnline(_) => fixed(Cons, Update, "MVS.VARY.CN"),
        Command::VaryConsoleOffline(_) => fixed(Cons, Update, "MVS.VARY.CN"),
        Command::VaryConsoleAuth(_, _) => fixed(Master, Control, "MVS.VARYAUTH.CN"),
        Command::ResetConsole(_) => fixed(Master, Control, "MVS.RESET.CN"),
        Command::Send(_, _) => info("MVS.SEND"),
        Command::Log(_) => info("MVS.LOG"),
        Command::Monitor => info("MVS.MONITOR"),
        Command::StopMonitor => info("MVS.STOPMN"),
        Command::Halt => fixed(Sys, Update, "MVS.HALT.EOD"),
        Command::Logon(_, _) | Command::Logoff => None,
    }
}
