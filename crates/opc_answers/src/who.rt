//! Who may do what is asked about.
ghost use Rattle.std.specs.Prelude.{◌≡◌, ◌≢◌, IfErr, IfOk, Ok, Err, Some, map};
ghost use Rattle.std.specs.Option.{option_copied};
ghost use Rattle.opc_terms.specs.declared.fault.Fault.TheVariants as why;
ghost use Rattle.opc_names.specs.declared.class.Class.TheVariants.{Opercmds};
ghost use Rattle.opc_board.specs.Invariants.{console_at};
ghost use Rattle.opc_answers.specs.Made.{members_of, state_of};
ghost use Rattle.opc_answers.specs.Deciding.{decider};
ghost use Rattle.opc_answers.specs.Who.{HasDecider, console_lines, shows_by, who_in};
ghost use Rattle.opc_answers.specs.declared.who.AskedAt.TheVariants.{OnBoard};
ghost use Rattle.opc_answers.specs.Doors.{AreDoorsFor};

use crate::asked::{WhoBasis, basis_in};
use crate::consoles::{ConsoleLine, console_lines};
use crate::doors::{Doors, doors_at};
use crate::lines::{UserLine, logon_line, member_line, or_authority};
use crate::logons::{Instead, NoLogon};
use crate::members::UserWithGroups;
use crate::raised::{is_raised, named};
use crate::room::Room;
use crate::shows::{Shows, line_decider, with_line};
use crate::wanted::{Entered, Wanted};
use opc_board::board::Board;
use opc_board::rows::ConsoleRow;
use opc_names::name::ConsoleName;
use opc_policy::ruling::Ruling;
use opc_policy_members::profile::Profile;
use opc_policy_sources::sources::{HeldLevel, LevelSource};
use opc_rows::Rows;
use opc_terms::fault::Fault;
use opc_terms::need::Need;
use opc_terms::rule::Rule;
use std::alloc::{AllocError, Global};

/// Where the question is asked: wherever users are logged on, at a console of the board, or at one of which only the
/// name is known.
#[derive(Clone, Copy)]
pub enum AskedAt {
    Everywhere,
    OnBoard(ConsoleRow),
    Named(ConsoleName),
}

/// Who may do what is asked about: whether the class is active, the profile that decides, the line that a command asks
/// for, and what each line of the answer is made of. The lines can be more than there is memory for, since a user has
/// one at each console whose entries raise the level of the user. So each part of them is made by itself.
#[derive(Drop)]
pub struct Who {
    pub wanted: Wanted,
    pub active: bool,
    pub decided: Option<Profile>,
    pub shows: Option<Shows>,
    room: Room,
    at: AskedAt,
}

impl AskedAt {
    ghost use Rattle.opc_answers.specs.Who.{command_at, name_of};

    /// The name of the console.
    pub fn name(&self) -> Option<&ConsoleName>
        ensures { option_copied result ≡ name_of self.entry.now }
    {
        match self {
            AskedAt::Everywhere => None,
            AskedAt::OnBoard(console) => Some(&console.name),
            AskedAt::Named(name) => Some(name),
        }
    }

    /// The line of a user and a command: at a console of the board its authority decides if no profile does.
    fn command_at(&self, need: &Need, line: UserLine) -> UserLine
        ensures { result ≡ command_at need.now self.now line }
    {
        match self {
            AskedAt::OnBoard(console) => or_authority(console, need, &line),
            AskedAt::Everywhere | AskedAt::Named(_) => line,
        }
    }
}

impl Who {
    ghost use Rattle.opc_answers.specs.Who.{
      consoles_at,
      consoles_of,
      is_raised_there,
      line_raised,
      named_of,
      plain_at,
      raised_there,
      said_at,
      shown_at,
      users_of,
    };

    /// The room that answered.
    pub fn into_room(self) -> Room
        ensures { result ≡ self.room }
    {
        self.room
    }

    /// What is said of a user there, with those doors, but for the line that a command asks for.
    fn plain_at(&self, at: &AskedAt, doors: &Doors<'_>, member: &UserWithGroups) -> UserLine
        requires { AreDoorsFor self.now at.now doors.now }
        ensures { result ≡ plain_at self.now at.now member.now }
    {
        let level = self.wanted.level();
        let line = member_line(self.decided.as_ref(), at.name(), level, member);
        match &self.wanted {
            Wanted::Command(entered) => {
                doors.unless_on(member, at.command_at(&entered.need, line))
            }
            Wanted::Logon(_) => logon_line(&member.user, &line),
            Wanted::Access { .. } => line,
        }
    }

    /// The same with that line, if there is one.
    fn shown_at(&self, at: &AskedAt, member: &UserWithGroups, command: UserLine) -> UserLine
        ensures { result ≡ shown_at self.now.shows at.now member.now command }
    {
        let Some(shows) = &self.shows else {
            return command;
        };
        let line = member_line(shows.decided.as_ref(), at.name(), shows.need.level, member);
        with_line(command, at.command_at(&shows.need, line))
    }

    /// What is said of a user there, with those doors.
    fn said_at(&self, at: &AskedAt, doors: &Doors<'_>, member: &UserWithGroups) -> UserLine
        requires { AreDoorsFor self.now at.now doors.now }
        ensures { result ≡ said_at self.now at.now member.now }
    {
        self.shown_at(at, member, self.plain_at(at, doors, member))
    }

    /// What is said of each user there, in order.
    fn lines_at(
        &self,
        alloc: Global,
        at: &AskedAt,
        doors: &Doors<'_>,
    ) -> Result<Rows<UserLine>, AllocError>
        requires { AreDoorsFor self.now at.now doors.now }
        ensures { IfOk result (λ lines. lines ≡ map (said_at self.now at.now) self.now.room.members) }
    {
        // Named for the prover, which otherwise cannot infer the types of a line and of a console.
        let (_no_rule, _no_ruling): (Option<Rule>, Option<Ruling>) = (None, None);
        let (_no_held, _no_source): (Option<HeldLevel>, Option<LevelSource>) = (None, None);
        let (_off, _instead): (Option<NoLogon>, Option<Instead>) = (None, None);
        let _nowhere: Option<ConsoleName> = None;
        let mut lines = Rows::new(alloc);
        for member in self.room.members.as_slice() {
            lines.push(self.said_at(at, doors, member))?;
        }
        Ok(lines)
    }

    /// Where users can log on, if that counts: a LOGON is ruled on itself, and for a level of access no logon counts.
    fn doors(&self, alloc: Global, at: &AskedAt) -> Result<Doors<'_>, AllocError>
        ensures { IfOk result (λ doors. AreDoorsFor self.entry.now at.now doors) }
    {
        match &self.wanted {
            Wanted::Command(_) => doors_at(alloc, &self.room.policy, &self.room.board, at),
            Wanted::Logon(_) | Wanted::Access { .. } => Ok(Doors::Uncounted),
        }
    }

    /// What is said of each user, in order.
    pub fn users(&self, alloc: Global) -> Result<Rows<UserLine>, AllocError>
        ensures { IfOk result (λ lines. lines ≡ users_of self.now) }
    {
        let doors = self.doors(alloc, &self.at)?;
        self.lines_at(alloc, &self.at, &doors)
    }

    /// The consoles at each of which an entry for it alone may raise the level that a user holds, if none is named.
    pub fn named(&self, alloc: Global) -> Result<Vec<ConsoleRow>, AllocError>
        ensures { IfOk result (λ consoles. consoles.items ≡ named_of self.now) }
    {
        match self.at {
            AskedAt::Everywhere => {
                let consoles = self.room.board.rows().consoles.as_slice();
                named(
                    alloc,
                    self.decided.as_ref(),
                    line_decider(&self.shows),
                    consoles,
                )
            }
            AskedAt::OnBoard(_) | AskedAt::Named(_) => Ok(Vec::new(alloc)),
        }
    }

    /// Whether an entry for the console alone raises the level that the line needs.
    fn line_raised(&self, console: &ConsoleRow, member: &UserWithGroups) -> bool
        ensures { result ≡ line_raised self.now.shows console.now member.now }
    {
        let Some(shows) = &self.shows else {
            return false;
        };
        let (decided, level) = (shows.decided.as_ref(), shows.need.level);
        is_raised(&member_line(decided, Some(&console.name), level, member))
    }

    /// Whether an entry for the console alone raises a level that is asked.
    fn is_raised_there(&self, console: &ConsoleRow, member: &UserWithGroups) -> bool
        ensures { result ≡ is_raised_there self.now console.now member.now }
    {
        let (decided, level) = (self.decided.as_ref(), self.wanted.level());
        let line = member_line(decided, Some(&console.name), level, member);
        is_raised(&line) || self.line_raised(console, member)
    }

    /// What is said of users there, if an entry for this console alone raises the level that they hold.
    fn raised_at(
        &self,
        alloc: Global,
        console: &ConsoleRow,
        doors: &Doors<'_>,
    ) -> Result<Rows<UserLine>, AllocError>
        requires { AreDoorsFor self.now (OnBoard console.now) doors.now }
        ensures { IfOk result (λ lines. lines ≡ raised_there self.now console.now) }
    {
        let at = AskedAt::OnBoard(*console);
        // Named for the prover, which else does not find the types of a line and of a console.
        let (_no_rule, _no_ruling): (Option<Rule>, Option<Ruling>) = (None, None);
        let (_no_held, _no_source): (Option<HeldLevel>, Option<LevelSource>) = (None, None);
        let (_off, _instead): (Option<NoLogon>, Option<Instead>) = (None, None);
        let _nowhere: Option<ConsoleName> = None;
        let mut lines = Rows::new(alloc);
        for member in self.room.members.as_slice() {
            if self.is_raised_there(console, member) {
                lines.push(self.said_at(&at, doors, member))?;
            }
        }
        Ok(lines)
    }

    /// The lines of users at one of these consoles, if an entry for it raises the level that they hold.
    pub fn raised_there(
        &self,
        alloc: Global,
        console: &ConsoleRow,
    ) -> Result<Rows<UserLine>, AllocError>
        ensures { IfOk result (λ lines. lines ≡ raised_there self.now console.now) }
    {
        let at = AskedAt::OnBoard(*console);
        let doors = self.doors(alloc, &at)?;
        self.raised_at(alloc, console, &doors)
    }

    /// The line of a command at each of these consoles, unattended.
    fn lines_of(
        &self,
        alloc: Global,
        entered: &Entered,
        consoles: &[ConsoleRow],
    ) -> Result<Option<Rows<ConsoleLine>>, AllocError>
        requires command { self.now.decided ≡ decider self.now.room.policy Opercmds entered.now.need.resource }
        requires line { self.now.shows ≡ shows_by self.now.room.policy entered.now.line }
        ensures { IfOk result (λ lines. lines
            ≡ Some (console_lines (state_of self.now.room.policy self.now.room.board) entered.now.need
            entered.now.line consoles.now)) }
    {
        let (room, decided, shows) = (&self.room, self.decided.as_ref(), &self.shows);
        let lines = console_lines(alloc, room, decided, shows, entered, consoles)?;
        Ok(Some(lines))
    }

    fn consoles_at(
        &self,
        alloc: Global,
        entered: &Entered,
    ) -> Result<Option<Rows<ConsoleLine>>, AllocError>
        requires command { self.now.decided ≡ decider self.now.room.policy Opercmds entered.now.need.resource }
        requires line { self.now.shows ≡ shows_by self.now.room.policy entered.now.line }
        ensures { IfOk result (λ lines. lines
            ≡ consoles_at (state_of self.now.room.policy self.now.room.board) entered.now self.now.at) }
    {
        match &self.at {
            AskedAt::Everywhere => {
                self.lines_of(alloc, entered, self.room.board.rows().consoles.as_slice())
            }
            AskedAt::OnBoard(console) => self.lines_of(alloc, entered, &[*console]),
            AskedAt::Named(_) => Ok(None),
        }
    }

    /// The lines of the consoles, if the question is about a command.
    pub fn consoles(&self, alloc: Global) -> Result<Option<Rows<ConsoleLine>>, AllocError>
        requires { HasDecider self.now }
        ensures { IfOk result (λ lines. lines ≡ consoles_of self.now) }
    {
        match &self.wanted {
            Wanted::Command(entered) => self.consoles_at(alloc, entered),
            Wanted::Logon(_) | Wanted::Access { .. } => Ok(None),
        }
    }
}

/// The console of this name, if it is on the board.
pub fn console_of<'a>(board: &'a Board, name: &ConsoleName) -> Option<&'a ConsoleRow>
    ensures { option_copied result ≡ console_at board.entry.now name.now }
{
    board.rows().consoles.find(name)
}

/// A room that has no answer, and why.
#[derive(Drop)]
pub struct NoAnswer {
    pub fault: Fault,
    pub room: Room,
}

/// Who may do what the question is about, at a console if one is named. The answer has the room, or it is handed back.
pub fn who_in(room: Room, wanted: &Wanted, console: Option<&ConsoleName>) -> Result<Who, NoAnswer>
    requires { room.members ≡ members_of room.policy }
    ensures ok { IfOk result (λ who. who_in (state_of room.policy room.board) wanted.now
        (option_copied console.entry) ≡ Ok who) }
    ensures decider { IfOk result HasDecider }
    ensures room { IfOk result (λ who. who.room ≡ room) }
    ensures fault { IfErr result (λ none. none.fault ≢ why.NoMemory
        → who_in (state_of room.policy room.board) wanted.now (option_copied console.entry) ≡ Err none.fault) }
    ensures back { IfErr result (λ none. none.room ≡ room) }
{
    match basis_in(&room, wanted, console) {
        Ok(WhoBasis { at, decided, shows }) => Ok(Who {
            wanted: *wanted,
            active: room.policy.active.contains(wanted.class()),
            decided,
            shows,
            room,
            at,
        }),
        Err(fault) => Err(NoAnswer { fault, room }),
    }
}
