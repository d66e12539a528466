//! Which commands a user may enter, and which lines of answers are shown: by what decides, section by section.
ghost use Rattle.std.specs.Prelude.{◌≡◌, ◌++◌, IfOk, OnOk, filter, map};
ghost use Rattle.std.specs.Option.{option_copied};
ghost use Rattle.opc_answers_may.specs.Commands.{
  authority_lines,
  by_none,
  by_profile,
  hidden_if,
  is_raised_there,
  kind_line,
  kind_lines,
  profile_at,
  raised_at,
  raised_in,
  said_of,
  section_at,
  sections_of,
  takes,
};
ghost use Rattle.opc_policy_deciders.specs.Forms.{asked};

use crate::may::{May, no_logon_at};
use opc_answers::doors::unless_on;
use opc_answers::lines::{UserLine, is_denied, member_line};
use opc_answers::logons::{Instead, NoLogon};
use opc_answers::members::UserWithGroups;
use opc_answers::raised::is_raised;
use opc_answers::room::Room;
use opc_answers::who::AskedAt;
use opc_board::rows::ConsoleRow;
use opc_names::auth::Auth;
use opc_names::class::Class;
use opc_names::level::Level;
use opc_names::name::{ConsoleName, Pattern};
use opc_policy::ruling::Ruling;
use opc_policy_deciders::form::ResourceForm;
use opc_policy_deciders::kind::{AskedKind, KINDS, is_of_kind};
use opc_policy_members::policy::Policy;
use opc_policy_members::profile::Profile;
use opc_policy_sources::sources::{HeldLevel, LevelSource, held_from};
use opc_rows::Rows;
use opc_terms::rule::Rule;
use std::alloc::{AllocError, Global};

/// The forms in a line: those of a kind; or, where the authority of a console decides, those that it enters, or the
/// others.
#[derive(Clone, Copy)]
pub enum FormsAsked {
    OfKind(AskedKind),
    EnteredBy(Auth),
    ClosedTo(Auth),
}

/// What is said of them: what a profile rules, if one decides; or what the authority of a console does, and why the
/// user cannot log on there.
#[derive(Clone, Copy)]
pub enum CommandsSaid {
    Ruled(UserLine),
    Entered(Auth, Option<NoLogon>),
    Closed(Auth),
}

/// A line: of which forms, and what is said of them.
#[derive(Clone, Copy)]
pub struct CommandsLine {
    pub asked: FormsAsked,
    pub said: CommandsSaid,
}

/// What decides: a profile, with the level held in it; no profile, and it is not known at which console; or the
/// authority of a console.
#[derive(Clone, Copy)]
pub enum CommandsHead {
    ByProfile(Pattern, HeldLevel),
    ByNone,
    ByAuthority(Auth),
}

/// What decides, and the lines under it.
#[derive(Drop)]
pub struct CommandsSection {
    pub head: CommandsHead,
    pub lines: Rows<CommandsLine>,
}

/// Whether a form is in the line.
pub(crate) fn takes(which: &FormsAsked, form: &ResourceForm) -> bool
    ensures { result ≡ takes which.now (asked form.now) }
{
    match which {
        FormsAsked::OfKind(kind) => is_of_kind(kind, form),
        FormsAsked::EnteredBy(auth) => auth.enters(form.group),
        FormsAsked::ClosedTo(auth) => !auth.enters(form.group),
    }
}

/// A line of an answer is left out, if it is denied.
fn hidden_if(is_line: bool, line: UserLine) -> UserLine
    ensures { result ≡ hidden_if is_line line }
{
    if !is_line || !is_denied(&line.ruling) {
        return line;
    }
    UserLine {
        id: line.id,
        ruling: line.ruling,
        held: line.held,
        instead: Some(Instead::Hidden),
    }
}

/// What is said of the user and the forms of a kind that a profile decides, or none.
fn said_of(
    at: &AskedAt,
    no_logon: &Option<NoLogon>,
    decided: Option<&Profile>,
    member: &UserWithGroups,
    kind: &AskedKind,
) -> UserLine
    ensures { result ≡ said_of at.now no_logon.now (option_copied decided.entry) member.now kind.now }
{
    let line = member_line(decided, at.name(), kind.level, member);
    hidden_if(kind.is_line, unless_on(*no_logon, line))
}

fn kind_line(
    at: &AskedAt,
    no_logon: &Option<NoLogon>,
    decided: Option<&Profile>,
    member: &UserWithGroups,
    kind: &AskedKind,
) -> CommandsLine
    ensures { result ≡ kind_line at.now no_logon.now (option_copied decided.entry) member.now kind.now }
{
    CommandsLine {
        asked: FormsAsked::OfKind(*kind),
        said: CommandsSaid::Ruled(said_of(at, no_logon, decided, member, kind)),
    }
}

fn lines_of(
    alloc: Global,
    kinds: &[AskedKind],
    at: &AskedAt,
    no_logon: &Option<NoLogon>,
    decided: Option<&Profile>,
    member: &UserWithGroups,
) -> Result<Rows<CommandsLine>, AllocError>
    ensures { IfOk result (λ lines. lines
        ≡ map (kind_line at.now no_logon.now (option_copied decided.entry) member.now) kinds.now) }
{
    // Named for the prover, which otherwise cannot infer the types of a line.
    let (_no_rule, _no_ruling): (Option<Rule>, Option<Ruling>) = (None, None);
    let (_no_held, _no_source): (Option<HeldLevel>, Option<LevelSource>) = (None, None);
    let (_off, _instead): (Option<NoLogon>, Option<Instead>) = (None, None);
    let (_nowhere, _line): (Option<ConsoleName>, Option<UserLine>) = (None, None);
    let (_asked, _said): (Option<FormsAsked>, Option<CommandsSaid>) = (None, None);
    let (_auth, _level): (Option<Auth>, Option<Level>) = (None, None);
    let mut lines = Rows::new(alloc);
    for kind in kinds {
        lines.push(kind_line(at, no_logon, decided, member, kind))?;
    }
    Ok(lines)
}

/// A line for each kind.
fn kind_lines(
    alloc: Global,
    at: &AskedAt,
    no_logon: &Option<NoLogon>,
    decided: Option<&Profile>,
    member: &UserWithGroups,
) -> Result<Rows<CommandsLine>, AllocError>
    ensures { IfOk result (λ lines. lines
        ≡ kind_lines at.now no_logon.now (option_copied decided.entry) member.now) }
{
    lines_of(alloc, &KINDS, at, no_logon, decided, member)
}

/// Where no profile decides: the authority of the console does.
fn authority_lines(
    alloc: Global,
    auth: Auth,
    no_logon: Option<NoLogon>,
) -> Result<Rows<CommandsLine>, AllocError>
    ensures { IfOk result (λ lines. lines ≡ authority_lines auth no_logon) }
{
    // Named for the prover, which otherwise cannot infer the types of a line.
    let (_no_rule, _no_ruling): (Option<Rule>, Option<Ruling>) = (None, None);
    let (_no_held, _no_source): (Option<HeldLevel>, Option<LevelSource>) = (None, None);
    let (_off, _instead): (Option<NoLogon>, Option<Instead>) = (None, None);
    let (_nowhere, _line): (Option<ConsoleName>, Option<UserLine>) = (None, None);
    let mut lines = Rows::new(alloc);
    lines.push(CommandsLine {
        asked: FormsAsked::EnteredBy(auth),
        said: CommandsSaid::Entered(auth, no_logon),
    })?;
    lines.push(CommandsLine {
        asked: FormsAsked::ClosedTo(auth),
        said: CommandsSaid::Closed(auth),
    })?;
    Ok(lines)
}

/// What a profile decides.
fn by_profile(
    alloc: Global,
    at: &AskedAt,
    no_logon: &Option<NoLogon>,
    profile: &Profile,
    member: &UserWithGroups,
) -> Result<CommandsSection, AllocError>
    ensures { IfOk result (λ section. section ≡ by_profile at.now no_logon.now profile.now member.now) }
{
    let groups = member.groups.as_slice();
    let held = held_from(profile, &member.user, at.name(), groups);
    let lines = kind_lines(alloc, at, no_logon, Some(profile), member)?;
    Ok(CommandsSection {
        head: CommandsHead::ByProfile(profile.pattern, held),
        lines,
    })
}

/// What no profile decides.
fn by_none(
    alloc: Global,
    at: &AskedAt,
    no_logon: &Option<NoLogon>,
    member: &UserWithGroups,
) -> Result<CommandsSection, AllocError>
    ensures { IfOk result (λ section. section ≡ by_none at.now no_logon.now member.now) }
{
    match at {
        AskedAt::OnBoard(console) => Ok(CommandsSection {
            head: CommandsHead::ByAuthority(console.auth),
            lines: authority_lines(alloc, console.auth, *no_logon)?,
        }),
        AskedAt::Everywhere | AskedAt::Named(_) => Ok(CommandsSection {
            head: CommandsHead::ByNone,
            lines: kind_lines(alloc, at, no_logon, None, member)?,
        }),
    }
}

fn section_at(
    alloc: Global,
    may: &May,
    decided: Option<&Profile>,
) -> Result<CommandsSection, AllocError>
    ensures { IfOk result (λ section. section
        ≡ section_at may.now.at may.now.no_logon (option_copied decided.entry) may.now.member) }
{
    let (at, member) = (&may.at, &may.member);
    match decided {
        Some(profile) => by_profile(alloc, at, &may.no_logon, profile, member),
        None => by_none(alloc, at, &may.no_logon, member),
    }
}

/// Whether an entry for the console alone gives the level.
fn is_raised_there(profile: &Profile, member: &UserWithGroups, console: &ConsoleRow) -> bool
    ensures { result ≡ is_raised_there profile.now member.now console.now }
{
    is_raised(&member_line(Some(profile), Some(&console.name), Level::Read, member))
}

/// The section of that console.
fn raised_at(
    alloc: Global,
    room: &Room,
    profile: &Profile,
    member: &UserWithGroups,
    console: &ConsoleRow,
) -> Result<CommandsSection, AllocError>
    ensures { IfOk result (λ section. section
        ≡ raised_at room.now.policy room.now.board profile.now member.now console.now) }
{
    // Named for the prover, which otherwise cannot infer the type of a rule.
    let _no_rule: Option<Rule> = None;
    let at = AskedAt::OnBoard(*console);
    let no_logon = no_logon_at(alloc, room, &at, member)?;
    by_profile(alloc, &at, &no_logon, profile, member)
}

/// Adds the sections of consoles for which alone an entry gives the level.
fn push_raised(
    alloc: Global,
    sections: &mut Rows<CommandsSection>,
    room: &Room,
    profile: &Profile,
    member: &UserWithGroups,
) -> Result<(), AllocError>
    ensures { OnOk result (sections.new ≡ sections.old
        ++ map (raised_at room.now.policy room.now.board profile.now member.now)
        (filter (is_raised_there profile.now member.now) room.now.board.consoles)) }
{
    for console in room.board.rows().consoles.as_slice() {
        if is_raised_there(profile, member, console) {
            sections.push(raised_at(alloc, room, profile, member, console)?)?;
        }
    }
    Ok(())
}

/// The same, if a profile decides and no console is named.
fn push_raised_in(
    alloc: Global,
    sections: &mut Rows<CommandsSection>,
    may: &May,
    decided: Option<&Profile>,
) -> Result<(), AllocError>
    ensures { OnOk result (sections.new ≡ sections.old ++ raised_in may.now.at may.now.room.policy may.now.room.board
        (option_copied decided.entry) may.now.member) }
{
    match (&may.at, decided) {
        (AskedAt::Everywhere, Some(profile)) => {
            push_raised(alloc, sections, &may.room, profile, &may.member)
        }
        (AskedAt::Everywhere, None) | (AskedAt::OnBoard(_) | AskedAt::Named(_), _) => Ok(()),
    }
}

/// The sections of what a profile decides, or no profile: as far as the level is the same everywhere, and console by
/// console. Of a revoked user there are none.
pub fn sections_of(
    alloc: Global,
    may: &May,
    decided: Option<&Profile>,
) -> Result<Rows<CommandsSection>, AllocError>
    ensures { IfOk result (λ sections. sections ≡ sections_of may.now (option_copied decided.entry)) }
{
    let mut sections = Rows::new(alloc);
    if may.member.user.revoked {
        return Ok(sections);
    }
    sections.push(section_at(alloc, may, decided)?)?;
    push_raised_in(alloc, &mut sections, may, decided)?;
    Ok(sections)
}

/// The profile of the pattern at a place; none at the end.
pub fn profile_at<'a>(policy: &'a Policy, patterns: &[Pattern], place: usize) -> Option<&'a Profile>
    ensures { option_copied result ≡ profile_at policy.entry.now patterns.now place }
{
    let pattern = patterns.get(place)?;
    policy.profiles.get(Class::Opercmds, pattern)
}
