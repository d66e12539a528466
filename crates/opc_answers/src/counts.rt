//! The last line of an answer: how many may.
ghost use Rattle.std.specs.Prelude.{◌≡◌, ◌+◌, ◌++◌, IfOk, IfSome, count_by, length, string_bytes};
ghost use Rattle.opc_answers.specs.declared.counts.ConsoleCounts.TheVariants.{WithNobodyOn};
ghost use Rattle.opc_answers.specs.Texts.{
  console_counts,
  console_share_of,
  consoles_text,
  counts_text,
  is_undecided,
  cannot_log_on,
  hidden_text,
  is_shown_nothing,
  may,
  may_with_nobody_on,
  no_logons_text,
  raised_text,
  share_of,
  share_text,
  undecided_text,
};

use crate::consoles::ConsoleLine;
use crate::lines::UserLine;
use crate::logons::Instead;
use crate::text::{is_allowed, may};
use crate::wanted::Wanted;
use opc_rows::Rows;
use std::alloc::{AllocError, Global};

/// How many may, out of how many.
#[derive(Clone, Copy)]
pub struct Share {
    pub may: usize,
    pub all: usize,
}

/// What the last line says of consoles: how many of them may while unattended; that a command shows them; or nothing.
#[derive(Clone, Copy)]
pub enum ConsoleCounts {
    WithNobodyOn(Share),
    OfCommands,
    Unsaid,
}

/// What the last line counts: users; those of them of whom nothing is said, those who cannot log on, and those to whom
/// the line is not shown that they ask for; users at one console alone; and consoles.
#[derive(Clone, Copy)]
pub struct Counts {
    pub users: Share,
    pub undecided: usize,
    pub no_logon: usize,
    pub hidden: usize,
    pub raised: Share,
    pub consoles: ConsoleCounts,
}

fn count_who_may(lines: &[UserLine]) -> usize
    ensures { result ≡ count_by may lines.now }
{
    let mut count = 0;
    for line in lines {
        if may(line) {
            count += 1;
        }
    }
    count
}

/// Whether the line has no ruling on the user.
fn is_undecided(line: &UserLine) -> bool
    ensures { result ≡ is_undecided line.now }
{
    line.instead.is_none() && line.ruling.is_none()
}

/// How many users have no ruling.
pub fn count_undecided(lines: &[UserLine]) -> usize
    ensures { result ≡ count_by is_undecided lines.now }
{
    let mut count = 0;
    for line in lines {
        if is_undecided(line) {
            count += 1;
        }
    }
    count
}

/// Whether the line says that the user cannot log on.
fn cannot_log_on(line: &UserLine) -> bool
    ensures { result ≡ cannot_log_on line.now }
{
    matches!(line.instead, Some(Instead::NoLogon(_)))
}

/// For how many users the line says that they cannot log on.
pub fn count_no_logon(lines: &[UserLine]) -> usize
    ensures { result ≡ count_by cannot_log_on lines.now }
{
    let mut count = 0;
    for line in lines {
        if cannot_log_on(line) {
            count += 1;
        }
    }
    count
}

/// Whether the command is done without the line that it asks for.
fn is_shown_nothing(line: &UserLine) -> bool
    ensures { result ≡ is_shown_nothing line.now }
{
    matches!(line.instead, Some(Instead::Hidden))
}

/// To how many users the line is not shown that they ask for.
pub fn count_hidden(lines: &[UserLine]) -> usize
    ensures { result ≡ count_by is_shown_nothing lines.now }
{
    let mut count = 0;
    for line in lines {
        if is_shown_nothing(line) {
            count += 1;
        }
    }
    count
}

fn count_consoles(lines: &[ConsoleLine]) -> usize
    ensures { result ≡ count_by may_with_nobody_on lines.now }
{
    lines.iter().filter(|line| is_allowed(&line.ruling)).count()
}

impl Share {
    /// Of these users.
    pub fn of_users(lines: &[UserLine]) -> Share
        ensures { result ≡ share_of lines.now }
    {
        Share {
            may: count_who_may(lines),
            all: lines.len(),
        }
    }

    /// Of these consoles.
    pub fn of_consoles(lines: &[ConsoleLine]) -> Share
        ensures { result ≡ console_share_of lines.now }
    {
        Share {
            may: count_consoles(lines),
            all: lines.len(),
        }
    }

    /// The same with others, unless they are more than a number can count.
    pub fn and(self, others: Share) -> Option<Share>
        ensures { IfSome result (λ both. both ≡ record {
          may = self.may + others.may;
          all = self.all + others.all;
        }) }
    {
        Some(Share {
            may: self.may.checked_add(others.may)?,
            all: self.all.checked_add(others.all)?,
        })
    }
}

impl ConsoleCounts {
    /// Of these lines, if any are shown.
    pub fn of(wanted: &Wanted, lines: &Option<Rows<ConsoleLine>>) -> ConsoleCounts
        ensures { result ≡ console_counts wanted.now lines.now }
    {
        match (lines, wanted) {
            (Some(lines), _) => ConsoleCounts::WithNobodyOn(Share::of_consoles(lines.as_slice())),
            (None, Wanted::Logon(_)) => ConsoleCounts::Unsaid,
            (None, Wanted::Command(_) | Wanted::Access { .. }) => ConsoleCounts::OfCommands,
        }
    }
}

fn share_text(alloc: Global, share: &Share) -> Result<String, AllocError>
    ensures { IfOk result (λ text. string_bytes text ≡ share_text share.now) }
{
    let Share { may, all } = *share;
    format!(in alloc; "{may} of {all}")
}

fn undecided_text(alloc: Global, count: usize) -> Result<String, AllocError>
    ensures { IfOk result (λ text. string_bytes text ≡ undecided_text count) }
{
    if count == 0 {
        return Ok(String::new(alloc));
    }
    format!(in alloc; ", {count} undecided")
}

fn no_logons_text(alloc: Global, count: usize) -> Result<String, AllocError>
    ensures { IfOk result (λ text. string_bytes text ≡ no_logons_text count) }
{
    if count == 0 {
        return Ok(String::new(alloc));
    }
    format!(in alloc; ", {count} cannot log on")
}

fn hidden_text(alloc: Global, count: usize) -> Result<String, AllocError>
    ensures { IfOk result (λ text. string_bytes text ≡ hidden_text count) }
{
    if count == 0 {
        return Ok(String::new(alloc));
    }
    format!(in alloc; ", {count} shown nothing")
}

fn raised_text(alloc: Global, share: &Share) -> Result<String, AllocError>
    ensures { IfOk result (λ text. string_bytes text ≡ raised_text share.now) }
{
    if share.all == 0 {
        return Ok(String::new(alloc));
    }
    let share = share_text(alloc, share)?;
    let share = share.as_str();
    format!(in alloc; ", {share} at one console alone")
}

fn console_share_text(alloc: Global, share: &Share) -> Result<String, AllocError>
    ensures { IfOk result (λ text. string_bytes text ≡ consoles_text (WithNobodyOn share.now)) }
{
    let share = share_text(alloc, share)?;
    let share = share.as_str();
    format!(in alloc; ", {share} unattended consoles")
}

fn consoles_text(alloc: Global, consoles: &ConsoleCounts) -> Result<String, AllocError>
    ensures { IfOk result (λ text. string_bytes text ≡ consoles_text consoles.now) }
{
    match consoles {
        ConsoleCounts::WithNobodyOn(share) => console_share_text(alloc, share),
        ConsoleCounts::OfCommands => String::from_str(alloc, "; --command shows consoles, too"),
        ConsoleCounts::Unsaid => Ok(String::new(alloc)),
    }
}

/// The last line: how many may.
pub fn counts_text(alloc: Global, counts: &Counts) -> Result<String, AllocError>
    ensures { IfOk result (λ text. string_bytes text ≡ counts_text counts.now) }
{
    let share = share_text(alloc, &counts.users)?;
    let open = undecided_text(alloc, counts.undecided)?;
    let off = no_logons_text(alloc, counts.no_logon)?;
    let hidden = hidden_text(alloc, counts.hidden)?;
    let raised = raised_text(alloc, &counts.raised)?;
    let consoles = consoles_text(alloc, &counts.consoles)?;
    let (share, open, off) = (share.as_str(), open.as_str(), off.as_str());
    let (hidden, raised, consoles) = (hidden.as_str(), raised.as_str(), consoles.as_str());
    format!(in alloc; "{share} users{open}{off}{hidden}{raised}{consoles}\n")
}
