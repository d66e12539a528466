//! The lines of an answer, part by part: each is made and written before the next one.
ghost use Rattle.std.specs.Prelude.{◌≡◌, ◌+◌, ◌++◌, IfErr, IfOk, OnOk, count_by, string_bytes};
ghost use Rattle.std.specs.Io.KnownBytes.{Appends};
ghost use Rattle.opc_cli_failures.specs.Statuses.{IsFailure};
ghost use Rattle.opc_answers.specs.Who.{HasDecider, consoles_of, raised_of, raised_there, users_of};
ghost use Rattle.opc_answers.specs.Texts.{
  cannot_log_on,
  console_counts,
  counts_of,
  is_shown_nothing,
  is_undecided,
  share_of,
};
ghost use Rattle.opc_cli_questions.specs.Questions.{who_shown};
ghost use Rattle.opc_cli_questions.specs.WhoPrinted.{beginning, consoles_shown, ending, users_shown};

use crate::printing::{no_memory, print_text};
use opc_answers::beginning::beginning_text;
use opc_answers::consoles::ConsoleLine;
use opc_answers::counts::{
    ConsoleCounts, Counts, Share, count_hidden, count_no_logon, count_undecided, counts_text,
};
use opc_answers::json::{beginning_json, consoles_json, users_json};
use opc_answers::lines::UserLine;
use opc_answers::text::{console_lines_text, users_text};
use opc_answers::who::Who;
use opc_board::rows::ConsoleRow;
use opc_check::form::Form;
use opc_cli_failures::failure::Failure;
use opc_rows::Rows;
use std::alloc::{AllocError, Global};
use std::io::Write;

fn beginning(alloc: Global, form: Form, who: &Who) -> Result<String, AllocError>
    ensures { IfOk result (λ text. string_bytes text ≡ beginning form who.now) }
{
    match form {
        Form::Text => beginning_text(alloc, who),
        Form::Json => beginning_json(alloc, who),
    }
}

fn users_shown(
    alloc: Global,
    form: Form,
    allowed: bool,
    lines: &[UserLine],
) -> Result<String, AllocError>
    ensures { IfOk result (λ text. string_bytes text ≡ users_shown form allowed lines.now) }
{
    match form {
        Form::Text => users_text(alloc, lines, allowed),
        Form::Json => users_json(alloc, lines, allowed),
    }
}

fn consoles_shown(
    alloc: Global,
    form: Form,
    allowed: bool,
    lines: &Option<Rows<ConsoleLine>>,
) -> Result<String, AllocError>
    ensures { IfOk result (λ text. string_bytes text ≡ consoles_shown form allowed lines.now) }
{
    match form {
        Form::Text => console_lines_text(alloc, lines, allowed),
        Form::Json => consoles_json(alloc, lines, allowed),
    }
}

fn ending(alloc: Global, form: Form, counts: &Counts) -> Result<String, AllocError>
    ensures { IfOk result (λ text. string_bytes text ≡ ending form counts.now) }
{
    match form {
        Form::Text => counts_text(alloc, counts),
        Form::Json => Ok(String::new(alloc)),
    }
}

/// Prints the subject of the question, and what decides.
fn print_beginning<W: Write>(
    alloc: Global,
    form: Form,
    who: &Who,
    output: &mut W,
) -> Result<(), Failure>
    ensures text { OnOk result (Appends (W.contents output.old) (W.contents output.new)
        (beginning form who.now)) }
    ensures fails { IfErr result (λ failure. IsFailure failure.fault) }
{
    let Ok(text) = beginning(alloc, form, who) else {
        return Err(no_memory());
    };
    print_text(text.as_str(), output)
}

fn print_users<W: Write>(
    alloc: Global,
    form: Form,
    allowed: bool,
    lines: &[UserLine],
    output: &mut W,
) -> Result<(), Failure>
    ensures text { OnOk result (Appends (W.contents output.old) (W.contents output.new)
        (users_shown form allowed lines.now)) }
    ensures fails { IfErr result (λ failure. IsFailure failure.fault) }
{
    let Ok(text) = users_shown(alloc, form, allowed, lines) else {
        return Err(no_memory());
    };
    print_text(text.as_str(), output)
}

/// How many of the users may, of how many nothing is said, how many cannot log on, and how many are shown nothing.
#[derive(Clone, Copy)]
struct UserCounts {
    share: Share,
    undecided: usize,
    no_logon: usize,
    hidden: usize,
}

/// Prints the lines of the users, and counts.
fn print_all_users<W: Write>(
    alloc: Global,
    form: Form,
    allowed: bool,
    who: &Who,
    output: &mut W,
) -> Result<UserCounts, Failure>
    ensures text { IfOk result (λ _. Appends (W.contents output.old) (W.contents output.new)
        (users_shown form allowed (users_of who.now))) }
    ensures counts { IfOk result (λ counts. counts ≡ record {
      share = share_of (users_of who.now);
      undecided = count_by is_undecided (users_of who.now);
      no_logon = count_by cannot_log_on (users_of who.now);
      hidden = count_by is_shown_nothing (users_of who.now);
    }) }
    ensures fails { IfErr result (λ failure. IsFailure failure.fault) }
{
    let Ok(users) = who.users(alloc) else {
        return Err(no_memory());
    };
    let lines = users.as_slice();
    print_users(alloc, form, allowed, lines, output)?;
    Ok(UserCounts {
        share: Share::of_users(lines),
        undecided: count_undecided(lines),
        no_logon: count_no_logon(lines),
        hidden: count_hidden(lines),
    })
}

/// Prints the lines of users at one console alone, and counts.
fn print_raised_there<W: Write>(
    alloc: Global,
    form: Form,
    allowed: bool,
    who: &Who,
    console: &ConsoleRow,
    output: &mut W,
) -> Result<Share, Failure>
    ensures text { IfOk result (λ _. Appends (W.contents output.old) (W.contents output.new)
        (users_shown form allowed (raised_there who.now console.now))) }
    ensures share { IfOk result (λ share. share ≡ share_of (raised_there who.now console.now)) }
    ensures fails { IfErr result (λ failure. IsFailure failure.fault) }
{
    let Ok(users) = who.raised_there(alloc, console) else {
        return Err(no_memory());
    };
    let lines = users.as_slice();
    print_users(alloc, form, allowed, lines, output)?;
    Ok(Share::of_users(lines))
}

/// How many may of both.
fn added(share: Share, others: Share) -> Result<Share, Failure>
    ensures sum { IfOk result (λ both. both ≡ record {
      may = share.may + others.may;
      all = share.all + others.all;
    }) }
    ensures fails { IfErr result (λ failure. IsFailure failure.fault) }
{
    match share.and(others) {
        Some(both) => Ok(both),
        // No file is long enough for so many lines.
        None => Err(no_memory()),
    }
}

/// The same at each console, one after another.
fn print_raised<W: Write>(
    alloc: Global,
    form: Form,
    allowed: bool,
    who: &Who,
    output: &mut W,
) -> Result<Share, Failure>
    ensures text { IfOk result (λ _. Appends (W.contents output.old) (W.contents output.new)
        (users_shown form allowed (raised_of who.now))) }
    ensures share { IfOk result (λ share. share ≡ share_of (raised_of who.now)) }
    ensures fails { IfErr result (λ failure. IsFailure failure.fault) }
{
    let Ok(consoles) = who.named(alloc) else {
        return Err(no_memory());
    };
    let mut share = Share::of_users(&[]);
    for console in &consoles {
        let there = print_raised_there(alloc, form, allowed, who, console, output)?;
        share = added(share, there)?;
    }
    Ok(share)
}

/// Prints the lines of the consoles, if the question is about a command, and counts.
fn print_consoles<W: Write>(
    alloc: Global,
    form: Form,
    allowed: bool,
    who: &Who,
    output: &mut W,
) -> Result<ConsoleCounts, Failure>
    requires { HasDecider who.now }
    ensures text { IfOk result (λ _. Appends (W.contents output.old) (W.contents output.new)
        (consoles_shown form allowed (consoles_of who.now))) }
    ensures counts { IfOk result (λ counts. counts ≡ console_counts who.now.wanted (consoles_of who.now)) }
    ensures fails { IfErr result (λ failure. IsFailure failure.fault) }
{
    let Ok(lines) = who.consoles(alloc) else {
        return Err(no_memory());
    };
    let Ok(text) = consoles_shown(alloc, form, allowed, &lines) else {
        return Err(no_memory());
    };
    print_text(text.as_str(), output)?;
    Ok(ConsoleCounts::of(&who.wanted, &lines))
}

/// Prints how many may, if the answer is text.
fn print_ending<W: Write>(
    alloc: Global,
    form: Form,
    counts: &Counts,
    output: &mut W,
) -> Result<(), Failure>
    ensures text { OnOk result (Appends (W.contents output.old) (W.contents output.new)
        (ending form counts.now)) }
    ensures fails { IfErr result (λ failure. IsFailure failure.fault) }
{
    let Ok(text) = ending(alloc, form, counts) else {
        return Err(no_memory());
    };
    print_text(text.as_str(), output)
}

/// Prints the lines of users and consoles, and counts.
fn print_lines<W: Write>(
    alloc: Global,
    form: Form,
    allowed: bool,
    who: &Who,
    output: &mut W,
) -> Result<Counts, Failure>
    requires { HasDecider who.now }
    ensures text { IfOk result (λ _. Appends (W.contents output.old) (W.contents output.new)
        (users_shown form allowed (users_of who.now) ++ users_shown form allowed (raised_of who.now)
        ++ consoles_shown form allowed (consoles_of who.now))) }
    ensures counts { IfOk result (λ counts. counts ≡ counts_of who.now) }
    ensures fails { IfErr result (λ failure. IsFailure failure.fault) }
{
    let users = print_all_users(alloc, form, allowed, who, output)?;
    let raised = print_raised(alloc, form, allowed, who, output)?;
    let consoles = print_consoles(alloc, form, allowed, who, output)?;
    Ok(Counts {
        users: users.share,
        undecided: users.undecided,
        no_logon: users.no_logon,
        hidden: users.hidden,
        raised,
        consoles,
    })
}

/// Prints who may, as text or as JSON. Of the lines at one console alone those of one console are in memory, so that
/// they take no more memory than users and consoles do, however many lines there are.
pub(crate) fn print_who<W: Write>(
    alloc: Global,
    form: Form,
    allowed: bool,
    who: &Who,
    output: &mut W,
) -> Result<(), Failure>
    requires { HasDecider who.now }
    ensures text { OnOk result (Appends (W.contents output.old) (W.contents output.new)
        (who_shown form allowed who.now)) }
    ensures fails { IfErr result (λ failure. IsFailure failure.fault) }
{
    print_beginning(alloc, form, who, output)?;
    let counts = print_lines(alloc, form, allowed, who, output)?;
    print_ending(alloc, form, &counts, output)
}
