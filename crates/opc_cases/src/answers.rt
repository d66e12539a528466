//! Cases of answers for people. Each case makes a policy file, row by row, or asks a question of it; what is printed is
//! the answer. `-` stands for no user or no console.
ghost use Rattle.opc_answers.specs.Who.{HasDecider};

use crate::policy_file::{HEADER, reported};
use crate::table::alone;
use crate::words::{class_in, first_word, level_in};
use anyhow::{Result, bail};
use opc_answers::answer::{PolicyAnswer, answer_of};
use opc_answers::beginning::beginning_text;
use opc_answers::counts::{
    ConsoleCounts, Counts, Share, count_hidden, count_no_logon, count_undecided, counts_text,
};
use opc_answers::lines::UserLine;
use opc_answers::question::{About, Asks, Question};
use opc_answers::text::{console_lines_text, users_text};
use opc_answers::who::Who;
use opc_import::read::read_policy;
use opc_names::name::{ConsoleName, Resource, UserId};
use opc_rows::Rows;
use opc_terms::fault::Fault;
use opc_terms::unit_kind::UnitKindAt;
use std::alloc::{AllocError, Global};

/// The answer to a case: a row of the policy file, `new` for another file, or a question. An unknown subject ends the
/// program.
pub fn answer(alloc: Global, file: &mut String, case: &str) -> Result<String> {
    let (subject, rest) = first_word(case);
    match subject {
        "new" => {
            *file = String::from_str(alloc, HEADER)?;
            Ok(String::new(alloc))
        }
        "row" => {
            file.push_str(rest)?;
            file.push_str("\n")?;
            Ok(String::new(alloc))
        }
        _ => asked_by(alloc, file.as_str(), subject, rest),
    }
}

/// The answer to a question over a policy file.
fn asked_by(alloc: Global, file: &str, subject: &str, words: &str) -> Result<String> {
    let question = match subject {
        "who" => who(command(words), None, false),
        "allowed" => who(command(words), None, true),
        "at" => {
            let (console, text) = first_word(words);
            who(command(text), Some(ConsoleName::read(console)?), false)
        }
        "access" => who(access_in(words)?, None, false),
        "why" => why(words)?,
        _ => bail!("no subject"),
    };
    printed(alloc, answered(alloc, file, &question))
}

/// An answer, or the fault of a question.
fn printed(alloc: Global, answer: Result<String, Fault>) -> Result<String> {
    match answer {
        Ok(text) => Ok(text),
        Err(fault) => alone(reported(alloc, &fault)?),
    }
}

/// What is reported of users at one console alone, console by console.
fn raised_of(alloc: Global, who: &Who) -> Result<Rows<UserLine>, AllocError> {
    let mut lines = Rows::new(alloc);
    for console in who.named(alloc)?.iter() {
        for line in who.raised_there(alloc, console)?.as_slice() {
            lines.push(*line)?;
        }
    }
    Ok(lines)
}

/// The whole text of an answer.
fn who_text(alloc: Global, who: &Who, allowed: bool) -> Result<String, AllocError>
    requires { HasDecider who.now }
{
    let (users, raised) = (who.users(alloc)?, raised_of(alloc, who)?);
    let (users, raised) = (users.as_slice(), raised.as_slice());
    let lines = who.consoles(alloc)?;
    let counts = Counts {
        users: Share::of_users(users),
        undecided: count_undecided(users),
        no_logon: count_no_logon(users),
        hidden: count_hidden(users),
        raised: Share::of_users(raised),
        consoles: ConsoleCounts::of(&who.wanted, &lines),
    };
    let mut text = beginning_text(alloc, who)?;
    text.push_str(users_text(alloc, users, allowed)?.as_str())?;
    text.push_str(users_text(alloc, raised, allowed)?.as_str())?;
    text.push_str(console_lines_text(alloc, &lines, allowed)?.as_str())?;
    text.push_str(counts_text(alloc, &counts)?.as_str())?;
    Ok(text)
}

/// The answer to a question, by the policy file.
fn answered(alloc: Global, file: &str, question: &Question<'_>) -> Result<String, Fault> {
    let rows = read_policy(alloc, file)?;
    match answer_of(alloc, rows.as_slice(), question)? {
        PolicyAnswer::Nothing => Ok(String::from_str(alloc, "NEEDS NOTHING\n")?),
        PolicyAnswer::Why(why) => Ok(why.text(alloc)?),
        PolicyAnswer::Who(who, allowed) => Ok(who_text(alloc, &who, allowed)?),
    }
}

/// A command, whose unit is not on the board.
fn command(text: &str) -> About<'_> {
    About::Command {
        text,
        kind: UnitKindAt::Absent,
    }
}

/// A level of access: class, resource, level.
fn access_in(words: &str) -> Result<About<'_>> {
    let (class, rest) = first_word(words);
    let (resource, level) = first_word(rest);
    Ok(About::Access {
        class: class_in(class)?,
        resource: Resource::read(resource)?,
        level: level_in(level)?,
    })
}

/// Who may: only these users, or everybody.
fn who(about: About<'_>, console: Option<ConsoleName>, allowed: bool) -> Question<'_> {
    Question {
        about,
        console,
        asks: Asks::Who { allowed },
    }
}

/// Why a command may or may not be entered: user, console, text.
fn why(words: &str) -> Result<Question<'_>> {
    let (user, rest) = first_word(words);
    let (console, text) = first_word(rest);
    let actor = if user == "-" {
        None
    } else {
        Some(UserId::read(user)?)
    };
    let console = if console == "-" {
        None
    } else {
        Some(ConsoleName::read(console)?)
    };
    Ok(Question {
        about: command(text),
        console,
        asks: Asks::Why {
            actor,
            levels: false,
        },
    })
}
