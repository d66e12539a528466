//! What a script's run prints.
ghost use Rattle.std.specs.Prelude.{◌≡◌, IfOk, string_bytes};
ghost use Rattle.opc_machine.specs.declared.request.Answer.{Answer as TheAnswer};
ghost use Rattle.opc_cli_script.specs.Transcripts.{answer_text, bad_line_text};

use opc_board::line::Line;
use opc_gate::request::Answer;
use opc_terms::fault::Fault;
use opc_terms::rule::Rule;
use std::alloc::{AllocError, Global};
use std::fmt::Write;

fn done_text(
    alloc: Global,
    moment: u64,
    lines: &[Line],
    rule: &Option<Rule>,
) -> Result<String, AllocError>
    ensures { IfOk result (λ text. string_bytes text ≡ answer_text moment (TheAnswer.Done lines.now rule.now)) }
{
    let rule = Rule::text_or_none(alloc, rule.as_ref())?;
    let mut text = format!(in alloc; "{moment} DONE {rule}")?;
    text.push_str("\n")?;
    for line in lines {
        text.push_str("  ")?;
        text.push_str(line.text.as_str())?;
        text.push_str("\n")?;
    }
    Ok(text)
}

fn refused_text(
    alloc: Global,
    moment: u64,
    fault: &Fault,
    rule: &Option<Rule>,
) -> Result<String, AllocError>
    ensures { IfOk result (λ text. string_bytes text ≡ answer_text moment (TheAnswer.Refused fault.now rule.now)) }
{
    let rule = Rule::text_or_none(alloc, rule.as_ref())?;
    let mut text = format!(in alloc; "{moment} REFUSED {} {fault} {rule}", fault.code())?;
    text.push_str("\n")?;
    Ok(text)
}

/// The text of an answer, which ends in a line feed.
pub fn answer_text(alloc: Global, moment: u64, answer: &Answer) -> Result<String, AllocError>
    ensures { IfOk result (λ text. string_bytes text ≡ answer_text moment answer.now) }
{
    match answer {
        Answer::Done { lines, rule } => done_text(alloc, moment, lines.as_slice(), rule),
        Answer::Refused { fault, rule } => refused_text(alloc, moment, fault, rule),
    }
}

/// What is printed of a bad line.
pub fn bad_line_text(alloc: Global, number: usize) -> Result<String, AllocError>
    ensures { IfOk result (λ text. string_bytes text ≡ bad_line_text number) }
{
    let mut text = format!(in alloc; "BAD LINE {number}")?;
    text.push_str("\n")?;
    Ok(text)
}
