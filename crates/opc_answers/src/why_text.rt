//! Why a user, or nobody, may or may not, as text.
ghost use Rattle.std.specs.Prelude.{◌≡◌, IfOk, string_bytes};
ghost use Rattle.std.specs.List.{flat_map};
ghost use Rattle.opc_policy.specs.Explained.{covers_line};
ghost use Rattle.opc_answers.specs.Why.{covers_text, line_text};

use crate::beginning::{line_need_text, needs_text};
use crate::text::{instead_text, instead_word};
use crate::why::{Covers, Explanation, LineExplained};
use opc_names::name::Pattern;
use opc_policy_sources::levels_text::levels_text;
use std::alloc::{AllocError, Global};

fn covers_line(alloc: Global, pattern: &Pattern) -> Result<String, AllocError>
    ensures { IfOk result (λ text. string_bytes text ≡ covers_line pattern.now) }
{
    format!(in alloc; "COVERS {pattern}\n")
}

fn covers_lines(alloc: Global, patterns: &[Pattern]) -> Result<String, AllocError>
    ensures { IfOk result (λ text. string_bytes text ≡ flat_map covers_line patterns.now) }
{
    let mut text = String::new(alloc);
    for pattern in patterns {
        text.push_str(covers_line(alloc, pattern)?.as_str())?;
    }
    Ok(text)
}

/// A line for each profile that covers.
fn covers_text(alloc: Global, covers: &Covers) -> Result<String, AllocError>
    ensures { IfOk result (λ text. string_bytes text ≡ covers_text covers.now) }
{
    match covers {
        Covers::Nobody => Ok(String::new(alloc)),
        Covers::Patterns(patterns) => covers_lines(alloc, patterns.as_slice()),
        Covers::Levels(levels) => levels_text(alloc, levels.as_slice()),
    }
}

/// What the line needs that a command asks for, and a line for each profile that covers it.
fn line_text(alloc: Global, line: &Option<LineExplained>) -> Result<String, AllocError>
    ensures { IfOk result (λ text. string_bytes text ≡ line_text line.now) }
{
    let Some(line) = line else {
        return Ok(String::new(alloc));
    };
    let mut text = line_need_text(alloc, &line.need)?;
    text.push_str(covers_text(alloc, &line.covers)?.as_str())?;
    Ok(text)
}

impl Explanation {
    ghost use Rattle.opc_answers.specs.Why.{said_rule, said_verdict, verdict_line, why_text};

    /// The verdict, or what is said in its place.
    pub(crate) fn said_verdict(&self) -> &str
        ensures { result.now ≡ said_verdict self.now.verdict self.now.instead }
    {
        match &self.instead {
            Some(instead) => instead_word(instead),
            None => self.verdict.text(),
        }
    }

    /// The rule, or what is said in its place.
    pub(crate) fn said_rule(&self, alloc: Global) -> Result<String, AllocError>
        ensures { IfOk result (λ text. string_bytes text ≡ said_rule self.now.rule self.now.instead) }
    {
        match &self.instead {
            Some(instead) => instead_text(alloc, instead, &self.rule),
            None => self.rule.text(alloc),
        }
    }

    fn verdict_line(&self, alloc: Global) -> Result<String, AllocError>
        ensures { IfOk result (λ text. string_bytes text ≡ verdict_line self.now) }
    {
        let (verdict, rule) = (self.said_verdict(), self.said_rule(alloc)?);
        let rule = rule.as_str();
        format!(in alloc; "{verdict} {rule}\n")
    }

    /// What is needed, if a command is asked about, the profiles that cover, and the verdict with its rule.
    pub fn text(&self, alloc: Global) -> Result<String, AllocError>
        ensures { IfOk result (λ text. string_bytes text ≡ why_text self.now) }
    {
        let mut text = needs_text(alloc, &self.wanted)?;
        text.push_str(covers_text(alloc, &self.covers)?.as_str())?;
        text.push_str(line_text(alloc, &self.line)?.as_str())?;
        text.push_str(self.verdict_line(alloc)?.as_str())?;
        Ok(text)
    }
}
