//! Why a user may or may not, as JSON.
ghost use Rattle.std.specs.Prelude.{◌≡◌, IfOk, string_bytes};
ghost use Rattle.serde_json.specs.Data.{array};
ghost use Rattle.serde_json.specs.View.{view};
ghost use Rattle.opc_answers.specs.Json.{group_of, taken_words, text_or_null};
ghost use Rattle.opc_answers.specs.WhyJson.{
  covering_items,
  covering_value,
  explanation_object,
  levels_of,
  line_value,
  why_value,
};

use crate::json::{group_value, json_line, taken_value};
use crate::why::{Covers, Explanation, LineExplained};
use opc_names::name::{ConsoleName, UserId};
use opc_policy_sources::levels::CoveringLevel;
use serde_json::{Value, json};
use std::alloc::{AllocError, Global};

fn console_value(alloc: Global, name: &Option<ConsoleName>) -> Result<Value, AllocError>
    ensures { IfOk result (λ value. view value ≡ text_or_null name.now) }
{
    match name {
        Some(name) => Value::try_from_str(alloc, name.text()),
        None => Ok(Value::Null),
    }
}

fn user_value(alloc: Global, id: &Option<UserId>) -> Result<Value, AllocError>
    ensures { IfOk result (λ value. view value ≡ text_or_null id.now) }
{
    match id {
        Some(id) => Value::try_from_str(alloc, id.text()),
        None => Ok(Value::Null),
    }
}

/// A profile that covers, with the level that is held in it.
fn covering_value(alloc: Global, level: &CoveringLevel) -> Result<Value, AllocError>
    ensures { IfOk result (λ value. view value ≡ covering_value level.now) }
{
    let place = console_value(alloc, &level.held.when)?;
    let origin = level.held.source;
    let source = format!(in alloc; "{origin}")?;
    let (held, pattern) = (level.held.level.text(), level.pattern.text());
    let source = source.as_str();
    json!(in alloc; {"at": place, "held": held, "pattern": pattern, "source": source})
}

fn coverings_value(alloc: Global, levels: &[CoveringLevel]) -> Result<Value, AllocError>
    ensures { IfOk result (λ value. view value ≡ array (covering_items levels.now)) }
{
    let mut items = Vec::new(alloc);
    for level in levels {
        items.push(covering_value(alloc, level)?)?;
    }
    Ok(Value::Array(items))
}

/// The profiles that cover, as an array: none, if their levels are not known.
fn covers_value(alloc: Global, covers: &Covers) -> Result<Value, AllocError>
    ensures { IfOk result (λ value. view value ≡ array (covering_items (levels_of covers.now))) }
{
    match covers {
        Covers::Levels(levels) => coverings_value(alloc, levels.as_slice()),
        Covers::Nobody | Covers::Patterns(_) => coverings_value(alloc, &[]),
    }
}

/// The line that a command asks for, if it asks for one.
fn line_value(alloc: Global, line: &Option<LineExplained>) -> Result<Value, AllocError>
    ensures { IfOk result (λ value. view value ≡ line_value line.now) }
{
    let Some(line) = line else {
        return Ok(Value::Null);
    };
    let covers = covers_value(alloc, &line.covers)?;
    let (level, resource) = (line.need.level.text(), line.need.resource.text());
    json!(in alloc; {"covers": covers, "level": level, "resource": resource})
}

/// The values of an explanation that are objects or may be null.
#[derive(Drop)]
struct ExplanationValues {
    taken: Value,
    console: Value,
    covers: Value,
    group: Value,
    line: Value,
    user: Value,
}

fn values_of(alloc: Global, why: &Explanation) -> Result<ExplanationValues, AllocError>
    ensures taken { IfOk result (λ values. view values.taken ≡ text_or_null (taken_words why.now.wanted)) }
    ensures console { IfOk result (λ values. view values.console ≡ text_or_null why.now.console) }
    ensures covers { IfOk result (λ values. view values.covers ≡ array (covering_items (levels_of why.now.covers))) }
    ensures group { IfOk result (λ values. view values.group ≡ text_or_null (group_of why.now.wanted)) }
    ensures line { IfOk result (λ values. view values.line ≡ line_value why.now.line) }
    ensures user { IfOk result (λ values. view values.user ≡ text_or_null why.now.actor) }
{
    Ok(ExplanationValues {
        taken: taken_value(alloc, &why.wanted)?,
        console: console_value(alloc, &why.console)?,
        covers: covers_value(alloc, &why.covers)?,
        group: group_value(alloc, &why.wanted)?,
        line: line_value(alloc, &why.line)?,
        user: user_value(alloc, &why.actor)?,
    })
}

/// Its values that are texts.
#[derive(Clone, Copy)]
struct ExplanationTexts<'a> {
    class: &'a str,
    level: &'a str,
    resource: &'a str,
    rule: &'a str,
    verdict: &'a str,
}

fn object_of(
    alloc: Global,
    values: ExplanationValues,
    texts: &ExplanationTexts<'_>,
) -> Result<Value, AllocError>
    ensures { IfOk result (λ value. view value ≡ explanation_object (view values.taken) (view values.console)
        (view values.covers) (view values.group) (view values.line) (view values.user) texts.now.class.now
        texts.now.level.now texts.now.resource.now texts.now.rule.now texts.now.verdict.now) }
{
    let ExplanationValues {
        taken,
        console,
        covers,
        group,
        line,
        user,
    } = values;
    let ExplanationTexts {
        class,
        level,
        resource,
        rule,
        verdict,
    } = *texts;
    json!(in alloc; {
        "as": taken, "class": class, "console": console, "covers": covers, "group": group, "level": level,
        "resource": resource, "rule": rule, "shows": line, "user": user, "verdict": verdict
    })
}

fn why_value(alloc: Global, why: &Explanation) -> Result<Value, AllocError>
    ensures { IfOk result (λ value. view value ≡ why_value why.now) }
{
    let values = values_of(alloc, why)?;
    let rule = why.said_rule(alloc)?;
    let wanted = &why.wanted;
    let (class, resource, level) = (wanted.class(), wanted.resource(), wanted.level());
    let texts = ExplanationTexts {
        class: class.text(),
        level: level.text(),
        resource: resource.text(),
        rule: rule.as_str(),
        verdict: why.said_verdict(),
    };
    object_of(alloc, values, &texts)
}

impl Explanation {
    ghost use Rattle.opc_answers.specs.WhyJson.{why_json};

    /// The same as one line of JSON, with the profiles that cover and the level that is held in each.
    #[tactic(auto, using(crate::proofs::Floats::why_so))]
    pub fn json(&self, alloc: Global) -> Result<String, AllocError>
        ensures { IfOk result (λ text. string_bytes text ≡ why_json self.now) }
    {
        let value = why_value(alloc, self)?;
        json_line(alloc, &value)
    }
}
