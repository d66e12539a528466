//! The page of what is found that a client asks for.
ghost use Rattle.std.specs.Prelude.{◌≡◌, ◌≤◌, IfOk, length, map, take};
ghost use Rattle.serde_json.specs.Data.{array};
ghost use Rattle.serde_json.specs.View.{items_of, view};
ghost use Rattle.opc_decide_searches.specs.Candidates.{candidate_value};
ghost use Rattle.opc_decide_searches.specs.Pages.{is_after, next_token, page_value, results_value, rest_of, shown_of};

use crate::candidate::AccessCandidate;
use serde_json::{Value, json};
use std::alloc::{AllocError, Global};

fn is_after(token: &str, candidate: &AccessCandidate) -> bool
    ensures { result ≡ is_after token.now candidate.now }
{
    token < candidate.name()
}

/// What comes after the last result of the page before.
fn rest_of(
    alloc: Global,
    found: &[AccessCandidate],
    token: &str,
) -> Result<Vec<AccessCandidate>, AllocError>
    ensures { IfOk result (λ rest. rest.items ≡ rest_of token.now found.now) }
{
    let mut rest = Vec::new(alloc);
    for candidate in found {
        if is_after(token, candidate) {
            rest.push(*candidate)?;
        }
    }
    Ok(rest)
}

/// The first of them, up to a limit.
fn shown_of(rest: &[AccessCandidate], limit: usize) -> &[AccessCandidate]
    ensures { result.now ≡ shown_of limit rest.now }
{
    if rest.len() <= limit {
        return rest;
    }
    &rest[..limit]
}

/// The last result, if more come after the page.
fn next_token(shown: &[AccessCandidate], more: bool) -> &str
    ensures { result.now ≡ next_token more shown.entry.now }
{
    match shown.last() {
        Some(last) if more => last.name(),
        Some(_) | None => "",
    }
}

fn values_of(alloc: Global, shown: &[AccessCandidate]) -> Result<Value, AllocError>
    ensures { IfOk result (λ value. view value ≡ array (items_of (map candidate_value shown.now))) }
{
    let mut items = Vec::new(alloc);
    for candidate in shown {
        items.push(candidate.value(alloc)?)?;
    }
    Ok(Value::Array(items))
}

/// The page, and how many are on it, and how many there are.
pub(crate) fn results_value(
    alloc: Global,
    found: &[AccessCandidate],
    limit: usize,
    token: &str,
) -> Result<Value, AllocError>
    ensures { IfOk result (λ value. view value ≡ results_value limit token.now found.now) }
{
    let rest = rest_of(alloc, found, token)?;
    let shown = shown_of(rest.as_slice(), limit);
    let next = next_token(shown, shown.len() < rest.len());
    let (count, total) = (shown.len() as u64, found.len() as u64);
    let results = values_of(alloc, shown)?;
    json!(in alloc; {
        "page": {"count": count, "next_token": next, "total": total}, "results": results
    })
}
