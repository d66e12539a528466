//! `diff` of two texts.
ghost use Rattle.std.specs.Prelude.{Some};
ghost use Rattle.opc_cli_questions.specs.Sides.{IsSideRead};
ghost use Rattle.opc_embedded.specs.Answers.{AreTextsCompared, IsComparedWithText};

use crate::texts::{GivenFile, PolicyTexts};
use opc_cli_failures::failure::Failure;
use opc_cli_failures::status::Status;
use opc_cli_questions::comparing::{compare_with, side_refused};
use opc_cli_questions::sides::{PolicySide, side_at};
use opc_cli_tasks::question::Comparison;
use opc_io::watched::Watched;
use std::alloc::Global;
use std::io::Write;

/// The policy of a text.
fn side_of(alloc: Global, bytes: &[u8]) -> Result<PolicySide, Failure>
    ensures { IsSideRead (Some bytes.now) result }
{
    // (any path names it)
    side_at(alloc, &GivenFile { bytes }, "")
}

/// Compares a policy with that of a text, and prints what changes.
fn compare_with_text<W: Write, E: Write>(
    alloc: Global,
    old: PolicySide,
    text: &[u8],
    compared: &Comparison<'_>,
    output: &mut Watched<W>,
    errors: &mut Watched<E>,
) -> Status
    ensures { IsComparedWithText W.contents E.contents output.old output.new errors.old errors.new result
        compared.now.form text.now old }
{
    let new = side_of(alloc, text);
    compare_with(alloc, old, new, compared, output, errors)
}

/// Compares two texts: prints what changes from the policy to the new one, and returns whether rows differ.
pub(crate) fn compare_texts<W: Write, E: Write>(
    alloc: Global,
    texts: &PolicyTexts<'_>,
    compared: &Comparison<'_>,
    output: &mut Watched<W>,
    errors: &mut Watched<E>,
) -> Status
    ensures { AreTextsCompared W.contents E.contents output.old output.new errors.old errors.new result
        compared.now.form texts.now.policy.now texts.now.new.now }
{
    match side_of(alloc, texts.policy) {
        Ok(old) => compare_with_text(alloc, old, texts.new, compared, output, errors),
        Err(failure) => side_refused(failure, &compared.old, errors),
    }
}
