//! The forms of the resources about which the gate asks.
ghost use Rattle.std.specs.Prelude.{◌≡◌, IfOk, map};
ghost use Rattle.std.specs.List.{list_any};
ghost use Rattle.opc_policy_witness.specs.Forms.{IsForm};
ghost use Rattle.opc_check_reach.specs.Forms.{AreForms, decides_of, fixed_forms, forms_of, named_forms, shape};

use opc_names::name::Pattern;
use opc_policy_witness::forms::FormQualifier::{self, AnyConsole, AnyUnit, Word};
use opc_policy_witness::witness::witness;
use std::alloc::{AllocError, Global};

/// The forms without a name.
const FIXED: [&[FormQualifier]; 17] = [
    &[Word("MVS"), Word("DISPLAY"), Word("JOB")],
    &[Word("MVS"), Word("DISPLAY"), Word("U")],
    &[Word("MVS"), Word("DISPLAY"), Word("CN")],
    &[Word("MVS"), Word("DISPLAY"), Word("R")],
    &[Word("MVS"), Word("REPLY")],
    &[Word("MVS"), Word("VARY"), Word("DEV")],
    &[Word("MVS"), Word("MOUNT")],
    &[Word("MVS"), Word("UNLOAD")],
    &[Word("MVS"), Word("SWAP")],
    &[Word("MVS"), Word("VARY"), Word("CN")],
    &[Word("MVS"), Word("VARYAUTH"), Word("CN")],
    &[Word("MVS"), Word("RESET"), Word("CN")],
    &[Word("MVS"), Word("SEND")],
    &[Word("MVS"), Word("LOG")],
    &[Word("MVS"), Word("MONITOR")],
    &[Word("MVS"), Word("STOPMN")],
    &[Word("MVS"), Word("HALT"), Word("EOD")],
];

/// Those with a name: of a unit or a user, of a console, or of a member and a unit.
const NAMED: [&[FormQualifier]; 13] = [
    &[Word("MVS"), Word("DISPLAY"), Word("JOB"), AnyUnit],
    &[Word("MVS"), Word("DISPLAY"), Word("CN"), AnyConsole],
    &[Word("MVS"), Word("CANCEL"), Word("JOB"), AnyUnit],
    &[Word("MVS"), Word("CANCEL"), Word("TSU"), AnyUnit],
    &[Word("MVS"), Word("FORCE"), Word("JOB"), AnyUnit],
    &[Word("MVS"), Word("FORCE"), Word("TSU"), AnyUnit],
    &[Word("MVS"), Word("STOP"), Word("JOB"), AnyUnit],
    &[Word("MVS"), Word("MODIFY"), Word("JOB"), AnyUnit],
    &[Word("MVS"), Word("START"), Word("STC"), AnyUnit, AnyUnit],
    &[Word("MVS"), Word("CANCEL"), Word("STC"), AnyUnit, AnyUnit],
    &[Word("MVS"), Word("FORCE"), Word("STC"), AnyUnit, AnyUnit],
    &[Word("MVS"), Word("STOP"), Word("STC"), AnyUnit, AnyUnit],
    &[Word("MVS"), Word("MODIFY"), Word("STC"), AnyUnit, AnyUnit],
];

/// Whether a pattern decides a resource of a form, if these come before it.
fn decides_form(
    alloc: Global,
    pattern: &Pattern,
    before: &[Pattern],
    form: &[FormQualifier],
) -> Result<bool, AllocError>
    requires { IsForm form.now }
    ensures { IfOk result (λ b. b ≡ decides_of pattern.now before.now (map shape form.now)) }
{
    let include = [*pattern];
    let found = witness(alloc, form, &include, before)?;
    Ok(found.is_some())
}

/// Whether it decides a resource of one of some forms.
fn decides_one(
    alloc: Global,
    pattern: &Pattern,
    before: &[Pattern],
    forms: &[&[FormQualifier]],
) -> Result<bool, AllocError>
    requires { AreForms forms.now }
    ensures { IfOk result (λ b. b ≡ list_any (decides_of pattern.now before.now) (forms_of forms.now)) }
{
    match forms {
        [] => Ok(false),
        [form, rest @ ..] => Ok(
            decides_form(alloc, pattern, before, form)?
                || decides_one(alloc, pattern, before, rest)?,
        ),
    }
}

/// Whether it decides a resource without a name.
pub(crate) fn decides_fixed(
    alloc: Global,
    pattern: &Pattern,
    before: &[Pattern],
) -> Result<bool, AllocError>
    ensures { IfOk result (λ b. b ≡ list_any (decides_of pattern.now before.now) fixed_forms) }
{
    decides_one(alloc, pattern, before, &FIXED)
}

/// Whether it decides one with a name.
pub(crate) fn decides_named(
    alloc: Global,
    pattern: &Pattern,
    before: &[Pattern],
) -> Result<bool, AllocError>
    ensures { IfOk result (λ b. b ≡ list_any (decides_of pattern.now before.now) named_forms) }
{
    decides_one(alloc, pattern, before, &NAMED)
}
