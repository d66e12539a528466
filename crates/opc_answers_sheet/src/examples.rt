//! The forms of a kind of which a resource was found.
ghost use Rattle.std.specs.Prelude.{◌≡◌, ◌++◌, ◌∷◌, [], IfOk, OnOk, map};
ghost use Rattle.opc_policy_deciders.specs.Forms.{asked, forms};
ghost use Rattle.opc_policy_deciders.specs.Kinds.{examples};
ghost use Rattle.opc_answers_sheet.specs.Examples.{first_need, forms_of, name_in, names_of};

use opc_names::name::Resource;
use opc_policy_deciders::form::{FORMS, ResourceForm};
use opc_policy_deciders::kind::{AskedKind, is_of_kind};
use opc_terms::need::Need;
use std::alloc::{AllocError, Global};

/// What a command of the first of these forms needs.
fn first_of(kind: &AskedKind, forms: &[ResourceForm], found: &[Option<Resource>]) -> Option<Need>
    ensures { result ≡ first_need (examples kind.now (map asked forms.now) found.now) }
{
    let [form, other_forms @ ..] = forms else {
        return None;
    };
    let [example, others @ ..] = found else {
        return None;
    };
    match example {
        Some(resource) if is_of_kind(kind, form) => {
            Some(Need {
                resource: *resource,
                level: form.level,
                group: form.group,
            })
        }
        // The form is of another kind, or nothing is found of it.
        _ => first_of(kind, other_forms, others),
    }
}

/// The same of all forms.
pub(crate) fn first_need(kind: &AskedKind, found: &[Option<Resource>]) -> Option<Need>
    ensures { result ≡ first_need (examples kind.now forms found.now) }
{
    first_of(kind, &FORMS, found)
}

/// Adds a form, if it is of a kind and something is found of it.
fn push_form(
    list: &mut Vec<ResourceForm>,
    kind: &AskedKind,
    form: &ResourceForm,
    example: &Option<Resource>,
) -> Result<(), AllocError>
    ensures { OnOk result (map asked list.new.items ≡ map asked list.old.items
        ++ forms_of (examples kind.now (asked form.now ∷ []) (example.now ∷ []))) }
{
    if example.is_some() && is_of_kind(kind, form) {
        list.push(*form)?;
    }
    Ok(())
}

#[tactic(auto, using(crate::proofs::Found::found_step))]
fn push_forms(
    list: &mut Vec<ResourceForm>,
    kind: &AskedKind,
    forms: &[ResourceForm],
    found: &[Option<Resource>],
) -> Result<(), AllocError>
    ensures { OnOk result (map asked list.new.items ≡ map asked list.old.items
        ++ forms_of (examples kind.now (map asked forms.now) found.now)) }
{
    let [form, other_forms @ ..] = forms else {
        return Ok(());
    };
    let [example, others @ ..] = found else {
        return Ok(());
    };
    push_form(list, kind, form, example)?;
    push_forms(list, kind, other_forms, others)
}

/// These forms.
fn forms_of(
    alloc: Global,
    kind: &AskedKind,
    found: &[Option<Resource>],
) -> Result<Vec<ResourceForm>, AllocError>
    ensures { IfOk result (λ list. map asked list.items ≡ forms_of (examples kind.now forms found.now)) }
{
    let mut list = Vec::new(alloc);
    push_forms(&mut list, kind, &FORMS, found)?;
    Ok(list)
}

fn names_in(alloc: Global, forms: &[ResourceForm]) -> Result<Vec<&'static str>, AllocError>
    ensures { IfOk result (λ names. map (λ name. name.now) names.items ≡ map name_in forms.now) }
{
    let mut names = Vec::new(alloc);
    for form in forms {
        names.push(form.name)?;
    }
    Ok(names)
}

/// The names of these forms.
pub(crate) fn names_of(
    alloc: Global,
    kind: &AskedKind,
    found: &[Option<Resource>],
) -> Result<Vec<&'static str>, AllocError>
    ensures { IfOk result (λ names. map (λ name. name.now) names.items ≡ names_of (examples kind.now forms found.now)) }
{
    let forms = forms_of(alloc, kind, found)?;
    names_in(alloc, forms.as_slice())
}
