//! Values of JSON.
ghost use Rattle.std.specs.Prelude.{◌≡◌, ◌∷◌, ◌++◌, [], IfOk, OnOk, map};
ghost use Rattle.serde_json.specs.Data.{put, string};
ghost use Rattle.serde_json.specs.View.{members_view, view};
ghost use Rattle.opc_answers_may.specs.Commands.{shown};
ghost use Rattle.opc_answers_may.specs.MayJson.{examples_of, texts, with_examples};
ghost use Rattle.opc_answers_may.specs.MayTexts.{console_of, name_of, names_of};
ghost use Rattle.opc_policy_deciders.specs.Forms.{asked};

use crate::commands::{FormsAsked, takes};
use crate::logons::LogonAt;
use opc_names::name::{GroupName, Resource};
use opc_policy_deciders::form::{FORMS, ResourceForm};
use serde_json::{Map, Value};
use std::alloc::{AllocError, Global};

/// Groups by name, as an array.
pub(crate) fn groups_value(alloc: Global, groups: &[GroupName]) -> Result<Value, AllocError>
    ensures { IfOk result (λ value. view value ≡ texts groups.now) }
{
    let mut items = Vec::new(alloc);
    for group in groups {
        items.push(Value::try_from_str(alloc, group.text())?)?;
    }
    Ok(Value::Array(items))
}

/// Adds a text to an array.
pub(crate) fn push_text(alloc: Global, items: &mut Vec<Value>, text: &str) -> Result<(), AllocError>
    ensures { OnOk result (map view items.new.items ≡ map view items.old.items ++ string text.now ∷ []) }
{
    items.push(Value::try_from_str(alloc, text)?)?;
    Ok(())
}

/// Consoles by name, as an array.
pub(crate) fn consoles_value(alloc: Global, logons: &[LogonAt]) -> Result<Value, AllocError>
    ensures { IfOk result (λ value. view value ≡ texts (map console_of logons.now)) }
{
    let mut items = Vec::new(alloc);
    for logon in logons {
        items.push(Value::try_from_str(alloc, logon.console.text())?)?;
    }
    Ok(Value::Array(items))
}

/// Adds the name of a form, if the form is in the line and something is found of it.
fn push_command(
    alloc: Global,
    items: &mut Vec<Value>,
    which: &FormsAsked,
    form: &ResourceForm,
    found: &Option<Resource>,
) -> Result<(), AllocError>
    ensures { OnOk result (map view items.new.items ≡ map view items.old.items
        ++ map string (map name_of (shown which.now (asked form.now ∷ []) (found.now ∷ [])))) }
{
    if found.is_none() {
        return Ok(());
    }
    if !takes(which, form) {
        return Ok(());
    }
    items.push(Value::try_from_str(alloc, form.name)?)?;
    Ok(())
}

/// The same of each form.
fn push_commands(
    alloc: Global,
    items: &mut Vec<Value>,
    which: &FormsAsked,
    forms: &[ResourceForm],
    found: &[Option<Resource>],
) -> Result<(), AllocError>
    ensures { OnOk result (map view items.new.items ≡ map view items.old.items
        ++ map string (map name_of (shown which.now (map asked forms.now) found.now))) }
{
    let [form, forms_left @ ..] = forms else {
        return Ok(());
    };
    let [first, found_left @ ..] = found else {
        return Ok(());
    };
    push_command(alloc, items, which, form, first)?;
    push_commands(alloc, items, which, forms_left, found_left)
}

/// The names of the forms in a line.
pub fn commands_of(
    alloc: Global,
    which: &FormsAsked,
    found: &[Option<Resource>],
) -> Result<Vec<Value>, AllocError>
    ensures { IfOk result (λ items. map view items.items ≡ map string (names_of which.now found.now)) }
{
    let mut items = Vec::new(alloc);
    push_commands(alloc, &mut items, which, &FORMS, found)?;
    Ok(items)
}

/// Puts a text under a name.
fn put_text(
    alloc: Global,
    object: &mut Map<String, Value>,
    name: &str,
    text: &str,
) -> Result<(), AllocError>
    ensures { OnOk result (members_view object.new.entries
        ≡ put name.now (string text.now) (members_view object.old.entries)) }
{
    let key = String::from_str(alloc, name)?;
    let value = Value::try_from_str(alloc, text)?;
    object.insert(key, value)?;
    Ok(())
}

/// Puts the resource of a form under its name, if the form is in the line and has one.
fn put_example(
    alloc: Global,
    object: &mut Map<String, Value>,
    which: &FormsAsked,
    form: &ResourceForm,
    found: &Option<Resource>,
) -> Result<(), AllocError>
    ensures { OnOk result (members_view object.new.entries ≡ with_examples (members_view object.old.entries)
        (shown which.now (asked form.now ∷ []) (found.now ∷ []))) }
{
    let Some(resource) = found else {
        return Ok(());
    };
    if !takes(which, form) {
        return Ok(());
    }
    put_text(alloc, object, form.name, resource.text())?;
    Ok(())
}

/// The same of each form.
fn put_examples(
    alloc: Global,
    object: &mut Map<String, Value>,
    which: &FormsAsked,
    forms: &[ResourceForm],
    found: &[Option<Resource>],
) -> Result<(), AllocError>
    ensures { OnOk result (members_view object.new.entries ≡ with_examples (members_view object.old.entries)
        (shown which.now (map asked forms.now) found.now)) }
{
    let [form, forms_left @ ..] = forms else {
        return Ok(());
    };
    let [first, found_left @ ..] = found else {
        return Ok(());
    };
    put_example(alloc, object, which, form, first)?;
    put_examples(alloc, object, which, forms_left, found_left)
}

/// A resource of each form in a line.
pub fn examples_of(
    alloc: Global,
    which: &FormsAsked,
    found: &[Option<Resource>],
) -> Result<Value, AllocError>
    ensures { IfOk result (λ value. view value ≡ examples_of which.now found.now) }
{
    let mut object = Map::new(alloc);
    put_examples(alloc, &mut object, which, &FORMS, found)?;
    Ok(Value::Object(object))
}
