//! The operands that a verb takes, by the forms of its commands.
ghost use Rattle.std.specs.Prelude.{◌≡◌, ◌≤◌, ◌++◌, IfOk, OnOk, length, map, string_bytes};
ghost use Rattle.std.specs.List.{filter_map, prefix_len};
ghost use Rattle.std.specs.Option.{option_map};
ghost use Rattle.std.specs.Str.{IsAscii};
ghost use Rattle.opc_cli_commands.specs.Commands.{AreAscii, form_of, shown_of};
ghost use Rattle.opc_cli_commands.specs.Operands.{
  alternatives,
  is_in_word,
  operands_of,
  operands_text,
  operands_with,
};

use crate::form::CommandForm;
use crate::table::{console_forms, device_forms, display_forms, unit_forms};
use std::alloc::{AllocError, Global};

fn word_len(text: &[u8]) -> usize
    ensures value { result ≡ prefix_len is_in_word text.now }
    ensures within { result ≤ length text.now }
{
    text.iter().take_while(|c| **c != b' ').count()
}

/// What follows the verb in a shown form, if this is its verb.
fn operands_with(verb: &str, shown: &'static str) -> Option<&'static str>
    requires { IsAscii shown.now }
    ensures { option_map (λ operands. operands.now) result ≡ operands_with verb.now shown.entry.now }
{
    let (word, operands) = shown.split_at(word_len(shown.as_bytes()));
    if word == verb { Some(operands) } else { None }
}

/// The operands of a form, with the space before them, if it is of this verb. A form that stands once more, for
/// another kind of unit, has them already.
fn operands_of(verb: &str, form: CommandForm) -> Option<&'static str>
    requires { IsAscii (shown_of form) }
    ensures { option_map (λ operands. operands.now) result ≡ operands_of verb.now (form_of form) }
{
    match form {
        CommandForm::Plain(shown) | CommandForm::Such(shown, _) => operands_with(verb, shown),
        CommandForm::StartedTask(_) | CommandForm::Session(_) => None,
    }
}

/// Adds the operands of those forms that are of a verb.
fn push_operands(
    operands: &mut Vec<&'static str>,
    verb: &str,
    forms: &[CommandForm],
) -> Result<(), AllocError>
    requires { AreAscii forms.now }
    ensures { OnOk result (map (λ text. text.now) operands.new.items
        ≡ map (λ text. text.now) operands.old.items ++ filter_map (operands_of verb.now) (map form_of forms.now)) }
{
    match forms {
        [] => Ok(()),
        [form, rest @ ..] => {
            if let Some(text) = operands_of(verb, *form) {
                operands.push(text)?;
            }
            push_operands(operands, verb, rest)
        }
    }
}

/// Texts, with `or` between them.
fn alternatives(alloc: Global, texts: &[&str]) -> Result<String, AllocError>
    ensures { IfOk result (λ text. string_bytes text ≡ alternatives (map (λ text. text.now) texts.now)) }
{
    match texts {
        [] => Ok(String::new(alloc)),
        [text] => String::from_str(alloc, text),
        [text, rest @ ..] => {
            let more = alternatives(alloc, rest)?;
            format!(in alloc; "{text} or{more}")
        }
    }
}

/// The operands that a verb takes, as its forms have them.
pub(crate) fn operands_text(alloc: Global, verb: &str) -> Result<String, AllocError>
    ensures { IfOk result (λ text. string_bytes text ≡ operands_text verb.now) }
{
    let mut operands = Vec::new(alloc);
    push_operands(&mut operands, verb, &display_forms())?;
    push_operands(&mut operands, verb, &unit_forms())?;
    push_operands(&mut operands, verb, &device_forms())?;
    push_operands(&mut operands, verb, &console_forms())?;
    alternatives(alloc, &operands)
}
