//! What a log shows of an operation.
ghost use Rattle.std.specs.Prelude.{◌≡◌, IfOk, codes, string_bytes};
ghost use Rattle.opc_board.specs.Texts.{text_or};
ghost use Rattle.opc_machine.specs.declared.operation.Operation.TheVariants as operation;
ghost use Rattle.opc_http_log.specs.Words.{
  added_user_words,
  altered_user_words,
  attributes_words,
  membership_words,
  operation_words,
  profile_words,
};

use opc_machine::operation::Operation;
use opc_names::auth::Auth;
use opc_names::class::Class;
use opc_names::level::Level;
use opc_names::name::{ConsoleName, GroupName, Pattern, UserId};
use opc_terms::entry_id::EntryId;
use opc_terms::mode::Mode;
use std::alloc::{AllocError, Global};

fn console_text(console: &Option<ConsoleName>) -> &str
    ensures { result.now ≡ text_or (codes "-") console.now }
{
    match console {
        Some(name) => name.text(),
        None => "-",
    }
}

fn added_user(
    alloc: Global,
    id: UserId,
    special: bool,
    auditor: bool,
    restricted: bool,
) -> Result<String, AllocError>
    ensures { IfOk result (λ words. string_bytes words
        ≡ added_user_words id special auditor restricted) }
{
    format!(in alloc; "AddUser id={id} special={special} auditor={auditor} restricted={restricted}")
}

fn altered_user(
    alloc: Global,
    id: UserId,
    special: bool,
    auditor: bool,
    revoked: bool,
    restricted: bool,
) -> Result<String, AllocError>
    ensures { IfOk result (λ words. string_bytes words
        ≡ altered_user_words id special auditor revoked restricted) }
{
    format!(in alloc;
        "AltUser id={id} special={special} auditor={auditor} revoked={revoked} restricted={restricted}"
    )
}

fn membership(
    alloc: Global,
    name: &str,
    user: UserId,
    group: GroupName,
) -> Result<String, AllocError>
    ensures { IfOk result (λ words. string_bytes words ≡ membership_words name.now user group) }
{
    format!(in alloc; "{name} user={user} group={group}")
}

fn profile(alloc: Global, name: &str, class: Class, pattern: Pattern) -> Result<String, AllocError>
    ensures { IfOk result (λ words. string_bytes words ≡ profile_words name.now class pattern) }
{
    format!(in alloc; "{name} class={class} pattern={pattern}")
}

/// A profile with its attributes.
fn attributes(
    alloc: Global,
    profile: &str,
    owner: UserId,
    uacc: Level,
    warning: bool,
) -> Result<String, AllocError>
    ensures { IfOk result (λ words. string_bytes words ≡ attributes_words profile.now owner uacc warning) }
{
    format!(in alloc; "{profile} owner={owner} uacc={uacc} warning={warning}")
}

fn entry(
    alloc: Global,
    class: Class,
    pattern: Pattern,
    id: EntryId,
    level: Level,
    when: &Option<ConsoleName>,
) -> Result<String, AllocError>
    ensures { IfOk result (λ words. string_bytes words
        ≡ operation_words (operation.Permit class pattern id level when.now)) }
{
    let profile = profile(alloc, "Permit", class, pattern)?;
    let (profile, when) = (profile.as_str(), console_text(when));
    format!(in alloc; "{profile} id={id} level={level} when={when}")
}

fn removed_entry(
    alloc: Global,
    class: Class,
    pattern: Pattern,
    id: EntryId,
    when: &Option<ConsoleName>,
) -> Result<String, AllocError>
    ensures { IfOk result (λ words. string_bytes words
        ≡ operation_words (operation.PermitDelete class pattern id when.now)) }
{
    let profile = profile(alloc, "PermitDelete", class, pattern)?;
    let (profile, when) = (profile.as_str(), console_text(when));
    format!(in alloc; "{profile} id={id} when={when}")
}

fn console(alloc: Global, name: ConsoleName, auth: Auth, mode: Mode) -> Result<String, AllocError>
    ensures { IfOk result (λ words. string_bytes words
        ≡ operation_words (operation.DefineConsole name auth mode)) }
{
    format!(in alloc; "DefineConsole name={name} auth={auth} mode={mode}")
}

/// An operation by its name, with the values of its keys, but never a digest.
pub(crate) fn operation_words(alloc: Global, op: &Operation) -> Result<String, AllocError>
    ensures { IfOk result (λ words. string_bytes words ≡ operation_words op.now) }
{
    match op {
        Operation::AddUser {
            id,
            special,
            auditor,
            restricted,
            ..
        } => added_user(alloc, *id, *special, *auditor, *restricted),
        Operation::AltUser {
            id,
            special,
            auditor,
            revoked,
            restricted,
            ..
        } => altered_user(alloc, *id, *special, *auditor, *revoked, *restricted),
        Operation::DelUser { id } => format!(in alloc; "DelUser id={id}"),
        Operation::AddGroup { name } => format!(in alloc; "AddGroup name={name}"),
        Operation::Connect { user, group } => membership(alloc, "Connect", *user, *group),
        Operation::Remove { user, group } => membership(alloc, "Remove", *user, *group),
        Operation::RDefine {
            class,
            pattern,
            owner,
            uacc,
            warning,
        } => {
            let profile = profile(alloc, "RDefine", *class, *pattern)?;
            attributes(alloc, profile.as_str(), *owner, *uacc, *warning)
        }
        Operation::RAlter {
            class,
            pattern,
            owner,
            uacc,
            warning,
        } => {
            let profile = profile(alloc, "RAlter", *class, *pattern)?;
            attributes(alloc, profile.as_str(), *owner, *uacc, *warning)
        }
        Operation::RDelete { class, pattern } => profile(alloc, "RDelete", *class, *pattern),
        Operation::Permit {
            class,
            pattern,
            id,
            level,
            when,
        } => entry(alloc, *class, *pattern, *id, *level, when),
        Operation::PermitDelete {
            class,
            pattern,
            id,
            when,
        } => removed_entry(alloc, *class, *pattern, *id, when),
        Operation::ClassActive { class, active } => {
            format!(in alloc; "ClassActive class={class} active={active}")
        }
        Operation::DefineConsole { name, auth, mode } => console(alloc, *name, *auth, *mode),
    }
}
