//! Rows as text. Digests are not shown.
ghost use Rattle.std.specs.Prelude.{◌≡◌, ℕ, List, IfOk, string_bytes};
ghost use Rattle.opc_names.specs.Spellings.{auth_text};
ghost use Rattle.opc_import.specs.Lines.{written_field};
ghost use Rattle.opc_import.specs.Rows.{activity_text, letter, when_text};
ghost use Rattle.opc_policy_members.specs.declared.row.Row.TheVariants as rows;
ghost use Rattle.opc_answers_diff.specs.RowTexts.{row_text, user_text};

use opc_names::auth::Auth;
use opc_names::class::Class;
use opc_names::level::Level;
use opc_names::name::{ConsoleName, GroupName, Pattern, UserId};
use opc_policy_members::row::Row;
use opc_policy_members::user::User;
use opc_terms::entry_id::EntryId;
use opc_terms::mode::Mode;
use std::alloc::{AllocError, Global};

fn activity_text(active: bool) -> &'static str
    ensures { result.now ≡ activity_text active }
{
    if active { "ACTIVE" } else { "INACTIVE" }
}

/// A letter, if its flag is set.
fn letter(text: &'static str, flag: bool) -> &'static str
    ensures { result.now ≡ letter text.now flag }
{
    if flag { text } else { "" }
}

/// An authority, in double quotes if it has a comma.
fn auth_field(auth: &Auth) -> &str
    ensures { result.now ≡ written_field (auth_text auth.now) }
{
    match auth {
        Auth::SysIo => "\"SYS,IO\"",
        Auth::SysCons => "\"SYS,CONS\"",
        Auth::IoCons => "\"IO,CONS\"",
        Auth::SysIoCons => "\"SYS,IO,CONS\"",
        Auth::Master | Auth::All | Auth::Info | Auth::Sys | Auth::Io | Auth::Cons => auth.text(),
    }
}

fn when_text(when: &Option<ConsoleName>) -> &str
    ensures { result.now ≡ when_text when.now }
{
    match when {
        Some(console) => console.text(),
        None => "",
    }
}

fn class_row(alloc: Global, class: Class, active: bool) -> Result<String, AllocError>
    ensures { (digest : List ℕ) → IfOk result (λ text. string_bytes text ≡ row_text digest (rows.Class class active)) }
{
    let active = activity_text(active);
    format!(in alloc; "class,{class},,,{active},,,,,")
}

fn group_row(alloc: Global, name: &GroupName) -> Result<String, AllocError>
    ensures { (digest : List ℕ) → IfOk result (λ text. string_bytes text ≡ row_text digest (rows.Group name.now)) }
{
    format!(in alloc; "group,,{name},,,,,,,")
}

fn user_row(alloc: Global, user: &User, digest: &str) -> Result<String, AllocError>
    ensures { IfOk result (λ text. string_bytes text ≡ user_text digest.now user.now) }
{
    let (id, special) = (user.id, letter("S", user.special));
    let (auditor, revoked) = (letter("A", user.auditor), letter("R", user.revoked));
    let restricted = letter("Y", user.restricted);
    format!(in alloc; "user,,{id},,,,{special}{auditor}{revoked},{digest},,{restricted}")
}

fn connect_row(alloc: Global, user: &UserId, group: &GroupName) -> Result<String, AllocError>
    ensures { (digest : List ℕ) → IfOk result (λ text. string_bytes text
        ≡ row_text digest (rows.Connect user.now group.now)) }
{
    format!(in alloc; "connect,,{user},{group},,,,,,")
}

fn console_row(
    alloc: Global,
    name: &ConsoleName,
    auth: &Auth,
    mode: &Mode,
) -> Result<String, AllocError>
    ensures { (digest : List ℕ) → IfOk result (λ text. string_bytes text
        ≡ row_text digest (rows.Console name.now auth.now mode.now)) }
{
    let (auth, mode) = (auth_field(auth), mode.text());
    format!(in alloc; "console,,{name},,{auth},,{mode},,,")
}

fn profile_row(
    alloc: Global,
    class: Class,
    pattern: &Pattern,
    uacc: Level,
    owner: &UserId,
    warning: bool,
) -> Result<String, AllocError>
    ensures { (digest : List ℕ) → IfOk result (λ text. string_bytes text
        ≡ row_text digest (rows.Profile class pattern.now uacc owner.now warning)) }
{
    let flags = letter("W", warning);
    format!(in alloc; "profile,{class},{pattern},,{uacc},{owner},{flags},,,")
}

fn permit_row(
    alloc: Global,
    class: Class,
    pattern: &Pattern,
    id: &EntryId,
    level: Level,
    when: &Option<ConsoleName>,
) -> Result<String, AllocError>
    ensures { (digest : List ℕ) → IfOk result (λ text. string_bytes text
        ≡ row_text digest (rows.Permit class pattern.now id.now level when.now)) }
{
    let (id, when) = (id.text(), when_text(when));
    format!(in alloc; "permit,{class},{pattern},{id},{level},,,,{when},")
}

/// A row as a policy file has it, but for the digest.
pub(crate) fn row_text(alloc: Global, row: &Row, digest: &str) -> Result<String, AllocError>
    ensures { IfOk result (λ text. string_bytes text ≡ row_text digest.now row.now) }
{
    match row {
        Row::Class { class, active } => class_row(alloc, *class, *active),
        Row::Group { name } => group_row(alloc, name),
        Row::User(user) => user_row(alloc, user, digest),
        Row::Connect { user, group } => connect_row(alloc, user, group),
        Row::Console { name, auth, mode } => console_row(alloc, name, auth, mode),
        Row::Profile {
            class,
            pattern,
            uacc,
            owner,
            warning,
        } => profile_row(alloc, *class, pattern, *uacc, owner, *warning),
        Row::Permit {
            class,
            pattern,
            id,
            level,
            when,
        } => permit_row(alloc, *class, pattern, id, *level, when),
    }
}
