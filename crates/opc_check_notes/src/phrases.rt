//! What was found, in words.
ghost use Rattle.std.specs.Prelude.{◌≡◌, ◌++◌, IfOk, codes, string_bytes};
ghost use Rattle.opc_check_notes.specs.declared.note.Finding.TheVariants as found;
ghost use Rattle.opc_check_notes.specs.Texts.{finding_text, opened, without_profile};

use crate::note::Finding;
use opc_names::auth::Auth;
use opc_names::class::Class;
use opc_names::level::Level;
use opc_names::name::{ConsoleName, GroupName, Pattern, UserId};
use opc_terms::entry_id::EntryId;
use std::alloc::{AllocError, Global};

/// What an OPTIONAL console allows without a logon.
fn opened(auth: &Auth) -> &str
    ensures { result.now ≡ opened auth.now }
{
    match auth {
        Auth::Master => "everything",
        Auth::All => "everything but MASTER",
        // The word of another authority says which commands it allows.
        _ => auth.text(),
    }
}

/// What it means if an active class has no profile.
fn without_profile(class: Class) -> &'static str
    ensures { result.now ≡ without_profile class }
{
    match class {
        Class::Console => "every user may log on everywhere",
        Class::Opercmds => "the authority of the console decides",
    }
}

fn warning_text(alloc: Global, class: Class, pattern: &Pattern) -> Result<String, AllocError>
    ensures { IfOk result (λ text. string_bytes text ≡ finding_text (found.Warning class pattern.now)) }
{
    format!(in alloc; "profile {class} {pattern} has WARNING")
}

fn open_to_all_text(
    alloc: Global,
    class: Class,
    pattern: &Pattern,
    uacc: Level,
) -> Result<String, AllocError>
    ensures { IfOk result (λ text. string_bytes text ≡ finding_text (found.OpenToAll class pattern.now uacc)) }
{
    format!(in alloc; "profile {class} {pattern} gives everyone {uacc}")
}

fn no_digest_text(alloc: Global, user: &UserId) -> Result<String, AllocError>
    ensures { IfOk result (λ text. string_bytes text ≡ finding_text (found.NoDigest user.now)) }
{
    format!(in alloc; "{user} has no digest and no AUTO console, so cannot log on")
}

fn same_digest_text(alloc: Global, user: &UserId, other: &UserId) -> Result<String, AllocError>
    ensures { IfOk result (λ text. string_bytes text ≡ finding_text (found.SameDigest user.now other.now)) }
{
    format!(in alloc; "{user} has the password of {other}")
}

fn empty_group_text(alloc: Global, group: &GroupName) -> Result<String, AllocError>
    ensures { IfOk result (λ text. string_bytes text ≡ finding_text (found.EmptyGroup group.now)) }
{
    format!(in alloc; "nobody is in group {group}")
}

fn revoked_entry_text(
    alloc: Global,
    class: Class,
    pattern: &Pattern,
    user: &EntryId,
) -> Result<String, AllocError>
    ensures { IfOk result (λ text. string_bytes text ≡ finding_text (found.RevokedEntry class pattern.now user.now)) }
{
    format!(in alloc; "{user} is revoked and has an entry in profile {class} {pattern}")
}

fn one_special_text(alloc: Global, user: &UserId) -> Result<String, AllocError>
    ensures { IfOk result (λ text. string_bytes text ≡ finding_text (found.OneSpecial user.now)) }
{
    format!(in alloc; "{user} alone has SPECIAL")
}

fn open_console_words(
    alloc: Global,
    console: &ConsoleName,
    opened: &str,
) -> Result<String, AllocError>
    ensures { IfOk result (λ text. string_bytes text
        ≡ codes "console " ++ (console.now ++ (codes " is OPTIONAL: without a logon it allows " ++ opened.now))) }
{
    format!(in alloc; "console {console} is OPTIONAL: without a logon it allows {opened}")
}

fn open_console_text(
    alloc: Global,
    console: &ConsoleName,
    auth: &Auth,
) -> Result<String, AllocError>
    ensures { IfOk result (λ text. string_bytes text ≡ finding_text (found.OpenConsole console.now auth.now)) }
{
    open_console_words(alloc, console, opened(auth))
}

fn no_own_user_text(alloc: Global, console: &ConsoleName) -> Result<String, AllocError>
    ensures { IfOk result (λ text. string_bytes text ≡ finding_text (found.NoOwnUser console.now)) }
{
    format!(in alloc; "console {console} is AUTO, and there is no user {console}")
}

fn inactive_class_text(alloc: Global, class: Class) -> Result<String, AllocError>
    ensures { IfOk result (λ text. string_bytes text ≡ finding_text (found.InactiveClass class)) }
{
    format!(in alloc; "class {class} is inactive")
}

fn no_profile_text(alloc: Global, class: Class) -> Result<String, AllocError>
    ensures { IfOk result (λ text. string_bytes text ≡ finding_text (found.NoProfile class)) }
{
    let so = without_profile(class);
    format!(in alloc; "class {class} is active and has no profile: {so}")
}

fn own_below_group_text(
    alloc: Global,
    pattern: &Pattern,
    user: &EntryId,
    level: Level,
    group: &EntryId,
    higher: Level,
) -> Result<String, AllocError>
    ensures { IfOk result (λ text. string_bytes text
        ≡ finding_text (found.OwnBelowGroup pattern.now user.now level group.now higher)) }
{
    format!(in alloc; "{user}'s {level} in {pattern} is below {higher} of {group}")
}

fn serves_nobody_text(
    alloc: Global,
    pattern: &Pattern,
    group: &EntryId,
    level: Level,
) -> Result<String, AllocError>
    ensures { IfOk result (λ text. string_bytes text ≡ finding_text (found.ServesNobody pattern.now group.now level)) }
{
    format!(in alloc; "{group}'s {level} in {pattern} serves nobody")
}

fn no_resource_text(alloc: Global, pattern: &Pattern) -> Result<String, AllocError>
    ensures { IfOk result (λ text. string_bytes text ≡ finding_text (found.NoResource pattern.now)) }
{
    format!(in alloc; "profile OPERCMDS {pattern} covers no resource of any command")
}

fn special_console_text(alloc: Global, console: &ConsoleName) -> Result<String, AllocError>
    ensures { IfOk result (λ text. string_bytes text ≡ finding_text (found.SpecialConsole console.now)) }
{
    format!(in alloc; "console {console} is AUTO, and {console} has SPECIAL: no password is asked")
}

fn no_access_text(alloc: Global, user: &UserId) -> Result<String, AllocError>
    ensures { IfOk result (λ text. string_bytes text ≡ finding_text (found.NoAccess user.now)) }
{
    format!(in alloc; "{user} is in no group and no access list")
}

fn never_decides_text(alloc: Global, pattern: &Pattern) -> Result<String, AllocError>
    ensures { IfOk result (λ text. string_bytes text ≡ finding_text (found.NeverDecides pattern.now)) }
{
    format!(in alloc; "profile OPERCMDS {pattern} never decides: others come before it")
}

/// What was found, in words.
pub(crate) fn finding_text(alloc: Global, finding: &Finding) -> Result<String, AllocError>
    ensures { IfOk result (λ text. string_bytes text ≡ finding_text finding.now) }
{
    match *finding {
        Finding::Warning { class, pattern } => warning_text(alloc, class, &pattern),
        Finding::OpenToAll {
            class,
            pattern,
            uacc,
        } => open_to_all_text(alloc, class, &pattern, uacc),
        Finding::NoDigest(user) => no_digest_text(alloc, &user),
        Finding::SameDigest { user, other } => same_digest_text(alloc, &user, &other),
        Finding::EmptyGroup(group) => empty_group_text(alloc, &group),
        Finding::RevokedEntry {
            class,
            pattern,
            user,
        } => revoked_entry_text(alloc, class, &pattern, &user),
        Finding::OneSpecial(user) => one_special_text(alloc, &user),
        Finding::NoSpecial => String::from_str(alloc, "nobody has SPECIAL"),
        Finding::NoAuditor => String::from_str(alloc, "nobody has AUDITOR"),
        Finding::NoMaster => String::from_str(alloc, "no console has AUTH MASTER"),
        Finding::OpenConsole { console, auth } => open_console_text(alloc, &console, &auth),
        Finding::NoOwnUser(console) => no_own_user_text(alloc, &console),
        Finding::InactiveClass(class) => inactive_class_text(alloc, class),
        Finding::NoProfile(class) => no_profile_text(alloc, class),
        Finding::OwnBelowGroup {
            pattern,
            user,
            level,
            group,
            higher,
        } => own_below_group_text(alloc, &pattern, &user, level, &group, higher),
        Finding::ServesNobody {
            pattern,
            group,
            level,
        } => serves_nobody_text(alloc, &pattern, &group, level),
        Finding::NoResource(pattern) => no_resource_text(alloc, &pattern),
        Finding::SpecialConsole(console) => special_console_text(alloc, &console),
        Finding::NoAccess(user) => no_access_text(alloc, &user),
        Finding::NeverDecides(pattern) => never_decides_text(alloc, &pattern),
    }
}
