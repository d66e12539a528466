//! The page, part by part.
ghost use Rattle.std.specs.Prelude.{◌≡◌, IfOk, flat_map, string_bytes};
ghost use Rattle.opc_import.specs.declared.kind.Kind.TheVariants as kind;
ghost use Rattle.opc_answers_sheet.specs.Callers.{callers_of};
ghost use Rattle.opc_answers_sheet.specs.Page.{
  account_text,
  beginning,
  changes_text,
  commands_head,
  consoles_head,
  count_of,
  counted,
  counts_line,
  counts_text,
  ending,
  head_text,
  naming_text,
  narrow_style,
  note_item,
  notes_list,
  notes_text,
  opening_text,
  place_text,
  plural,
  print_style,
  rows_in_effect,
  style,
  table_end,
  table_style,
  text_style,
};

use crate::callers::Caller;
use crate::changes::{Right, owners_text, right_text};
use crate::escaped::escaped;
use opc_answers::room::Room;
use opc_check_notes::known::Known;
use opc_check_notes::note::Note;
use opc_check_notes::notes::notes;
use opc_check_notes::text::note_text;
use opc_import::kind::Kind;
use opc_policy_members::row::Row;
use std::alloc::{AllocError, Global};

/// What comes before the title: no script is allowed, and nothing is loaded.
#[tactic(auto, unfolding(crate::specs::Page::beginning))]
fn beginning() -> &'static str
    ensures { result.now ≡ beginning }
{
    "<!doctype html>\n<html lang=\"en\">\n<head>\n<meta charset=\"utf-8\">\n\
    <meta name=\"viewport\" content=\"width=device-width, initial-scale=1\">\n\
    <meta http-equiv=\"Content-Security-Policy\" \
    content=\"default-src 'none'; style-src 'unsafe-inline'\">\n\
    <title>Who may do what: "
}

/// The style of texts.
#[tactic(auto, unfolding(crate::specs::Page::text_style))]
fn text_style() -> &'static str
    ensures { result.now ≡ text_style }
{
    "<style>\n\
    :root{color-scheme:light dark;overflow-wrap:break-word}\n\
    body{max-width:72em;margin:1.5em auto;padding:0 1em;font:1em/1.45 system-ui,sans-serif}\n\
    h1{font-size:1.5em;margin:0 0 .3em}h2{font-size:1.15em;margin:1.7em 0 .5em}\n\
    p,ul{margin:0}ul{padding-left:1.2em}\n\
    code{font-family:ui-monospace,monospace;font-size:.9em;overflow-wrap:anywhere}\n\
    span{white-space:nowrap}.none{opacity:.65}\n"
}

/// The style of tables.
#[tactic(auto, unfolding(crate::specs::Page::table_style))]
fn table_style() -> &'static str
    ensures { result.now ≡ table_style }
{
    "table{width:100%;border-collapse:separate;border-spacing:0}\n\
    th,td{padding:.35em .7em .35em 0;border-bottom:1px solid #8888;text-align:left;vertical-align:top}\n\
    th{position:sticky;top:0;border-bottom:2px solid;background:Canvas;white-space:nowrap}\n\
    th:first-child{width:22%}th:last-child{width:52%}\n"
}

/// On a narrow screen each row is a block.
#[tactic(auto, unfolding(crate::specs::Page::narrow_style))]
fn narrow_style() -> &'static str
    ensures { result.now ≡ narrow_style }
{
    "@media screen and (max-width:40em){thead{display:none}table,tbody,tr,td{display:block}\n\
    tr{padding:.5em 0;border-bottom:1px solid #8888}td{padding:0;border:0}td:first-child{font-weight:600}\n\
    td:nth-child(2):nth-last-child(3)::before{content:'Unattended: '}\n\
    td:nth-last-child(2)::before{content:'Decided by: '}}\n"
}

/// On paper no row is split.
#[tactic(auto, unfolding(crate::specs::Page::print_style))]
fn print_style() -> &'static str
    ensures { result.now ≡ print_style }
{
    "@page{size:A4;margin:12mm}\n\
    @media print{:root{color-scheme:light}h2{break-after:avoid}tr,li{break-inside:avoid}\n\
    body{max-width:none;margin:0;padding:0;font:7.5pt/1.3 system-ui,sans-serif}\n\
    th{position:static}td,th{padding:.15em .7em .15em 0;border-color:#000}.none{opacity:1}}\n\
    </style>\n"
}

#[tactic(auto, unfolding(crate::specs::Page::style))]
fn style(alloc: Global) -> Result<String, AllocError>
    ensures { IfOk result (λ text. string_bytes text ≡ style) }
{
    let (texts, tables) = (text_style(), table_style());
    let (narrow, print) = (narrow_style(), print_style());
    format!(in alloc; "{texts}{tables}{narrow}{print}")
}

/// The head of the table of commands.
#[tactic(auto, unfolding(crate::specs::Page::commands_head))]
pub(crate) fn commands_head() -> &'static str
    ensures { result.now ≡ commands_head }
{
    "<h2>Commands</h2>\n<table>\n<thead><tr><th scope=\"col\">Command</th>\
    <th scope=\"col\">Decided by</th><th scope=\"col\">Who may, and by what</th></tr></thead>\n<tbody>\n"
}

/// The end of a table.
pub(crate) fn table_end() -> &'static str
    ensures { result.now ≡ table_end }
{
    "</tbody>\n</table>\n"
}

/// The head of the table of consoles.
#[tactic(auto, unfolding(crate::specs::Page::consoles_head))]
pub(crate) fn consoles_head() -> &'static str
    ensures { result.now ≡ consoles_head }
{
    "<h2>Consoles</h2>\n<table>\n<thead><tr><th scope=\"col\">Console</th>\
    <th scope=\"col\">Unattended, it allows</th><th scope=\"col\">Decided by</th>\
    <th scope=\"col\">Who may log on, and by what</th></tr></thead>\n<tbody>\n"
}

#[tactic(auto, unfolding(crate::specs::Page::rows_in_effect))]
fn known_of(alloc: Global, rows: &[Row]) -> Result<Known, AllocError>
    ensures { IfOk result (λ known. known ≡ rows_in_effect rows.now) }
{
    Known::of(alloc, rows)
}

/// How many rows of a kind are in effect.
#[tactic(auto, unfolding(crate::specs::Page::count_of))]
fn count_of(known: &Known, rows: &[Row], kind: Kind) -> usize
    requires { known.now ≡ rows_in_effect rows.now }
    ensures { result ≡ count_of rows.now kind }
{
    known.rows().of(kind).len()
}

fn plural(n: usize) -> &'static str
    ensures { result.now ≡ plural n }
{
    if n == 1 { "" } else { "s" }
}

fn counted(alloc: Global, n: usize, word: &str) -> Result<String, AllocError>
    ensures { IfOk result (λ text. string_bytes text ≡ counted n word.now) }
{
    let ending = plural(n);
    format!(in alloc; "{n}{word}{ending}")
}

/// How many rows of each kind are in effect.
#[derive(Clone, Copy)]
struct KindCounts {
    users: usize,
    groups: usize,
    profiles: usize,
    consoles: usize,
}

fn kinds_counted(alloc: Global, rows: &[Row]) -> Result<KindCounts, AllocError>
    ensures { IfOk result (λ counts. (counts.users ≡ count_of rows.now kind.User)
        × (counts.groups ≡ count_of rows.now kind.Group) × (counts.profiles ≡ count_of rows.now kind.Profile)
        × (counts.consoles ≡ count_of rows.now kind.Console)) }
{
    let known = known_of(alloc, rows)?;
    Ok(KindCounts {
        users: count_of(&known, rows, Kind::User),
        groups: count_of(&known, rows, Kind::Group),
        profiles: count_of(&known, rows, Kind::Profile),
        consoles: count_of(&known, rows, Kind::Console),
    })
}

#[tactic(auto, unfolding(crate::specs::Page::counts_line))]
fn counts_line(alloc: Global, counts: KindCounts) -> Result<String, AllocError>
    ensures { IfOk result (λ text. string_bytes text
        ≡ counts_line counts.users counts.groups counts.profiles counts.consoles) }
{
    let users = counted(alloc, counts.users, " user")?;
    let groups = counted(alloc, counts.groups, " group")?;
    let profiles = counted(alloc, counts.profiles, " profile")?;
    let consoles = counted(alloc, counts.consoles, " console")?;
    let (users, groups) = (users.as_str(), groups.as_str());
    let (profiles, consoles) = (profiles.as_str(), consoles.as_str());
    format!(in alloc; "{users}, {groups}, {profiles}, {consoles}")
}

#[tactic(auto, unfolding(crate::specs::Page::counts_text))]
fn counts_text(alloc: Global, rows: &[Row]) -> Result<String, AllocError>
    ensures { IfOk result (λ text. string_bytes text ≡ counts_text rows.now) }
{
    let counts = kinds_counted(alloc, rows)?;
    counts_line(alloc, counts)
}

/// What comes before the body.
#[tactic(auto, unfolding(crate::specs::Page::opening_text))]
fn opening_text(alloc: Global, name: &str) -> Result<String, AllocError>
    ensures { IfOk result (λ text. string_bytes text ≡ opening_text name.now) }
{
    let style = style(alloc)?;
    let (start, style) = (beginning(), style.as_str());
    format!(in alloc; "{start}{name}</title>\n{style}")
}

/// The name of the policy, its counts, and the digest of its bytes.
#[tactic(auto, unfolding(crate::specs::Page::naming_text))]
fn naming_text(alloc: Global, name: &str, digest: &str, counts: &str) -> Result<String, AllocError>
    ensures { IfOk result (λ text. string_bytes text ≡ naming_text name.now digest.now counts.now) }
{
    format!(in alloc;
        "</head>\n<body>\n<h1>Who may do what</h1>\n<p><code>{name}</code>: {counts}</p>\n\
        <p>SHA-256 <code>{digest}</code></p>\n"
    )
}

/// The head of the page.
#[tactic(auto, unfolding(crate::specs::Page::head_text))]
pub fn head_text(
    alloc: Global,
    name: &str,
    digest: &str,
    rows: &[Row],
) -> Result<String, AllocError>
    ensures { IfOk result (λ text. string_bytes text ≡ head_text name.now digest.now rows.now) }
{
    let name = escaped(alloc, name)?;
    let counts = counts_text(alloc, rows)?;
    let opening = opening_text(alloc, name.as_str())?;
    let naming = naming_text(alloc, name.as_str(), digest, counts.as_str())?;
    let (opening, naming) = (opening.as_str(), naming.as_str());
    format!(in alloc; "{opening}{naming}")
}

fn place_text(alloc: Global, row: Option<u64>) -> Result<String, AllocError>
    ensures { IfOk result (λ text. string_bytes text ≡ place_text row) }
{
    match row {
        Some(row) => format!(in alloc; " row {row}: "),
        None => String::from_str(alloc, " "),
    }
}

/// A note as `check` prints it, with the number of its row.
fn note_item(alloc: Global, note: &Note) -> Result<String, AllocError>
    ensures { IfOk result (λ text. string_bytes text ≡ note_item note.now) }
{
    let place = place_text(alloc, note.row)?;
    let line = note_text(alloc, place.as_str(), note)?;
    let line = escaped(alloc, line.as_str())?;
    let line = line.as_str();
    format!(in alloc; "<li>{line}")
}

fn note_items(alloc: Global, list: &[Note]) -> Result<String, AllocError>
    ensures { IfOk result (λ text. string_bytes text ≡ flat_map note_item list.now) }
{
    let mut text = String::new(alloc);
    for note in list {
        text.push_str(note_item(alloc, note)?.as_str())?;
    }
    Ok(text)
}

fn notes_list(alloc: Global, list: &[Note]) -> Result<String, AllocError>
    ensures { IfOk result (λ text. string_bytes text ≡ notes_list list.now) }
{
    if list.is_empty() {
        return String::from_str(alloc, "<p class=\"none\">none</p>\n");
    }
    let items = note_items(alloc, list)?;
    let items = items.as_str();
    format!(in alloc; "<ul>\n{items}</ul>\n")
}

/// The notes of `check` on these rows.
#[tactic(auto, unfolding(crate::specs::Page::notes_text))]
pub fn notes_text(alloc: Global, rows: &[Row]) -> Result<String, AllocError>
    ensures { IfOk result (λ text. string_bytes text ≡ notes_text rows.now) }
{
    let list = notes(alloc, rows)?;
    let list = notes_list(alloc, list.as_slice())?;
    let list = list.as_str();
    format!(in alloc; "<h2>Notes</h2>\n{list}")
}

fn changes_text(alloc: Global, room: &Room, callers: &[Caller<'_>]) -> Result<String, AllocError>
    requires { callers.now ≡ callers_of room.now.policy room.now.board }
    ensures { IfOk result (λ text. string_bytes text ≡ changes_text room.now.policy room.now.board) }
{
    let special = right_text(alloc, Right::Change, callers)?;
    let owners = owners_text(alloc, &room.policy.profiles, callers)?;
    let (special, owners) = (special.as_str(), owners.as_str());
    format!(in alloc; "<h2>Who may change this</h2>\n{special}{owners}")
}

fn account_text(alloc: Global, room: &Room, callers: &[Caller<'_>]) -> Result<String, AllocError>
    requires { callers.now ≡ callers_of room.now.policy room.now.board }
    ensures { IfOk result (λ text. string_bytes text ≡ account_text room.now.policy room.now.board) }
{
    let readers = right_text(alloc, Right::SeeAccount, callers)?;
    let readers = readers.as_str();
    format!(in alloc; "<h2>Who sees the account</h2>\n{readers}")
}

/// Who may change the policy, who sees the account, and the end of the page.
pub fn ending(alloc: Global, room: &Room, callers: &[Caller<'_>]) -> Result<String, AllocError>
    requires { callers.now ≡ callers_of room.now.policy room.now.board }
    ensures { IfOk result (λ text. string_bytes text ≡ ending room.now.policy room.now.board) }
{
    let changes = changes_text(alloc, room, callers)?;
    let account = account_text(alloc, room, callers)?;
    let (changes, account) = (changes.as_str(), account.as_str());
    format!(in alloc; "{changes}{account}</body>\n</html>\n")
}
