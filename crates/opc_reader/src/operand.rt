//! Operands: names, numbers, authorities and texts, read off a piece of a line.
ghost use Rattle.std.specs.Prelude.{◌≡◌, ◌≤◌, length};
ghost use Rattle.std.specs.List.{prefix_len};
ghost use Rattle.std.specs.Char.{is_ascii_digit};
ghost use Rattle.opc_names.specs.Spellings.{lookup};
ghost use Rattle.opc_reader.specs.Authorities.{authorities};
ghost use Rattle.opc_reader.specs.Operands.{in_name, number};
ghost use Rattle.opc_reader.specs.Reading.{
  name,
  last_name,
  number_prefix,
  authority,
  quoted_text,
  quoted_prefix,
  any_text,
};

use opc_names::auth::Auth;
use opc_names::name::{Name, NameKind};
use opc_names::reply_id::ReplyId;
use opc_names::spellings::spelled_in;
use opc_reader_commands::command::{Operand, Text};
use opc_reader_commands::piece::Piece;
use opc_reader_commands::quote::{is_quoted, opens_quote, quoted_len};

fn in_name(byte: u8) -> bool
    ensures { result ≡ in_name byte }
{
    matches!(byte.to_ascii_uppercase(), b'A'..=b'Z' | b'0'..=b'9' | b'#' | b'$' | b'@')
}

fn name_len(text: &[u8]) -> usize
    ensures value { result ≡ prefix_len in_name text.now }
    ensures within { result ≤ length text.now }
{
    text.iter().take_while(|c| in_name(**c)).count()
}

/// A name, and what stands after it.
#[tactic(auto, unfolding(crate::specs::Reading::name))]
pub(crate) fn name<'a, K: NameKind<8>>(
    s: &Piece<'a>,
) -> Option<(Operand<'a, Name<K, 8>>, Piece<'a>)>
    ensures { result ≡ name K.rule s.now }
{
    let (typed, rest) = s.split(name_len(s.text().as_bytes()));
    match Name::read(typed.folded().as_str()) {
        Ok(value) => Some((Operand { value, typed }, rest)),
        Err(_) => None,
    }
}

/// A name that is all of the piece.
#[tactic(auto, unfolding(crate::specs::Reading::last_name))]
pub(crate) fn last_name<'a, K: NameKind<8>>(s: &Piece<'a>) -> Option<Operand<'a, Name<K, 8>>>
    ensures { result ≡ last_name K.rule s.now }
{
    let (name, rest) = name(s)?;
    if rest.text().is_empty() {
        Some(name)
    } else {
        None
    }
}

fn digits_len(text: &[u8]) -> usize
    ensures value { result ≡ prefix_len is_ascii_digit text.now }
    ensures within { result ≤ length text.now }
{
    text.iter().take_while(|c| c.is_ascii_digit()).count()
}

fn number(text: &[u8]) -> Option<ReplyId>
    ensures { result ≡ number text.now }
{
    match text {
        [a] if a.is_ascii_digit() => ReplyId::new(*a - b'0'),
        [a, b] if a.is_ascii_digit() && b.is_ascii_digit() => {
            ReplyId::new(10 * (*a - b'0') + (*b - b'0'))
        }
        // A reply's number has one or two digits.
        _ => None,
    }
}

/// A number of one or two digits, and what stands after it.
#[tactic(auto, unfolding(crate::specs::Reading::number_prefix))]
pub(crate) fn number_prefix<'a>(s: &Piece<'a>) -> Option<(Operand<'a, ReplyId>, Piece<'a>)>
    ensures { result ≡ number_prefix s.now }
{
    let (typed, rest) = s.split(digits_len(s.text().as_bytes()));
    let value = number(typed.text().as_bytes())?;
    Some((Operand { value, typed }, rest))
}

fn authority_of(text: &str) -> Option<Auth>
    ensures { result ≡ lookup authorities text.now }
{
    let spellings = [
        ("MASTER", Auth::Master),
        ("ALL", Auth::All),
        ("INFO", Auth::Info),
        ("SYS", Auth::Sys),
        ("(SYS)", Auth::Sys),
        ("IO", Auth::Io),
        ("(IO)", Auth::Io),
        ("CONS", Auth::Cons),
        ("(CONS)", Auth::Cons),
        ("(SYS,IO)", Auth::SysIo),
        ("(IO,SYS)", Auth::SysIo),
        ("(SYS,CONS)", Auth::SysCons),
        ("(CONS,SYS)", Auth::SysCons),
        ("(IO,CONS)", Auth::IoCons),
        ("(CONS,IO)", Auth::IoCons),
        ("(SYS,IO,CONS)", Auth::SysIoCons),
        ("(SYS,CONS,IO)", Auth::SysIoCons),
        ("(IO,SYS,CONS)", Auth::SysIoCons),
        ("(IO,CONS,SYS)", Auth::SysIoCons),
        ("(CONS,SYS,IO)", Auth::SysIoCons),
        ("(CONS,IO,SYS)", Auth::SysIoCons),
    ];
    spelled_in(&spellings, text)
}

/// An authority that is all of the piece.
#[tactic(auto, unfolding(crate::specs::Reading::authority))]
pub(crate) fn authority<'a>(s: Piece<'a>) -> Option<Operand<'a, Auth>>
    ensures { result ≡ authority s.entry }
{
    let value = authority_of(s.folded().as_str())?;
    Some(Operand { value, typed: s })
}

/// Quoted text that is all of the piece.
#[tactic(auto, unfolding(crate::specs::Reading::quoted_text))]
pub(crate) fn quoted_text<'a>(s: Piece<'a>) -> Option<Text<'a>>
    ensures { result ≡ quoted_text s.entry }
{
    if is_quoted(s.text().as_bytes()) {
        Some(Text { typed: s })
    } else {
        None
    }
}

/// Quoted text, and what stands after it.
#[tactic(auto, unfolding(crate::specs::Reading::quoted_prefix))]
pub(crate) fn quoted_prefix<'a>(s: &Piece<'a>) -> Option<(Text<'a>, Piece<'a>)>
    ensures { result ≡ quoted_prefix s.now }
{
    let (typed, rest) = s.split(quoted_len(s.text().as_bytes())?);
    Some((Text { typed }, rest))
}

/// A text that is all of the piece: quoted if it begins with an apostrophe, otherwise plain and not empty.
#[tactic(auto, unfolding(crate::specs::Reading::any_text))]
pub(crate) fn any_text<'a>(s: Piece<'a>) -> Option<Text<'a>>
    ensures { result ≡ any_text s.entry }
{
    if opens_quote(s.text().as_bytes()) {
        quoted_text(s)
    } else if s.text().is_empty() {
        None
    } else {
        Some(Text { typed: s })
    }
}
