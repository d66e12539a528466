//! The words of a line that are shown: its verb, and the first of its operands.
ghost use Rattle.std.specs.Prelude.{◌≡◌, ◌≤◌, length};
ghost use Rattle.std.specs.List.{prefix_len};
ghost use Rattle.opc_reader.specs.Lines.{is_space, skip_spaces};
ghost use Rattle.opc_cli_commands.specs.ShownWords.{
  first_operand,
  is_in_operand,
  is_in_verb,
  operands_in,
  past_operand,
  verb_in,
};

use opc_reader_commands::piece::Piece;

fn spaces_before(text: &[u8]) -> usize
    ensures value { result ≡ prefix_len is_space text.now }
    ensures within { result ≤ length text.now }
{
    text.iter().take_while(|c| **c == b' ').count()
}

fn verb_len(text: &[u8]) -> usize
    ensures value { result ≡ prefix_len is_in_verb text.now }
    ensures within { result ≤ length text.now }
{
    text.iter()
        .take_while(|c| c.is_ascii_alphanumeric() || matches!(**c, b'#' | b'$' | b'@' | b'*'))
        .count()
}

fn operand_len(text: &[u8]) -> usize
    ensures value { result ≡ prefix_len is_in_operand text.now }
    ensures within { result ≤ length text.now }
{
    text.iter()
        .take_while(|c| !(**c == b' ' || **c == b','))
        .count()
}

fn skip_spaces<'a>(s: &Piece<'a>) -> Piece<'a>
    ensures { result ≡ skip_spaces s.now }
{
    s.split(spaces_before(s.text().as_bytes())).1
}

/// The verb of a line, to the first character that no verb has, and what follows it.
pub(crate) fn split_verb<'a>(line: &Piece<'a>) -> (Piece<'a>, Piece<'a>)
    ensures verb { result.0 ≡ verb_in line.now }
    ensures operands { result.1 ≡ operands_in line.now }
{
    let body = skip_spaces(line);
    let (verb, rest) = body.split(verb_len(body.text().as_bytes()));
    (verb, skip_spaces(&rest))
}

/// The first of operands, to a space or a comma, and what follows it.
pub(crate) fn split_operand<'a>(operands: &Piece<'a>) -> (Piece<'a>, Piece<'a>)
    ensures first { result.0 ≡ first_operand operands.now }
    ensures rest { result.1 ≡ past_operand operands.now }
{
    operands.split(operand_len(operands.text().as_bytes()))
}
