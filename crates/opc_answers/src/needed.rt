//! What a command needs, and what its unit is taken for.
ghost use Rattle.std.specs.Prelude.{◌≡◌, ◌≤◌, Some, length, not};
ghost use Rattle.std.specs.List.{prefix_len};
ghost use Rattle.opc_board.specs.declared.line.Item.TheVariants.{Unit as AboutUnit};
ghost use Rattle.opc_machine.specs.Rulings.{need_to_show};
ghost use Rattle.opc_reader.specs.Lines.{is_space};
ghost use Rattle.opc_reader.specs.Reading.{reading};
ghost use Rattle.opc_answers.specs.Needed.{
  first_word,
  has_verb,
  is_logon,
  line_in,
  line_named,
  need_in,
  unit_in,
  unit_named,
  word_at,
};

use opc_machine::fault::of_line;
use opc_names::group::Group;
use opc_names::level::Level;
use opc_names::name::{Resource, UnitName};
use opc_reader::line::{ReadFault, read_command};
use opc_reader_commands::command::Command;
use opc_table::need;
use opc_terms::fault::Fault;
use opc_terms::need::Need;
use opc_terms::unit_kind::UnitKindAt;

/// What a text needs as a command, if the unit that it names is of this kind. LOGOFF needs nothing, and a LOGON none of
/// these. A text that is no command has the fault with which the gate refuses it. It takes no memory.
pub fn need_in(text: &str, kind: UnitKindAt) -> Result<Option<Need>, Fault>
    ensures { result ≡ need_in text.now kind }
{
    match read_command(text) {
        Ok(command) => Ok(need(&command, kind)),
        Err(fault) => Err(of_line(fault)),
    }
}

fn word_len(text: &[u8]) -> usize
    ensures value { result ≡ prefix_len (λ c. not (is_space c)) text.now }
    ensures within { result ≤ length text.now }
{
    text.iter().take_while(|c| **c != b' ').count()
}

fn spaces_before(text: &[u8]) -> usize
    ensures value { result ≡ prefix_len is_space text.now }
    ensures within { result ≤ length text.now }
{
    text.iter().take_while(|c| **c == b' ').count()
}

fn word_at(text: &[u8]) -> &[u8]
    ensures { result.now ≡ word_at text.now }
{
    &text[..word_len(text)]
}

/// The first word of a text, after spaces or none.
fn first_word(text: &[u8]) -> &[u8]
    ensures { result.now ≡ first_word text.now }
{
    word_at(&text[spaces_before(text)..])
}

/// Whether a text is a command, or would be one but for its operands.
fn has_verb(text: &str) -> bool
    ensures { result ≡ has_verb (reading text.now) }
{
    matches!(read_command(text), Ok(_) | Err(ReadFault::BadOperand(_)))
}

/// Whether a text asks for a LOGON. Its operands do not count, and may be missing: nobody has to type a password for a
/// question.
pub fn is_logon(text: &str) -> bool
    ensures { result ≡ is_logon text.now }
{
    has_verb(text) && first_word(text.as_bytes()).eq_ignore_ascii_case(b"LOGON")
}

/// The unit that a command names, if what the command needs depends on its kind.
fn unit_named(command: &Command<'_>, kind: &UnitKindAt) -> Option<UnitKindAt>
    ensures { result ≡ unit_named command.now kind.now }
{
    match command {
        Command::Cancel(_) | Command::Force(_) | Command::Stop(_) | Command::Modify(..) => {
            Some(*kind)
        }
        // What the other commands need does not depend on a unit.
        _ => None,
    }
}

/// The same for a text, if it is a command.
pub(crate) fn unit_in(text: &str, kind: &UnitKindAt) -> Option<UnitKindAt>
    ensures { result ≡ unit_in text.now kind.now }
{
    match read_command(text) {
        Ok(command) => unit_named(&command, kind),
        Err(_) => None,
    }
}

/// What the line of a unit needs.
fn to_show(name: &UnitName) -> Need
    ensures { Some result ≡ need_to_show (AboutUnit name.now) }
{
    Need {
        resource: Resource::of_words("MVS.DISPLAY.JOB").with(name),
        level: Level::Read,
        group: Group::Info,
    }
}

/// What the line needs that a command asks for: D A,name asks for the line of one unit.
fn line_named(command: &Command<'_>) -> Option<Need>
    ensures { result ≡ line_named command.now }
{
    match command {
        Command::DisplayUnit(name) => Some(to_show(&name.value)),
        // The other commands ask for no line, or for many.
        _ => None,
    }
}

/// The same for a text, if it is a command.
pub(crate) fn line_in(text: &str) -> Option<Need>
    ensures { result ≡ line_in text.now }
{
    match read_command(text) {
        Ok(command) => line_named(&command),
        Err(_) => None,
    }
}
