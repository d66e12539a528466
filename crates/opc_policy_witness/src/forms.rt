//! Forms of resources.
ghost use Rattle.std.specs.Prelude.{◌≡◌, ◌≤◌, ◌++◌, IfOk, OnOk};
ghost use Rattle.opc_policy_witness.specs.Forms.{behind_words, first_words, least_width, most_size, most_width, piece_of};

use crate::pieces::FormPiece;
use crate::places::NamePlace;
use std::alloc::AllocError;

/// The most characters of a name.
const LONGEST: usize = 8;

/// A qualifier of a resource, as it stands in a form: a fixed word, or any name of a unit (or of a user, by the same
/// rule) or of a console.
#[derive(Clone, Copy)]
pub enum FormQualifier {
    Word(&'static str),
    AnyUnit,
    AnyConsole,
}

impl FormQualifier {
    /// How many characters a name in this place has at least, of a word none.
    pub(crate) fn least_width(&self) -> usize
        ensures { result ≡ least_width self.now }
    {
        match self {
            FormQualifier::Word(_) => 0,
            FormQualifier::AnyUnit => 1,
            FormQualifier::AnyConsole => 2,
        }
    }

    /// How many it has at most.
    pub(crate) fn most_width(&self) -> usize
        ensures { result ≡ most_width self.now }
    {
        match self {
            FormQualifier::Word(_) => 0,
            FormQualifier::AnyUnit | FormQualifier::AnyConsole => LONGEST,
        }
    }

    /// The qualifier with a name of so many characters.
    pub(crate) fn piece(&self, width: usize) -> FormPiece
        ensures { result ≡ piece_of self.now width }
    {
        match *self {
            FormQualifier::Word(word) => FormPiece::Word(word),
            FormQualifier::AnyUnit => FormPiece::Name(NamePlace::Character, width),
            FormQualifier::AnyConsole => FormPiece::Name(NamePlace::NoDigit, width),
        }
    }
}

/// How many characters all names of a form have at most.
pub(crate) fn most_size(form: &[FormQualifier]) -> usize
    requires { most_size form.now ≤ 40 }
    ensures { result ≡ most_size form.now }
{
    match form {
        [] => 0,
        [qualifier, rest @ ..] => qualifier.most_width() + most_size(rest),
    }
}

/// Adds the words with which a form begins. Returns what follows them.
pub(crate) fn push_words<'a>(
    words: &mut Vec<FormPiece>,
    form: &'a [FormQualifier],
) -> Result<&'a [FormQualifier], AllocError>
    ensures words { OnOk result (words.new.items ≡ words.old.items ++ first_words form.now) }
    ensures rest { IfOk result (λ rest. rest.now ≡ behind_words form.now) }
{
    let [qualifier, rest @ ..] = form else {
        return Ok(form);
    };
    let FormQualifier::Word(word) = *qualifier else {
        return Ok(form);
    };
    words.push(FormPiece::Word(word))?;
    push_words(words, rest)
}
