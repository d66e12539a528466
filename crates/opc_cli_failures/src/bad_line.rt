//! What is wrong with a line that a run reads, in words.
use crate::shown::TextStart;
use std::fmt;
use std::fmt::{Display, Formatter};

/// A line that is no request: its number, counted from 1, what is wrong with it first, and how lines are written.
#[derive(Clone, Copy)]
pub struct BadLine {
    number: u64,
    slip: Slip,
    form: LineForm,
    shown: TextStart,
}

/// What is wrong with a line first.
#[derive(Clone, Copy, Debug, PartialEq, Eq)]
pub enum Slip {
    /// It does not begin with digits and a space.
    NoMoment,
    /// It begins with more than 13 digits.
    LongMoment,
    /// Nothing stands where the console or `*` must be.
    NoConsole,
    /// What stands there is neither a console's name nor `*`.
    Console,
    /// Nothing follows the console, not even a space.
    NoText,
    /// What follows `*` is no event.
    Event,
}

/// How the lines are written.
#[derive(Clone, Copy, Debug, PartialEq, Eq)]
pub enum LineForm {
    /// The lines of a script: each has a timestamp.
    Script,
    /// Lines that are answered as they come.
    Now,
}

impl BadLine {
    /// A bad line, of which this start is shown; it may be all of it. What is shown is a note, which no clause states;
    /// the tables of `tools/program` have the words.
    pub fn of(number: u64, start: &str, is_whole: bool, slip: Slip, form: LineForm) -> Self {
        BadLine {
            number,
            slip,
            form,
            shown: TextStart::of_start(start, is_whole),
        }
    }
}

impl BadLine {
    /// Whether a day or a time stands where MOMENT has to be; a space may separate them.
    fn has_time(&self) -> bool {
        match self.slip {
            Slip::NoMoment | Slip::LongMoment => self.shown.begins_as_day(),
            Slip::Console => self.shown.is_of_numbers(),
            Slip::NoConsole | Slip::NoText | Slip::Event => false,
        }
    }

    /// What helps besides the form: which events there are, or what MOMENT is.
    fn help(&self) -> &'static str {
        if self.slip == Slip::Event {
            "; events: JOBIN, JOBEND, ATTACH, ALLOCATE, FREE, ASK, RESUME"
        } else if self.form == LineForm::Script && self.has_time() {
            "; TIME is in seconds since 1970"
        } else {
            ""
        }
    }
}

impl Slip {
    fn words(self) -> &'static str {
        match self {
            Slip::NoMoment => "no time",
            Slip::LongMoment => "the time has more than 13 digits",
            Slip::NoConsole => "no console",
            Slip::Console => "the console's name is invalid",
            Slip::NoText => "no command",
            Slip::Event => "the event is invalid",
        }
    }
}

impl LineForm {
    /// The form of a line of an event, or of any other.
    fn words(self, is_event: bool) -> &'static str {
        match (self, is_event) {
            (LineForm::Script, false) => "a line is TIME CONSOLE COMMAND",
            (LineForm::Script, true) => "a line of an event is TIME * EVENT",
            (LineForm::Now, false) => "a line is CONSOLE COMMAND",
            (LineForm::Now, true) => "a line of an event is * EVENT",
        }
    }
}

impl Display for BadLine {
    fn fmt<W: fmt::Write>(&self, f: &mut Formatter<W>) -> fmt::Result {
        let BadLine {
            number,
            slip,
            form,
            shown,
        } = self;
        let form = form.words(*slip == Slip::Event);
        write!(f, "line {number}: {}: {shown} ({form}", slip.words())?;
        f.write_str(self.help())?;
        f.write_str(")")
    }
}
