//! The bytes of comma-separated text: the place at which each stands, and what ends with it.
ghost use Rattle.std.specs.Prelude.{◌≡◌};
ghost use Rattle.csv.specs.Machine.{in_field, start_field, step};
ghost use Rattle.csv.specs.Reading.{default_config};
ghost use Rattle.opc_import.specs.CsvBytes.{end_of, state_of};

/// The byte order mark, which may stand before the header.
pub const MARK: &[u8] = b"\xEF\xBB\xBF";

/// The place of a byte, by the rules of `csv` with its defaults.
#[derive(Clone, Copy)]
pub enum BytePlace {
    RecordStart,
    AfterReturn,
    FieldStart,
    Plain,
    Quoted,
    AfterQuote,
}

/// What ends with a byte.
#[derive(Clone, Copy)]
pub enum ByteEnd {
    Nothing,
    Field,
    Record,
}

/// What a byte makes of a place.
#[derive(Clone, Copy)]
pub struct ByteStep {
    pub place: BytePlace,
    pub end: ByteEnd,
}

fn to(place: BytePlace, end: ByteEnd) -> ByteStep
    ensures { result ≡ record { place = place; end = end } }
{
    ByteStep { place, end }
}

// A byte of a field outside quotes.
fn plain_step(byte: u8) -> ByteStep
    ensures place { state_of result.place ≡ (in_field default_config byte).0 }
    ensures end { result.end ≡ end_of (in_field default_config byte).1 }
{
    match byte {
        b',' => to(BytePlace::FieldStart, ByteEnd::Field),
        b'\r' => to(BytePlace::AfterReturn, ByteEnd::Record),
        b'\n' => to(BytePlace::RecordStart, ByteEnd::Record),
        // Outside quotes, a double quote is a character like any other.
        _ => to(BytePlace::Plain, ByteEnd::Nothing),
    }
}

// The first byte of a field.
fn first_step(byte: u8) -> ByteStep
    ensures place { state_of result.place ≡ (start_field default_config byte).0 }
    ensures end { result.end ≡ end_of (start_field default_config byte).1 }
{
    match byte {
        b'"' => to(BytePlace::Quoted, ByteEnd::Nothing),
        // Without a quote at its beginning a field is plain.
        _ => plain_step(byte),
    }
}

impl BytePlace {
    /// What a byte at this place makes of it.
    pub fn step(self, byte: u8) -> ByteStep
        ensures place { state_of result.place ≡ (step default_config (state_of self) byte).0 }
        ensures end { result.end ≡ end_of (step default_config (state_of self) byte).1 }
    {
        match (self, byte) {
            (BytePlace::RecordStart | BytePlace::AfterReturn, b'\r' | b'\n') => {
                to(BytePlace::RecordStart, ByteEnd::Nothing)
            }
            (BytePlace::RecordStart | BytePlace::AfterReturn | BytePlace::FieldStart, _) =>
                first_step(byte),
            (BytePlace::Plain, _) => plain_step(byte),
            (BytePlace::Quoted, b'"') => to(BytePlace::AfterQuote, ByteEnd::Nothing),
            (BytePlace::Quoted, _) | (BytePlace::AfterQuote, b'"') => to(
                BytePlace::Quoted,
                ByteEnd::Nothing,
            ),
            (BytePlace::AfterQuote, _) => plain_step(byte),
        }
    }
}
