//! Policies that are given as bytes.
use opc_cli_questions::openings::Openings;
use std::io;

/// The policy that is asked about, which is the old one of `diff`; and the new one.
#[derive(Clone, Copy)]
pub struct PolicyTexts<'a> {
    pub policy: &'a [u8],
    pub new: &'a [u8],
}

/// The one policy file that there is, at whatever path.
#[derive(Clone, Copy)]
pub(crate) struct GivenFile<'a> {
    pub(crate) bytes: &'a [u8],
}

impl<'a> Openings for GivenFile<'a> {
    ghost use Rattle.std.specs.Prelude.{Some};

    type File = &'a [u8];

    ghost holds = { λ given _. Some given.bytes.now };

    fn open_to_read(&self, _path: &str) -> io::Result<&'a [u8]> {
        Ok(self.bytes)
    }
}
