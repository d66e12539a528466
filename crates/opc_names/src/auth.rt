//! The command authority of consoles.
ghost use Rattle.std.specs.Prelude.{◌≡◌, Some};
ghost use Rattle.std.specs.Str.{IsAscii};
ghost use Rattle.opc_names.specs.Spellings.{lookup, auths, auth_text};
ghost use Rattle.opc_names.specs.Authority.{enters};

use crate::group::Group;
use crate::spellings::spelled_in;
use std::fmt;

/// The command authority of a console: MASTER, ALL, INFO, or some of SYS, IO and CONS.
#[derive(Clone, Copy, Debug, PartialEq, Eq, PartialOrd, Ord, Hash)]
pub enum Auth {
    Master,
    All,
    Info,
    Sys,
    Io,
    Cons,
    SysIo,
    SysCons,
    IoCons,
    SysIoCons,
}

impl Auth {
    /// The authority with this text.
    pub fn read(text: &str) -> Option<Self>
        ensures { result ≡ lookup auths text.now }
    {
        let spellings = [
            ("MASTER", Auth::Master),
            ("ALL", Auth::All),
            ("INFO", Auth::Info),
            ("SYS", Auth::Sys),
            ("IO", Auth::Io),
            ("CONS", Auth::Cons),
            ("SYS,IO", Auth::SysIo),
            ("IO,SYS", Auth::SysIo),
            ("SYS,CONS", Auth::SysCons),
            ("CONS,SYS", Auth::SysCons),
            ("IO,CONS", Auth::IoCons),
            ("CONS,IO", Auth::IoCons),
            ("SYS,IO,CONS", Auth::SysIoCons),
            ("SYS,CONS,IO", Auth::SysIoCons),
            ("IO,SYS,CONS", Auth::SysIoCons),
            ("IO,CONS,SYS", Auth::SysIoCons),
            ("CONS,SYS,IO", Auth::SysIoCons),
            ("CONS,IO,SYS", Auth::SysIoCons),
        ];
        spelled_in(&spellings, text)
    }

    /// Its text, which reads back.
    pub fn text(&self) -> &str
        ensures text { result.now ≡ auth_text self.now }
        ensures reads_back { lookup auths (auth_text self.now) ≡ Some self.now }
        ensures ascii { IsAscii (auth_text self.now) }
    {
        match self {
            Auth::Master => "MASTER",
            Auth::All => "ALL",
            Auth::Info => "INFO",
            Auth::Sys => "SYS",
            Auth::Io => "IO",
            Auth::Cons => "CONS",
            Auth::SysIo => "SYS,IO",
            Auth::SysCons => "SYS,CONS",
            Auth::IoCons => "IO,CONS",
            Auth::SysIoCons => "SYS,IO,CONS",
        }
    }

    /// Whether a console with this authority may enter commands of a group (MVS Planning: Operations).
    pub fn enters(self, group: Group) -> bool
        ensures { result ≡ enters self group }
    {
        match group {
            Group::Info => true,
            Group::Master => self == Auth::Master,
            Group::Sys => !matches!(self, Auth::Info | Auth::Io | Auth::Cons | Auth::IoCons),
            Group::Io => !matches!(self, Auth::Info | Auth::Sys | Auth::Cons | Auth::SysCons),
            Group::Cons => !matches!(self, Auth::Info | Auth::Sys | Auth::Io | Auth::SysIo),
        }
    }
}

impl fmt::Display for Auth {
    ghost use Rattle.std.specs.Prelude.{Some};
    ghost use Rattle.opc_names.specs.Spellings.{auth_text};

    ghost output = { λ auth. Some (auth_text auth) };

    fn fmt<W: fmt::Write>(&self, f: &mut fmt::Formatter<W>) -> fmt::Result {
        f.pad(self.text())
    }
}
