//! What is wrong with the options of a command.
ghost use Rattle.std.specs.Prelude.{◌≡◌, OnOk, if◌then◌else◌, is_err, true};
ghost use Rattle.std.specs.Io.KnownBytes.{Appends};
ghost use Rattle.opc_cli_words.specs.Mistakes.{mistake_line, mistake_text};
ghost use Rattle.opc_cli_words.specs.declared.mistake.Mistake.TheVariants as wrong;

use opc_io::sink::{Sink, WriteFault, write_whole};

/// How a command is quoted.
pub(crate) const ONE_TEXT: &[u8] = b"--command takes one text: --command 'C PAYROLL'";

/// An option of a command.
#[derive(Clone, Copy)]
pub enum Opt {
    Allow,
    As,
    Base,
    Batch,
    Class,
    Code,
    Command,
    Console,
    Count,
    From,
    Last,
    Level,
    Now,
    Port,
    Resource,
    Since,
    Socket,
    SocketMode,
    Strict,
    Timeout,
    Until,
    User,
}

impl Opt {
    ghost use Rattle.opc_cli_words.specs.Mistakes.{option_name};

    /// Its name, as `clap` has it.
    pub fn name(self) -> &'static str
        ensures { result.now ≡ option_name self }
    {
        match self {
            Opt::Allow => "allow",
            Opt::As => "as",
            Opt::Base => "base",
            Opt::Batch => "batch",
            Opt::Class => "class",
            Opt::Code => "code",
            Opt::Command => "command",
            Opt::Console => "console",
            Opt::Count => "count",
            Opt::From => "from",
            Opt::Last => "last",
            Opt::Level => "level",
            Opt::Now => "now",
            Opt::Port => "port",
            Opt::Resource => "resource",
            Opt::Since => "since",
            Opt::Socket => "socket",
            Opt::SocketMode => "socket-mode",
            Opt::Strict => "strict",
            Opt::Timeout => "timeout",
            Opt::Until => "until",
            Opt::User => "user",
        }
    }
}

/// What is wrong with the options of a command.
#[derive(Clone, Copy)]
pub enum Mistake {
    /// The value of this option is invalid.
    Unread(Opt),
    /// The first option is given without the second, which it needs.
    Lacks(Opt, Opt),
    /// The question is about nobody, who acts only at a console, and none is named.
    NobodyAlone,
    /// The question is about a LOGON, which is typed at a console, and none is named.
    LogonNowhere,
    /// Neither option states where to listen, or both do.
    NotOneAddress,
    /// Neither option states what the question is about, or both do.
    NotOneQuestion,
    /// Two options state where the rows begin.
    TwoBeginnings,
    /// Lines are answered as they are read, and a file of them is named.
    TwoInputs,
    /// Two arguments state where the policy comes from.
    TwoSources,
    /// A command is not quoted, so that its operand stands in the place of a file.
    Unquoted,
    /// The command line has no such command.
    NoCommand,
}

/// Writes that a command needs one address.
fn write_addresses<K: Sink>(command: &str, errors: &mut K) -> Result<(), WriteFault>
    ensures text { OnOk result (Appends (K.held errors.old) (K.held errors.new)
        (mistake_text command.now wrong.NotOneAddress)) }
    ensures failed { K.has_failed errors.new ≡ (if is_err result then true else K.has_failed errors.old) }
{
    write_whole(errors, command.as_bytes())?;
    write_whole(errors, b" needs exactly one of --port and --socket")
}

/// Writes what is wrong with the options of a command, in words.
fn write_mistake<K: Sink>(command: &str, mistake: Mistake, errors: &mut K) -> Result<(), WriteFault>
    ensures text { OnOk result (Appends (K.held errors.old) (K.held errors.new)
        (mistake_text command.now mistake)) }
    ensures failed { K.has_failed errors.new ≡ (if is_err result then true else K.has_failed errors.old) }
{
    match mistake {
        Mistake::Unread(option) => {
            write_whole(errors, b"invalid value for --")?;
            write_whole(errors, option.name().as_bytes())
        }
        Mistake::Lacks(given, needed) => {
            write_whole(errors, b"--")?;
            write_whole(errors, given.name().as_bytes())?;
            write_whole(errors, b" needs --")?;
            write_whole(errors, needed.name().as_bytes())
        }
        Mistake::NobodyAlone => write_whole(errors, b"--user - needs --console"),
        Mistake::LogonNowhere => write_whole(
            errors,
            b"LOGON is asked about at a console: give --console",
        ),
        Mistake::NotOneAddress => write_addresses(command, errors),
        Mistake::NotOneQuestion => write_whole(
            errors,
            b"a question needs exactly one of --command and --resource",
        ),
        Mistake::TwoBeginnings => write_whole(errors, b"account takes --from or --last, not both"),
        Mistake::TwoInputs => write_whole(errors, b"run takes --now or FILE, not both"),
        Mistake::TwoSources => write_whole(errors, b"give one of FILE, --policy and --db"),
        Mistake::Unquoted => write_whole(errors, ONE_TEXT),
        Mistake::NoCommand => write_whole(errors, b"invalid value for COMMAND"),
    }
}

/// Prints a mistake, and names the help to read.
pub fn print_mistake<K: Sink>(
    command: &str,
    mistake: Mistake,
    errors: &mut K,
) -> Result<(), WriteFault>
    ensures text { OnOk result (Appends (K.held errors.old) (K.held errors.new)
        (mistake_line command.now mistake)) }
    ensures failed { K.has_failed errors.new ≡ (if is_err result then true else K.has_failed errors.old) }
{
    write_whole(errors, b"error: ")?;
    write_mistake(command, mistake, errors)?;
    write_whole(errors, b"; see opcmds ")?;
    write_whole(errors, command.as_bytes())?;
    write_whole(errors, b" --help\n")
}
