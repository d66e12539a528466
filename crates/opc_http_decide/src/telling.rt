//! What a log tells of an exchange of `decide`.
ghost use Rattle.std.specs.Prelude.{◌≡◌, IfOk, string_bytes};
ghost use Rattle.opc_http_responses.specs.Statuses.{refusal_status};
ghost use Rattle.opc_http_serve.specs.Logging.{IsLineLogged, IsLineWritten};
ghost use Rattle.opc_http_decide.specs.DecideLines.{IsToldLine, configuration_told, refusal_told, undecided};

use opc_board::text::KeptText;
use opc_http_log::escape::printable;
use opc_http_log::line::{push_field, refusal_code};
use opc_http_requests::refusal::HttpRefusal;
use opc_http_serve::service::write_to;
use opc_io::sink::Sink;
use opc_times::time::time_text;
use std::alloc::{AllocError, Global};

/// What is told if no question was decided.
fn undecided(alloc: Global, status: u16, code: &str) -> Result<String, AllocError>
    ensures { IfOk result (λ told. string_bytes told ≡ undecided status code.now) }
{
    let number = status.to_string(alloc)?;
    let mut told = String::from_str(alloc, "- - ")?;
    told.push_str(number.as_str())?;
    told.push_str(" ")?;
    told.push_str(code)?;
    told.push_str(" - - -")?;
    Ok(told)
}

/// What is told of a response that repeats where questions are asked.
pub(crate) fn configuration_told(alloc: Global) -> Result<KeptText, AllocError>
    ensures { IfOk result (λ told. told ≡ configuration_told) }
{
    KeptText::new(alloc, "- - 200 - - - -")
}

/// What is told of a refusal, by the status of its response.
pub(crate) fn refusal_told(
    alloc: Global,
    status: u16,
    refusal: &HttpRefusal,
) -> Result<KeptText, AllocError>
    requires { status ≡ refusal_status refusal.now }
    ensures { IfOk result (λ told. told ≡ refusal_told refusal.now) }
{
    let told = undecided(alloc, status, refusal_code(refusal))?;
    Ok(KeptText::from(told))
}

/// The line that tells this of an exchange at a time, with its line feed.
fn told_line(alloc: Global, moment: u64, told: &str) -> Result<Vec<u8>, AllocError>
    ensures { IfOk result (λ line. IsToldLine moment told.now line.items) }
{
    let time = time_text(alloc, moment)?;
    let mut text = Vec::new(alloc);
    push_field(&mut text, time.as_str().as_bytes())?;
    text.extend_from_slice(told.as_bytes())?;
    let mut line = printable(alloc, text.as_slice())?;
    line.extend_from_slice(b"\n")?;
    Ok(line)
}

/// Writes it to the log. If its allocation fails, it is left out.
fn write_told<K: Sink>(alloc: Global, log: &mut K, moment: u64, told: &str)
    ensures { IsLineWritten K.held K.has_failed (IsToldLine moment told.now) log.old log.new }
{
    let Ok(line) = told_line(alloc, moment, told) else {
        return;
    };
    write_to(log, line.as_slice());
}

/// Logs an exchange, which is over, if there is a log.
pub(crate) fn log_told<K: Sink>(alloc: Global, log: &mut Option<K>, moment: u64, told: &str)
    ensures { IsLineLogged K.held K.has_failed (IsToldLine moment told.now) log.old log.new }
{
    match log {
        Some(log) => write_told(alloc, log, moment, told),
        None => {}
    }
}
