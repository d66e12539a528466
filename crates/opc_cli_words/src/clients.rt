//! Options that say which clients are served, and how.
ghost use Rattle.std.specs.Prelude.{◌≡◌, Some, codes};
ghost use Rattle.std.specs.Option.{option_copied};
ghost use Rattle.clap.specs.Matches.{first_value, found_of};
ghost use Rattle.opc_names.specs.Spellings.{lookup};
ghost use Rattle.opc_cli_words.specs.Checks.{AreReadAs, IsReadAs};
ghost use Rattle.opc_cli_words.specs.Services.{
  IsAddress,
  address_checks,
  mode_check,
  mode_of,
  path_check,
  port_check,
  port_of,
  socket_modes,
};
ghost use Rattle.opc_cli_words.specs.Options.{
  AreClientsAsked,
  IsWait,
  client_checks,
  count_of,
  count_option,
  is_set,
  strict_option,
  timeout_option,
};

use crate::flag::is_set;
use crate::mistake::{Mistake, Opt};
use crate::number::number_between;
use clap::ArgMatches;
use opc_cli_tasks::work::{Address, Clients};
use std::time::Duration;

/// A port, 0 to 65,535.
fn port_in(text: &str) -> Result<u16, Mistake>
    ensures { IsReadAs (λ port. port_of text.now ≡ Some port) (port_check (Some text.now)) result }
{
    match number_between(text, 0, 65_535) {
        Some(port) => Ok(port as u16),
        None => Err(Mistake::Unread(Opt::Port)),
    }
}

/// The path of a socket. An empty one has a meaning of its own for Linux: a socket without permissions.
fn path_in<'a>(text: &'a str) -> Result<&'a str, Mistake>
    ensures { IsReadAs (λ path. path.now ≡ text.entry.now) (path_check (Some text.entry.now)) result }
{
    if text.is_empty() {
        return Err(Mistake::Unread(Opt::Socket));
    }
    Ok(text)
}

/// The permissions with this text. Whoever may write to a socket may connect to it.
fn mode_named(text: &str) -> Option<u32>
    ensures { result ≡ lookup socket_modes text.now }
{
    match text {
        "600" | "0600" => Some(0o600),
        "660" | "0660" => Some(0o660),
        "666" | "0666" => Some(0o666),
        // No other mode is offered: the owner, also the group, or everybody may connect.
        _ => None,
    }
}

/// The permissions of a socket: the owner's alone, if none are given.
fn mode_in(given: Option<&str>) -> Result<u32, Mistake>
    ensures { IsReadAs (λ mode. mode_of (option_copied given.entry) ≡ Some mode)
        (mode_check (option_copied given.entry)) result }
{
    match mode_named(given.unwrap_or("600")) {
        Some(mode) => Ok(mode),
        None => Err(Mistake::Unread(Opt::SocketMode)),
    }
}

/// Where to listen: at a port or at a socket; exactly one is given.
fn address_of<'a>(
    port: Option<&'a str>,
    socket: Option<&'a str>,
    mode: Option<&'a str>,
) -> Result<Address<'a>, Mistake>
    ensures { AreReadAs
        (IsAddress (option_copied port.entry) (option_copied socket.entry) (option_copied mode.entry))
        (address_checks (option_copied port.entry) (option_copied socket.entry) (option_copied mode.entry)) result }
{
    match (port, socket, mode) {
        // A port has no permissions.
        (Some(_), None, Some(_)) => Err(Mistake::Lacks(Opt::SocketMode, Opt::Socket)),
        (Some(port), None, None) => Ok(Address::Port(port_in(port)?)),
        (None, Some(path), mode) => {
            let path = path_in(path)?;
            let mode = mode_in(mode)?;
            Ok(Address::Socket { path, mode })
        }
        // Both are given, or neither is.
        _ => Err(Mistake::NotOneAddress),
    }
}

/// Whether what a web page can send is refused.
fn strict_in(chosen: &ArgMatches<'_>) -> Result<bool, Mistake>
    ensures { IsReadAs (λ strict. strict ≡ is_set (first_value (found_of chosen.now)) (codes "strict"))
        (strict_option (first_value (found_of chosen.now))) result }
{
    if !is_set(chosen, "strict") {
        return Ok(false);
    }
    match chosen.get_str("port") {
        Some(_) => Ok(true),
        // No web page reaches a Unix socket.
        None => Err(Mistake::Lacks(Opt::Strict, Opt::Port)),
    }
}

/// How many clients are served, 1 to 1,000,000.
fn count_in(chosen: &ArgMatches<'_>) -> Result<u32, Mistake>
    ensures { IsReadAs (λ count. count_of (first_value (found_of chosen.now)) ≡ Some count)
        (count_option (first_value (found_of chosen.now))) result }
{
    match number_between(chosen.get_str("count").unwrap_or(""), 1, 1_000_000) {
        Some(count) => Ok(count as u32),
        None => Err(Mistake::Unread(Opt::Count)),
    }
}

/// How long an exchange may take, 0 to 3,600 seconds; 0 sets no limit.
fn timeout_in(chosen: &ArgMatches<'_>) -> Result<Option<Duration>, Mistake>
    ensures { IsReadAs (IsWait (first_value (found_of chosen.now))) (timeout_option (first_value (found_of chosen.now)))
        result }
{
    match number_between(chosen.get_str("timeout").unwrap_or(""), 0, 3_600) {
        Some(0) => Ok(None),
        Some(seconds) => Ok(Some(Duration::from_secs(seconds))),
        None => Err(Mistake::Unread(Opt::Timeout)),
    }
}

/// Which clients are served, and how, or the first mistake in that.
pub(crate) fn clients_in<'a>(chosen: &ArgMatches<'a>) -> Result<Clients<'a>, Mistake>
    ensures { AreReadAs (AreClientsAsked (first_value (found_of chosen.now)))
        (client_checks (first_value (found_of chosen.now))) result }
{
    let address = address_of(
        chosen.get_str("port"),
        chosen.get_str("socket"),
        chosen.get_str("socket-mode"),
    )?;
    let strict = strict_in(chosen)?;
    let count = count_in(chosen)?;
    let timeout = timeout_in(chosen)?;
    Ok(Clients {
        address,
        count,
        timeout,
        strict,
        log: is_set(chosen, "log"),
    })
}
