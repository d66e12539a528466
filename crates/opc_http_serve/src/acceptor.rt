//! The acceptor of the program: a listener and a clock.
ghost use Rattle.std.specs.Prelude.{◌≡◌};
ghost use Rattle.opc_http_serve.specs.Coming.{ComesTo};

use crate::arrivals::Arrivals;
use opc_http_connections::connection::Connection;
use opc_http_connections::listener::ClientListener;
use std::io;
use std::rt::Clock;
use std::time::Duration;

/// Clients come to a listener.
#[derive(Drop)]
pub struct Acceptor<'a, H: Clock, L: ClientListener> {
    clock: &'a H,
    listener: &'a L,
}

impl<'a, H: Clock, L: ClientListener> Acceptor<'a, H, L> {
    pub fn new(clock: &'a H, listener: &'a L) -> Self
        ensures { result.listener.now ≡ listener.now }
    {
        Acceptor { clock, listener }
    }
}

impl<H: Clock, L: ClientListener> Arrivals for Acceptor<'_, H, L> {
    type Connection = L::Client;

    ghost accepts = { λ before handles after. ComesTo L.accepts L.Client.clones before.listener.now handles
        × (after.listener.now ≡ before.listener.now) };

    ghost clock_says = { λ before _ after. after.listener.now ≡ before.listener.now };

    fn accept(&mut self) -> io::Result<Option<(L::Client, L::Client)>> {
        // One handle to read and one to write. Each is owned, so the clauses of `Read` and `Write` state what was read
        // and written; with one shared reference, no clause could state what is written.
        let reader = self.listener.accept_client()?;
        match reader.another() {
            Ok(writer) => Ok(Some((reader, writer))),
            Err(_) => Ok(None),
        }
    }

    fn since_1970(&mut self) -> io::Result<Duration> {
        self.clock.since_1970()
    }
}
