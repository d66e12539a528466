//! Consoles that are added and change.
ghost use Rattle.std.specs.Prelude.{◌≡◌, if◌then◌else◌, IsSome, IsSomeAnd, None, OnErr, OnOk};
ghost use Rattle.std.specs.List.{list_any};
ghost use Rattle.opc_board.specs.declared.fault.BoardFault.TheVariants.{NoTarget};
ghost use Rattle.opc_board.specs.Invariants.{console_at, has_master, is, is_master};
ghost use Rattle.opc_board.specs.Outcome.{ComesTo, found};
ghost use Rattle.opc_board.specs.Consoles.{
  at_console,
  console_defined,
  defined,
  logged_off,
  logged_on,
  monitored,
  replaced,
  varied,
  with_console,
  vary_console_online as vary_console_online_outcome,
  vary_console_offline as vary_console_offline_outcome,
  vary_console_auth as vary_console_auth_outcome,
  reset_console as reset_console_outcome,
};

use crate::board::{Board, BoardRows};
use crate::fault::BoardFault;
use crate::rows::ConsoleRow;
use opc_names::auth::Auth;
use opc_names::name::{ConsoleName, UserId};
use opc_terms::mode::Mode;
use std::alloc::AllocError;

impl ConsoleRow {
    // The same as `is_master`, but with the other row in its place if that has its name.
    fn is_master_with(&self, row: &ConsoleRow) -> bool
        ensures { result ≡ is_master (if is self.now.name row.now.name then row.now else self.now) }
    {
        if self.name == row.name {
            row.is_master()
        } else {
            self.is_master()
        }
    }
}

impl BoardRows {
    fn any_master_with(&self, row: &ConsoleRow) -> bool
        ensures { result ≡ list_any (λ console. is_master (if is console.name row.now.name then row.now else console))
            self.now.consoles }
    {
        self.consoles
            .as_slice()
            .iter()
            .any(|console| console.is_master_with(row))
    }
}

impl Board {
    fn console(&self, name: &ConsoleName) -> Result<ConsoleRow, BoardFault>
        ensures { result ≡ found NoTarget (console_at self.now name.now) }
    {
        match self.rows.consoles.find(name) {
            Some(console) => Ok(*console),
            None => Err(BoardFault::NoTarget),
        }
    }

    // Puts a row in place of the one of its name.
    fn put_console(&mut self, row: ConsoleRow)
        ensures { self.new ≡ with_console row self.old }
    {
        self.rows.consoles.change(&row.name, |_| row);
    }

    // Whether an online console has AUTH MASTER once this row is in place of the one of its name.
    fn has_master_with(&self, row: &ConsoleRow) -> bool
        ensures { result ≡ has_master (replaced row.now self.now.consoles) }
    {
        self.rows.any_master_with(row)
    }

    // Puts a row in place of the one of its name, unless that loses the last master.
    fn vary_console(&mut self, row: ConsoleRow) -> Result<(), BoardFault>
        ensures { ComesTo self.old self.new (varied row self.old) result }
    {
        let had = self.has_master();
        let has = self.has_master_with(&row);
        let loses = had & !has;
        if loses {
            return Err(BoardFault::LastMaster);
        }
        self.put_console(row);
        Ok(())
    }

    pub(crate) fn vary_console_online(&mut self, name: &ConsoleName) -> Result<(), BoardFault>
        ensures { ComesTo self.old self.new (vary_console_online_outcome name.now self.old) result }
    {
        let console = self.console(name)?;
        self.vary_console(ConsoleRow {
            online: true,
            ..console
        })
    }

    pub(crate) fn vary_console_offline(&mut self, name: &ConsoleName) -> Result<(), BoardFault>
        ensures { ComesTo self.old self.new (vary_console_offline_outcome name.now self.old) result }
    {
        let console = self.console(name)?;
        // A user who is logged on at a console that is offline already stays logged on.
        self.vary_console(if console.online {
            ConsoleRow {
                online: false,
                user: None,
                ..console
            }
        } else {
            console
        })
    }

    pub(crate) fn vary_console_auth(
        &mut self,
        name: &ConsoleName,
        auth: Auth,
    ) -> Result<(), BoardFault>
        ensures { ComesTo self.old self.new (vary_console_auth_outcome name.now auth self.old) result }
    {
        let console = self.console(name)?;
        self.vary_console(ConsoleRow { auth, ..console })
    }

    pub(crate) fn reset_console(&mut self, name: &ConsoleName) -> Result<(), BoardFault>
        ensures { ComesTo self.old self.new (reset_console_outcome name.now self.old) result }
    {
        let console = self.console(name)?;
        self.put_console(ConsoleRow {
            user: None,
            ..console
        });
        Ok(())
    }

    // Sets whether a console shows job messages.
    pub(crate) fn monitor(&mut self, name: &ConsoleName, monitor: bool)
        ensures { self.new ≡ monitored name.now monitor self.old }
    {
        self.rows
            .consoles
            .change(name, |console| ConsoleRow { monitor, ..console });
    }

    fn set_user(&mut self, name: &ConsoleName, user: Option<UserId>)
        ensures { self.new ≡ at_console name.now (λ console. record console { user = user }) self.old }
    {
        self.rows
            .consoles
            .change(name, |console| ConsoleRow { user, ..console });
    }

    /// Logs a user on at a console of the board where nobody is logged on.
    pub fn log_on(&mut self, name: &ConsoleName, user: UserId)
        requires { IsSomeAnd (console_at self.old name.now) (λ console. console.user ≡ None) }
        ensures { self.new ≡ logged_on name.now user self.old }
    {
        self.set_user(name, Some(user));
    }

    /// Logs off the user who is logged on at a console of the board.
    pub fn log_off(&mut self, name: &ConsoleName)
        requires { IsSomeAnd (console_at self.old name.now) (λ console. IsSome console.user) }
        ensures { self.new ≡ logged_off name.now self.old }
    {
        self.set_user(name, None);
    }

    // Adds a console that is not there.
    fn add_console(&mut self, name: ConsoleName, auth: Auth, mode: Mode) -> Result<(), AllocError>
        requires { console_at self.old name ≡ None }
        ensures added { OnOk result (self.new ≡ defined name auth mode None self.old) }
        ensures unchanged { OnErr result (self.new ≡ self.old) }
    {
        self.rows.consoles.insert(ConsoleRow {
            name,
            auth,
            mode,
            online: true,
            user: None,
            monitor: false,
        })?;
        Ok(())
    }

    /// Gives a console its authority and mode. A new console comes online with nobody logged on. This does not check
    /// whether the last master is lost: the caller compares `has_master` before and after.
    pub fn define_console(
        &mut self,
        name: ConsoleName,
        auth: Auth,
        mode: Mode,
    ) -> Result<(), AllocError>
        ensures defined { OnOk result (self.new ≡ console_defined name auth mode self.old) }
        ensures unchanged { OnErr result (self.new ≡ self.old) }
    {
        match self.console(&name) {
            Ok(console) => {
                self.put_console(ConsoleRow {
                    auth,
                    mode,
                    ..console
                });
                Ok(())
            }
            Err(_) => self.add_console(name, auth, mode),
        }
    }
}
