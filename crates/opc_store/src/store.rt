//! The store.
ghost use Rattle.std.specs.Prelude.{◌≡◌, length, false, IfOk};
ghost use Rattle.sqlite.specs.Held.{state};
ghost use Rattle.sqlite.specs.Steps.{over_memory};
ghost use Rattle.opc_store_sql.specs.Steps.{Looks};
ghost use Rattle.opc_board.specs.Invariants.{console_at};
ghost use Rattle.opc_policy_members.specs.Taken.{is_active};
ghost use Rattle.opc_policy_members.specs.Profiles.{of_class, profile_of};
ghost use Rattle.opc_state.specs.State.{empty, deciding_in};
ghost use Rattle.opc_store_history.specs.Loads.{account_page, kept_text};
ghost use Rattle.opc_state.specs.PolicyFile.{rows_of};
ghost use Rattle.opc_store_schema.specs.Asked.{Finds};
ghost use Rattle.opc_store_schema.specs.Represented.{Represents};
ghost use Rattle.opc_policy.specs.Examined.{read_until};

use crate::whole::{board_rows_on, policy_file_on};
use opc_board::board::BoardRows;
use opc_board::rows::ConsoleRow;
use opc_board::text::KeptText;
use opc_names::class::Class;
use opc_names::name::{ConsoleName, Pattern, Resource};
use opc_policy::source::Taken;
use opc_policy_members::profile::Profile;
use opc_policy_members::row::Row;
use opc_rows::Rows;
use opc_state::account::AccountRow;
use opc_store_board::consoles::console_on;
use opc_store_history::account::account_on;
use opc_store_history::batches::batch_on;
use opc_store_profiles::profiles::{profile_at, profiles_of_on};
use opc_store_schema::faults::fault;
use opc_store_schema::making::make_tables;
use opc_store_search::search::first_on;
use opc_store_users::classes::active_on;
use opc_terms::store_fault::StoreFault;
use sqlite::{Alter, Connection, MemStore};
use std::alloc::Global;
use std::marker::Model;

/// The tables, outside any transaction, and the allocator for the answers of searches.
pub struct Store<S: Alter> {
    pub(crate) conn: Connection<S>,
    pub(crate) alloc: Global,
    // Whether each profile was read since the tables were opened.
    pub(crate) has_seen_profiles: bool,
}

// In a function of its own, so that no caller drops the connection part by part: that keeps its proof short.
impl<S: Alter + Drop> Drop for Store<S> {
    fn drop(self) {
        let Store {
            conn: _,
            alloc: _,
            has_seen_profiles: _,
        } = self;
    }
}

impl<S: Alter> Model for Store<S> {
    ghost use Rattle.std.specs.Prelude.{◌≡◌, false};
    ghost use Rattle.sqlite.specs.Held.{Held, held_code};

    ghost Value = { Held S };

    ghost coded = { held_code S.code };

    ghost view = { λ a. a.conn };

    ghost invariant = { λ a. a.conn.in_transaction ≡ false };
}

impl Store<MemStore> {
    /// A new store in memory, of an empty state.
    pub fn in_memory(alloc: Global) -> Result<Store<MemStore>, StoreFault>
        ensures { IfOk result (λ store. Represents (state over_memory store).now empty) }
    {
        let mut conn = Connection::open_in_memory(alloc)?;
        match make_tables(&mut conn) {
            Ok(()) => Ok(Store {
                conn,
                alloc,
                has_seen_profiles: false,
            }),
            Err(error) => Err(fault(error)),
        }
    }
}

// Calls for programs that use the store as a library. The gate loads through `Tables`.
impl<S: Alter> Store<S> {
    /// The connection to the tables, outside any transaction. `open_files` adopts it again.
    pub fn into_connection(self) -> Connection<S>
        ensures same { result ≡ self }
        ensures outside { result.in_transaction ≡ false }
    {
        let Store {
            conn: tables,
            alloc: _,
            has_seen_profiles: _,
        } = self;
        tables
    }

    /// The console of this name.
    pub fn console(&mut self, name: &ConsoleName) -> Result<Option<ConsoleRow>, StoreFault>
        ensures found { Finds S.Store self.old self.new result (λ s v. v ≡ console_at s.board name.now) }
        ensures keeps { Looks S.Store self.old self.new result }
    {
        console_on(&mut self.conn, name)
    }

    /// Whether a class is active.
    pub fn active(&mut self, class: Class) -> Result<bool, StoreFault>
        ensures found { Finds S.Store self.old self.new result (λ s v. v ≡ is_active s.policy.active class) }
        ensures keeps { Looks S.Store self.old self.new result }
    {
        active_on(&mut self.conn, class)
    }

    /// The policy and the consoles, as the rows of a policy file. This is what `Gate::export` gives, for callers
    /// without a gate.
    pub fn policy_rows(&mut self, alloc: Global) -> Result<Vec<Row>, StoreFault>
        ensures found { Finds S.Store self.old self.new result (λ s v. v.items ≡ rows_of s.policy s.board.consoles) }
        ensures keeps { Looks S.Store self.old self.new result }
    {
        policy_file_on(alloc, &mut self.conn)
    }

    /// The profile of a class and a pattern, with its access list.
    pub fn profile(
        &mut self,
        alloc: Global,
        class: Class,
        pattern: &Pattern,
    ) -> Result<Option<Profile>, StoreFault>
        ensures found { Finds S.Store self.old self.new result
            (λ s v. v ≡ profile_of s.policy.profiles class pattern.now) }
        ensures keeps { Looks S.Store self.old self.new result }
    {
        profile_at(alloc, &mut self.conn, class, pattern)
    }

    /// All rows of the board, with the histories. No request needs them all, so the gate has no such load.
    pub fn board_rows(&mut self, alloc: Global) -> Result<BoardRows, StoreFault>
        ensures found { Finds S.Store self.old self.new result (λ s v. v ≡ s.board) }
        ensures keeps { Looks S.Store self.old self.new result }
    {
        board_rows_on(alloc, &mut self.conn)
    }

    /// The rows of the account from a number on, at most as many as requested; they are numbered from 1. The others are
    /// not read.
    pub fn account(
        &mut self,
        alloc: Global,
        from: u64,
        count: u32,
    ) -> Result<Rows<AccountRow>, StoreFault>
        ensures found { Finds S.Store self.old self.new result (λ s v. v ≡ account_page from count s.account) }
        ensures keeps { Looks S.Store self.old self.new result }
    {
        account_on(alloc, &mut self.conn, from, count)
    }

    /// The batch of a number, as the text of a policy file.
    pub fn batch(&mut self, number: u32) -> Result<Option<KeptText>, StoreFault>
        ensures found { Finds S.Store self.old self.new result (λ s v. v ≡ kept_text s.batches number) }
        ensures keeps { Looks S.Store self.old self.new result }
    {
        batch_on(&mut self.conn, number)
    }

    /// The profiles of a class, in the order of their patterns.
    pub fn all(&mut self, alloc: Global, class: Class) -> Result<Vec<Profile>, StoreFault>
        ensures found { Finds S.Store self.old self.new result (λ s v. v.items ≡ of_class class s.policy.profiles) }
        ensures keeps { Looks S.Store self.old self.new result }
    {
        profiles_of_on(alloc, &mut self.conn, class)
    }

    /// The first profile of a class that covers a resource, in the order of the patterns, and how many were read for
    /// it.
    pub fn first(
        &mut self,
        alloc: Global,
        class: Class,
        resource: &Resource,
    ) -> Result<Taken, StoreFault>
        ensures first { Finds S.Store self.old self.new result (λ s taken.
            taken.profile ≡ deciding_in s.policy class resource.now) }
        ensures rows { Finds S.Store self.old self.new result (λ s taken.
            taken.rows ≡ length (read_until taken.profile (of_class class s.policy.profiles))) }
        ensures keeps { Looks S.Store self.old self.new result }
    {
        first_on(alloc, &mut self.conn, class, resource)
    }
}
