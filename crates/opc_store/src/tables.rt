//! The store as the tables that the machine requires.
ghost use Rattle.std.specs.Option.{option_map};
ghost use Rattle.std.specs.Prelude.{◌≡◌, ◌⊎◌, map, IsTrue, OnErr, OnOk};
ghost use Rattle.sqlite.specs.Held.{state};
ghost use Rattle.opc_store_sql.specs.Steps.{Looks};
ghost use Rattle.opc_policy_members.specs.Profiles.{of_class};
ghost use Rattle.opc_policy_shared.specs.Shared.{with_heads_between};
ghost use Rattle.opc_state.specs.Changes.{changed_by};
ghost use Rattle.opc_state.specs.Loads.{bare};
ghost use Rattle.opc_state.specs.State.{State, Fits, deciding_in};
ghost use Rattle.opc_store_schema.specs.Asked.{Finds};
ghost use Rattle.opc_store.specs.StoreTables.{RepresentsIfOpen, IsSure, MayLeave};

use crate::store::Store;
use crate::whole::policy_file_on;
use opc_board::rows::{ConsoleRow, DeviceRow, ReplyRow, UnitRow};
use opc_names::class::Class;
use opc_names::level::Level;
use opc_names::name::{ConsoleName, Device, GroupName, Pattern, Resource, UnitName, UserId};
use opc_names::reply_id::ReplyId;
use opc_policy::Found;
use opc_policy_members::entries::Entries;
use opc_policy_members::policy::Policy;
use opc_policy_members::profile::Profile;
use opc_policy_members::row::Row;
use opc_policy_members::user::User;
use opc_rows::Rows;
use opc_state::account::AccountRow;
use opc_state::change::Change;
use opc_state::tables::Tables;
use opc_store_board::consoles::{console_on, consoles_of_on, consoles_on, masters_on};
use opc_store_board::day::halted_on;
use opc_store_board::devices::{device_on, devices_of_on, devices_on};
use opc_store_board::replies::{replies_on, reply_on};
use opc_store_board::units::{unit_on, units_on};
use opc_store_commit::commit::commit_on;
use opc_store_history::account::account_page_on;
use opc_store_history::batches::batch_rows_on;
use opc_store_profiles::entries::{entries_on, level_for_on};
use opc_store_profiles::profiles::{definition_on, definitions_on, profiles_of_on};
use opc_store_schema::faults::fault;
use opc_store_search::between::{definitions_between_on, first_definitions_between_on};
use opc_store_search::search::{deciding_on, first_deciding_on};
use opc_store_sql::read;
use opc_store_users::classes::active_on;
use opc_store_users::connects::{is_connected_on, user_groups_on};
use opc_store_users::groups::has_group_on;
use opc_store_users::users::{has_user_on, has_users_on, user_on};
use opc_store_whole_policy::named::is_named_on;
use opc_store_whole_policy::policy::policy_on;
use opc_terms::entry_id::EntryId;
use opc_terms::store_fault::StoreFault;
use sqlite::Alter;
use std::alloc::Global;

impl<S: Alter> Store<S> {
    /// Makes the cheapest query. A store that a fault closed fails here, before anything is begun, so that a crash
    /// after it leaves nothing new.
    fn see_open(&mut self) -> Result<(), StoreFault>
        ensures keeps { Looks S.Store self.old self.new result }
    {
        match read(&mut self.conn, "SELECT 1", &[]) {
            Ok(_) => Ok(()),
            Err(error) => Err(fault(error)),
        }
    }

    /// What a search finds of a resource in a class: the profile that decides, but without its access list. Before the
    /// first search each profile is read; after that no other program writes the tables, as long as they are open.
    pub fn find_deciding(
        &mut self,
        alloc: Global,
        class: Class,
        resource: &Resource,
    ) -> Result<Found, StoreFault>
        ensures found { Finds S.Store self.old self.new result
            (λ s found. found.profile ≡ option_map bare (deciding_in s.policy class resource.now)) }
        ensures keeps { Looks S.Store self.old self.new result }
    {
        if self.has_seen_profiles {
            return deciding_on(alloc, &mut self.conn, class, resource);
        }
        let found = first_deciding_on(alloc, &mut self.conn, class, resource)?;
        self.has_seen_profiles = true;
        Ok(found)
    }

    /// The profiles of a class whose heads lie between two texts, both among them, in the order of their patterns, but
    /// for their access lists. Before the first search each profile is read, as for one resource.
    pub fn definitions_between(
        &mut self,
        alloc: Global,
        class: Class,
        first: &str,
        last: &str,
    ) -> Result<Vec<Profile>, StoreFault>
        ensures found { Finds S.Store self.old self.new result
            (λ s v. v.items ≡ with_heads_between first.now last.now (map bare (of_class class s.policy.profiles))) }
        ensures keeps { Looks S.Store self.old self.new result }
    {
        if self.has_seen_profiles {
            return definitions_between_on(alloc, &mut self.conn, class, first, last);
        }
        let definitions = first_definitions_between_on(alloc, &mut self.conn, class, first, last)?;
        self.has_seen_profiles = true;
        Ok(definitions)
    }

    /// Writes all of a change, or nothing, as the gate requires it of tables. Tables that a fault of the disk has
    /// closed accept none.
    pub fn commit(&mut self, alloc: Global, change: &Change) -> Result<(), StoreFault>
        ensures open { IsSure S.Store self.new → OnOk result (IsTrue (state S.Store self.old).is_open) }
        ensures sure { IsSure S.Store self.new → IsSure S.Store self.old }
        ensures done { IsSure S.Store self.new → (s : State) → RepresentsIfOpen S.Store self.old s
            → OnOk result (RepresentsIfOpen S.Store self.new (changed_by change.now s)) }
        ensures fits { IsSure S.Store self.new → (s : State) → RepresentsIfOpen S.Store self.old s
            → OnOk result (Fits s → Fits (changed_by change.now s)) }
        ensures failed { IsSure S.Store self.new → (s : State) → RepresentsIfOpen S.Store self.old s
            → OnErr result (RepresentsIfOpen S.Store self.new s) }
        ensures acknowledged { IsSure S.Store self.new → (s : State) → RepresentsIfOpen S.Store self.old s
            → OnOk result ((left : State) → MayLeave S.Store self.new left → left ≡ changed_by change.now s) }
        ensures crash { IsSure S.Store self.new → (s : State) → RepresentsIfOpen S.Store self.old s → (left : State)
            → MayLeave S.Store self.new left → MayLeave S.Store self.old left ⊎ (left ≡ changed_by change.now s) }
    {
        self.see_open()?;
        commit_on(alloc, &mut self.conn, change)
    }
}

impl<S: Alter> Tables for Store<S> {
    ghost use Rattle.opc_store.specs.StoreTables.{store_meaning};

    ghost meaning = { store_meaning S.Store };

    #[tactic(auto, using(crate::proofs::StoreTablesLemmas::keyed))]
    fn console(&mut self, name: &ConsoleName) -> Result<Option<ConsoleRow>, StoreFault> {
        console_on(&mut self.conn, name)
    }

    fn unit(&mut self, name: &UnitName) -> Result<Option<UnitRow>, StoreFault> {
        unit_on(&mut self.conn, name)
    }

    fn device(&mut self, number: &Device) -> Result<Option<DeviceRow>, StoreFault> {
        device_on(&mut self.conn, number)
    }

    fn reply(&mut self, id: ReplyId) -> Result<Option<ReplyRow>, StoreFault> {
        reply_on(&mut self.conn, id)
    }

    #[tactic(auto, using(crate::proofs::StoreTablesLemmas::keyed))]
    fn is_halted(&mut self) -> Result<bool, StoreFault> {
        halted_on(&mut self.conn)
    }

    fn devices_of(
        &mut self,
        alloc: Global,
        unit: &UnitName,
    ) -> Result<Rows<DeviceRow>, StoreFault> {
        devices_of_on(alloc, &mut self.conn, unit)
    }

    fn consoles_of(
        &mut self,
        alloc: Global,
        user: &UserId,
    ) -> Result<Rows<ConsoleRow>, StoreFault> {
        consoles_of_on(alloc, &mut self.conn, user)
    }

    fn masters(&mut self, alloc: Global) -> Result<Rows<ConsoleRow>, StoreFault> {
        masters_on(alloc, &mut self.conn)
    }

    fn units(&mut self, alloc: Global) -> Result<Rows<UnitRow>, StoreFault> {
        units_on(alloc, &mut self.conn)
    }

    fn devices(&mut self, alloc: Global) -> Result<Rows<DeviceRow>, StoreFault> {
        devices_on(alloc, &mut self.conn)
    }

    fn consoles(&mut self, alloc: Global) -> Result<Rows<ConsoleRow>, StoreFault> {
        consoles_on(alloc, &mut self.conn)
    }

    fn replies(&mut self, alloc: Global) -> Result<Rows<ReplyRow>, StoreFault> {
        replies_on(alloc, &mut self.conn)
    }

    fn user(&mut self, _alloc: Global, id: &UserId) -> Result<Option<User>, StoreFault> {
        user_on(&mut self.conn, id)
    }

    fn groups_of(
        &mut self,
        alloc: Global,
        user: &UserId,
        most: u32,
    ) -> Result<Vec<GroupName>, StoreFault> {
        user_groups_on(alloc, &mut self.conn, user, most)
    }

    fn is_active(&mut self, class: Class) -> Result<bool, StoreFault> {
        active_on(&mut self.conn, class)
    }

    fn deciding(
        &mut self,
        alloc: Global,
        class: Class,
        resource: &Resource,
    ) -> Result<Option<Profile>, StoreFault> {
        Ok(self.find_deciding(alloc, class, resource)?.profile)
    }

    fn entries(
        &mut self,
        alloc: Global,
        class: Class,
        pattern: &Pattern,
        most: u32,
    ) -> Result<Entries, StoreFault> {
        entries_on(alloc, &mut self.conn, class, pattern, most)
    }

    fn level_for(
        &mut self,
        class: Class,
        pattern: &Pattern,
        id: &EntryId,
        when: Option<&ConsoleName>,
    ) -> Result<Option<Level>, StoreFault> {
        level_for_on(&mut self.conn, class, pattern, id, when.copied())
    }

    fn is_connected(&mut self, user: &UserId, group: &str) -> Result<bool, StoreFault> {
        is_connected_on(&mut self.conn, user, group)
    }

    fn has_user(&mut self, name: &str) -> Result<bool, StoreFault> {
        has_user_on(&mut self.conn, name)
    }

    fn has_group(&mut self, name: &str) -> Result<bool, StoreFault> {
        has_group_on(&mut self.conn, name)
    }

    fn is_named(&mut self, user: &UserId) -> Result<bool, StoreFault> {
        is_named_on(&mut self.conn, user)
    }

    fn definition(
        &mut self,
        alloc: Global,
        class: Class,
        pattern: &Pattern,
    ) -> Result<Option<Profile>, StoreFault> {
        definition_on(alloc, &mut self.conn, class, pattern)
    }

    fn definitions(&mut self, alloc: Global, class: Class) -> Result<Vec<Profile>, StoreFault> {
        definitions_on(alloc, &mut self.conn, class)
    }

    #[tactic(auto, using(crate::proofs::StoreTablesLemmas::keyed))]
    fn definitions_between(
        &mut self,
        alloc: Global,
        class: Class,
        first: &str,
        last: &str,
    ) -> Result<Vec<Profile>, StoreFault> {
        Store::definitions_between(self, alloc, class, first, last)
    }

    fn profiles(&mut self, alloc: Global, class: Class) -> Result<Vec<Profile>, StoreFault> {
        profiles_of_on(alloc, &mut self.conn, class)
    }

    fn account(
        &mut self,
        alloc: Global,
        from: u64,
        count: u32,
    ) -> Result<Vec<(u64, AccountRow)>, StoreFault> {
        account_page_on(alloc, &mut self.conn, from, count)
    }

    fn batch(&mut self, alloc: Global, number: u32) -> Result<Option<Rows<Row>>, StoreFault> {
        batch_rows_on(alloc, &mut self.conn, number)
    }

    fn has_users(&mut self) -> Result<bool, StoreFault> {
        has_users_on(&mut self.conn)
    }

    fn policy(&mut self, alloc: Global) -> Result<Policy, StoreFault> {
        policy_on(alloc, &mut self.conn)
    }

    fn written(&mut self, alloc: Global) -> Result<Vec<Row>, StoreFault> {
        policy_file_on(alloc, &mut self.conn)
    }

    fn commit(&mut self, alloc: Global, change: &Change) -> Result<(), StoreFault> {
        Store::commit(self, alloc, change)
    }
}
