//! The tables that the machine loads from, with the cache before them.

use crate::cached::{Cached, cached_pattern};
use opc_board::rows::{ConsoleRow, DeviceRow, ReplyRow, UnitRow};
use opc_names::class::Class;
use opc_names::level::Level;
use opc_names::name::{ConsoleName, Device, GroupName, Pattern, Resource, UnitName, UserId};
use opc_names::reply_id::ReplyId;
use opc_policy_members::entries::Entries;
use opc_policy_members::policy::Policy;
use opc_policy_members::profile::Profile;
use opc_policy_members::row::Row;
use opc_policy_members::user::User;
use opc_rows::Rows;
use opc_state::account::AccountRow;
use opc_state::change::Change;
use opc_state::tables::Tables;
use opc_terms::entry_id::EntryId;
use opc_terms::store_fault::StoreFault;
use std::alloc::Global;

impl<T: Tables> Tables for Cached<T> {
    ghost use Rattle.opc_state_cache.specs.Meaning.{cached_meaning};

    ghost meaning = { cached_meaning T.meaning };

    fn console(&mut self, name: &ConsoleName) -> Result<Option<ConsoleRow>, StoreFault> {
        self.tables.console(name)
    }

    fn unit(&mut self, name: &UnitName) -> Result<Option<UnitRow>, StoreFault> {
        self.tables.unit(name)
    }

    fn device(&mut self, number: &Device) -> Result<Option<DeviceRow>, StoreFault> {
        self.tables.device(number)
    }

    fn reply(&mut self, id: ReplyId) -> Result<Option<ReplyRow>, StoreFault> {
        self.tables.reply(id)
    }

    fn is_halted(&mut self) -> Result<bool, StoreFault> {
        if let Some(halted) = self.flags.halted {
            return Ok(halted);
        }
        let halted = self.tables.is_halted()?;
        self.flags.set_halted(halted);
        Ok(halted)
    }

    fn devices_of(
        &mut self,
        alloc: Global,
        unit: &UnitName,
    ) -> Result<Rows<DeviceRow>, StoreFault> {
        self.tables.devices_of(alloc, unit)
    }

    fn consoles_of(
        &mut self,
        alloc: Global,
        user: &UserId,
    ) -> Result<Rows<ConsoleRow>, StoreFault> {
        self.tables.consoles_of(alloc, user)
    }

    fn masters(&mut self, alloc: Global) -> Result<Rows<ConsoleRow>, StoreFault> {
        self.tables.masters(alloc)
    }

    fn units(&mut self, alloc: Global) -> Result<Rows<UnitRow>, StoreFault> {
        self.tables.units(alloc)
    }

    fn devices(&mut self, alloc: Global) -> Result<Rows<DeviceRow>, StoreFault> {
        self.tables.devices(alloc)
    }

    fn consoles(&mut self, alloc: Global) -> Result<Rows<ConsoleRow>, StoreFault> {
        self.tables.consoles(alloc)
    }

    fn replies(&mut self, alloc: Global) -> Result<Rows<ReplyRow>, StoreFault> {
        self.tables.replies(alloc)
    }

    fn user(&mut self, alloc: Global, id: &UserId) -> Result<Option<User>, StoreFault> {
        self.tables.user(alloc, id)
    }

    fn groups_of(
        &mut self,
        alloc: Global,
        user: &UserId,
        most: u32,
    ) -> Result<Vec<GroupName>, StoreFault> {
        self.tables.groups_of(alloc, user, most)
    }

    fn is_active(&mut self, class: Class) -> Result<bool, StoreFault> {
        if let Some(active) = self.flags.active(class) {
            return Ok(active);
        }
        let active = self.tables.is_active(class)?;
        self.flags.set_active(class, active);
        Ok(active)
    }

    fn deciding(
        &mut self,
        alloc: Global,
        class: Class,
        resource: &Resource,
    ) -> Result<Option<Profile>, StoreFault> {
        match self.recent.get(class, resource) {
            Some(pattern) => cached_pattern(&mut self.tables, alloc, class, pattern),
            None => self.search(alloc, class, resource),
        }
    }

    fn entries(
        &mut self,
        alloc: Global,
        class: Class,
        pattern: &Pattern,
        most: u32,
    ) -> Result<Entries, StoreFault> {
        self.tables.entries(alloc, class, pattern, most)
    }

    fn level_for(
        &mut self,
        class: Class,
        pattern: &Pattern,
        id: &EntryId,
        when: Option<&ConsoleName>,
    ) -> Result<Option<Level>, StoreFault> {
        self.tables.level_for(class, pattern, id, when)
    }

    fn is_connected(&mut self, user: &UserId, group: &str) -> Result<bool, StoreFault> {
        self.tables.is_connected(user, group)
    }

    fn has_user(&mut self, name: &str) -> Result<bool, StoreFault> {
        self.tables.has_user(name)
    }

    fn has_group(&mut self, name: &str) -> Result<bool, StoreFault> {
        self.tables.has_group(name)
    }

    fn is_named(&mut self, user: &UserId) -> Result<bool, StoreFault> {
        self.tables.is_named(user)
    }

    fn definition(
        &mut self,
        alloc: Global,
        class: Class,
        pattern: &Pattern,
    ) -> Result<Option<Profile>, StoreFault> {
        self.tables.definition(alloc, class, pattern)
    }

    fn definitions(&mut self, alloc: Global, class: Class) -> Result<Vec<Profile>, StoreFault> {
        self.tables.definitions(alloc, class)
    }

    fn definitions_between(
        &mut self,
        alloc: Global,
        class: Class,
        first: &str,
        last: &str,
    ) -> Result<Vec<Profile>, StoreFault> {
        self.tables.definitions_between(alloc, class, first, last)
    }

    fn profiles(&mut self, alloc: Global, class: Class) -> Result<Vec<Profile>, StoreFault> {
        self.tables.profiles(alloc, class)
    }

    fn account(
        &mut self,
        alloc: Global,
        from: u64,
        count: u32,
    ) -> Result<Vec<(u64, AccountRow)>, StoreFault> {
        self.tables.account(alloc, from, count)
    }

    fn batch(&mut self, alloc: Global, number: u32) -> Result<Option<Rows<Row>>, StoreFault> {
        self.tables.batch(alloc, number)
    }

    fn has_users(&mut self) -> Result<bool, StoreFault> {
        self.tables.has_users()
    }

    fn policy(&mut self, alloc: Global) -> Result<Policy, StoreFault> {
        self.tables.policy(alloc)
    }

    fn written(&mut self, alloc: Global) -> Result<Vec<Row>, StoreFault> {
        self.tables.written(alloc)
    }

    fn commit(&mut self, alloc: Global, change: &Change) -> Result<(), StoreFault> {
        self.invalidate_for(alloc, change)?;
        self.tables.commit(alloc, change)
    }
}
