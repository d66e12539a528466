//! What the machine requires of the tables that keep its state.
ghost use Rattle.std.specs.Prelude.{◌≡◌, ◌⊎◌, map, take, OnOk, OnErr};
ghost use Rattle.std.specs.Option.{option_copied, option_map};
ghost use Rattle.opc_board.specs.Invariants.{console_at, device_at, reply_at, unit_at};
ghost use Rattle.opc_policy_members.specs.Profiles.{AreProfiles, of_class, profile_of};
ghost use Rattle.opc_policy_shared.specs.Shared.{with_heads_between};
ghost use Rattle.opc_policy_members.specs.Members.{user_of, groups_of};
ghost use Rattle.opc_policy_members.specs.Taken.{has_group, has_user, is_active};
ghost use Rattle.opc_state.specs.Asked.{Answers, Loads};
ghost use Rattle.opc_state.specs.Invariants.{IsKeyed};
ghost use Rattle.opc_state.specs.Loads.{
  access_list,
  asked_for,
  bare,
  batch_rows,
  consoles_of,
  devices_of,
  is_connected,
  is_named,
  level_for,
  masters,
};
ghost use Rattle.opc_state.specs.Meaning.{Meaning};
ghost use Rattle.opc_state.specs.PolicyFile.{rows_of};
ghost use Rattle.opc_state.specs.State.{State, Fits, deciding_in, has_users};
ghost use Rattle.opc_state.specs.Changes.{changed_by};

use crate::account::AccountRow;
use crate::change::Change;
use opc_board::rows::{ConsoleRow, DeviceRow, ReplyRow, UnitRow};
use opc_names::class::Class;
use opc_names::level::Level;
use opc_names::name::{ConsoleName, Device, GroupName, Pattern, Resource, UnitName, UserId};
use opc_names::reply_id::ReplyId;
use opc_policy_members::entries::Entries;
use opc_policy_members::policy::Policy;
use opc_policy_members::profile::Profile;
use opc_policy_members::row::Row;
use opc_policy_members::user::User;
use opc_rows::Rows;
use opc_terms::entry_id::EntryId;
use opc_terms::store_fault::StoreFault;
use std::alloc::Global;

/// Tables that keep a state: loads by key, none of which reads the histories, and one commit.
pub trait Tables {
    /// Which states they represent, and which a crash may leave.
    ghost meaning: { Meaning Self };

    /// The console of a name.
    fn console(&mut self, name: &ConsoleName) -> Result<Option<ConsoleRow>, StoreFault>
        ensures console { Loads meaning self.old self.new result (λ s row. row ≡ console_at s.board name.now) }
        ensures keyed { Answers meaning self.old self.new result (λ s _. IsKeyed s) };

    /// The unit of work of a name.
    fn unit(&mut self, name: &UnitName) -> Result<Option<UnitRow>, StoreFault>
        ensures { Loads meaning self.old self.new result (λ s row. row ≡ unit_at s.board name.now) };

    /// The device of a number.
    fn device(&mut self, number: &Device) -> Result<Option<DeviceRow>, StoreFault>
        ensures { Loads meaning self.old self.new result (λ s row. row ≡ device_at s.board number.now) };

    /// The open reply of a number.
    fn reply(&mut self, id: ReplyId) -> Result<Option<ReplyRow>, StoreFault>
        ensures { Loads meaning self.old self.new result (λ s row. row ≡ reply_at s.board id) };

    /// Whether the day is halted.
    fn is_halted(&mut self) -> Result<bool, StoreFault>
        ensures halted { Loads meaning self.old self.new result (λ s halted. halted ≡ s.board.halted) }
        ensures keyed { Answers meaning self.old self.new result (λ s _. IsKeyed s) };

    /// The devices that a unit has, in order.
    fn devices_of(&mut self, alloc: Global, unit: &UnitName) -> Result<Rows<DeviceRow>, StoreFault>
        ensures { Loads meaning self.old self.new result (λ s rows. rows ≡ devices_of s.board unit.now) };

    /// The consoles where a user is logged on, in order.
    fn consoles_of(&mut self, alloc: Global, user: &UserId) -> Result<Rows<ConsoleRow>, StoreFault>
        ensures { Loads meaning self.old self.new result (λ s rows. rows ≡ consoles_of s.board user.now) };

    /// The online consoles with AUTH MASTER, in order, at most two: with two, at least one is not the console that is
    /// named.
    fn masters(&mut self, alloc: Global) -> Result<Rows<ConsoleRow>, StoreFault>
        ensures { Loads meaning self.old self.new result (λ s rows. rows ≡ take 2 (masters s.board)) };

    /// All units of work, in order.
    fn units(&mut self, alloc: Global) -> Result<Rows<UnitRow>, StoreFault>
        ensures { Loads meaning self.old self.new result (λ s rows. rows ≡ s.board.units) };

    /// All devices, in order.
    fn devices(&mut self, alloc: Global) -> Result<Rows<DeviceRow>, StoreFault>
        ensures { Loads meaning self.old self.new result (λ s rows. rows ≡ s.board.devices) };

    /// All consoles, in order.
    fn consoles(&mut self, alloc: Global) -> Result<Rows<ConsoleRow>, StoreFault>
        ensures { Loads meaning self.old self.new result (λ s rows. rows ≡ s.board.consoles) };

    /// All open replies, in order.
    fn replies(&mut self, alloc: Global) -> Result<Rows<ReplyRow>, StoreFault>
        ensures { Loads meaning self.old self.new result (λ s rows. rows ≡ s.board.replies) };

    /// The user of an id.
    fn user(&mut self, alloc: Global, id: &UserId) -> Result<Option<User>, StoreFault>
        ensures { Loads meaning self.old self.new result (λ s user. user ≡ user_of s.policy.users id.now) };

    /// The groups that a user is connected to, at most as many as requested, in order.
    fn groups_of(
        &mut self,
        alloc: Global,
        user: &UserId,
        most: u32,
    ) -> Result<Vec<GroupName>, StoreFault>
        ensures { Loads meaning self.old self.new result
            (λ s groups. groups.items ≡ take most (groups_of s.policy.connects user.now)) };

    /// Whether a class is active.
    fn is_active(&mut self, class: Class) -> Result<bool, StoreFault>
        ensures { Loads meaning self.old self.new result (λ s active. active ≡ is_active s.policy.active class) };

    /// The profile of a class that decides a resource, but without its access list.
    fn deciding(
        &mut self,
        alloc: Global,
        class: Class,
        resource: &Resource,
    ) -> Result<Option<Profile>, StoreFault>
        ensures found { Loads meaning self.old self.new result
            (λ s profile. profile ≡ option_map bare (deciding_in s.policy class resource.now)) }
        ensures keyed { Answers meaning self.old self.new result (λ s _. IsKeyed s) };

    /// The access list of a profile, at most as many entries as requested.
    fn entries(
        &mut self,
        alloc: Global,
        class: Class,
        pattern: &Pattern,
        most: u32,
    ) -> Result<Entries, StoreFault>
        ensures { Loads meaning self.old self.new result
            (λ s entries. entries ≡ take most (access_list s.policy class pattern.now)) };

    /// The level of the entry of a profile for an id, at one console or, if none is given, at every console.
    fn level_for(
        &mut self,
        class: Class,
        pattern: &Pattern,
        id: &EntryId,
        when: Option<&ConsoleName>,
    ) -> Result<Option<Level>, StoreFault>
        ensures { Loads meaning self.old self.new result
            (λ s level. level ≡ level_for s.policy class pattern.now id.now (option_copied when.entry)) };

    /// Whether a user is connected to a group of this name.
    fn is_connected(&mut self, user: &UserId, group: &str) -> Result<bool, StoreFault>
        ensures { Loads meaning self.old self.new result
            (λ s connected. connected ≡ is_connected s.policy user.now group.now) };

    /// Whether a user has this name.
    fn has_user(&mut self, name: &str) -> Result<bool, StoreFault>
        ensures { Loads meaning self.old self.new result (λ s there. there ≡ has_user s.policy name.now) };

    /// Whether a group has this name.
    fn has_group(&mut self, name: &str) -> Result<bool, StoreFault>
        ensures { Loads meaning self.old self.new result (λ s there. there ≡ has_group s.policy name.now) };

    /// Whether a connect, an owner or an access list names this user.
    fn is_named(&mut self, user: &UserId) -> Result<bool, StoreFault>
        ensures { Loads meaning self.old self.new result (λ s named. named ≡ is_named s.policy user.now) };

    /// The profile of a class and a pattern, but without its access list.
    fn definition(
        &mut self,
        alloc: Global,
        class: Class,
        pattern: &Pattern,
    ) -> Result<Option<Profile>, StoreFault>
        ensures { Loads meaning self.old self.new result
            (λ s profile. profile ≡ option_map bare (profile_of s.policy.profiles class pattern.now)) };

    /// The profiles of a class, in the order of their patterns, but without their access lists.
    fn definitions(&mut self, alloc: Global, class: Class) -> Result<Vec<Profile>, StoreFault>
        ensures { Loads meaning self.old self.new result
            (λ s profiles. profiles.items ≡ map bare (of_class class s.policy.profiles)) };

    /// The profiles of a class whose heads lie between two texts, both among them, in the order of their patterns, but
    /// for their access lists.
    fn definitions_between(
        &mut self,
        alloc: Global,
        class: Class,
        first: &str,
        last: &str,
    ) -> Result<Vec<Profile>, StoreFault>
        ensures found { Loads meaning self.old self.new result
            (λ s profiles. profiles.items
            ≡ with_heads_between first.now last.now (map bare (of_class class s.policy.profiles))) }
        ensures keyed { Answers meaning self.old self.new result (λ s _. IsKeyed s) }
        ensures valid { Answers meaning self.old self.new result
            (λ s _. AreProfiles (map bare (of_class class s.policy.profiles))) };

    /// The profiles of a class, in the order of their patterns.
    fn profiles(&mut self, alloc: Global, class: Class) -> Result<Vec<Profile>, StoreFault>
        ensures { Loads meaning self.old self.new result
            (λ s profiles. profiles.items ≡ of_class class s.policy.profiles) };

    /// The rows of the account from a number on, at most as many as requested, with their numbers, which begin at 1.
    fn account(
        &mut self,
        alloc: Global,
        from: u64,
        count: u32,
    ) -> Result<Vec<(u64, AccountRow)>, StoreFault>
        ensures { Loads meaning self.old self.new result (λ s rows. rows.items ≡ asked_for from count s.account) };

    /// The rows of the batch of a number, if it is stored.
    fn batch(&mut self, alloc: Global, number: u32) -> Result<Option<Rows<Row>>, StoreFault>
        ensures { Loads meaning self.old self.new result (λ s rows. rows ≡ batch_rows s.batches number) };

    /// Whether a user is stored.
    fn has_users(&mut self) -> Result<bool, StoreFault>
        ensures { Loads meaning self.old self.new result (λ s some. some ≡ has_users s.policy) };

    /// The whole policy.
    fn policy(&mut self, alloc: Global) -> Result<Policy, StoreFault>
        ensures { Loads meaning self.old self.new result (λ s policy. policy ≡ s.policy) };

    /// The policy and the consoles, as the rows of a policy file.
    fn written(&mut self, alloc: Global) -> Result<Vec<Row>, StoreFault>
        ensures { Loads meaning self.old self.new result (λ s rows. rows.items ≡ rows_of s.policy s.board.consoles) };

    /// Writes all of a change, or nothing. A crash leaves the state before or after it; once it is acknowledged,
    /// only the state after it.
    fn commit(&mut self, alloc: Global, change: &Change) -> Result<(), StoreFault>
        ensures sure { meaning.is_sure self.new → meaning.is_sure self.old }
        ensures done { meaning.is_sure self.new → (s : State) → meaning.represents self.old s
            → OnOk result (meaning.represents self.new (changed_by change.now s)) }
        ensures fits { meaning.is_sure self.new → (s : State) → meaning.represents self.old s
            → OnOk result (Fits s → Fits (changed_by change.now s)) }
        ensures failed { meaning.is_sure self.new → (s : State) → meaning.represents self.old s
            → OnErr result (meaning.represents self.new s) }
        ensures acknowledged { meaning.is_sure self.new → (s : State) → meaning.represents self.old s
            → OnOk result ((left : State) → meaning.may_leave self.new left → left ≡ changed_by change.now s) }
        ensures crash { meaning.is_sure self.new → (s : State) → meaning.represents self.old s → (left : State)
            → meaning.may_leave self.new left → meaning.may_leave self.old left ⊎ (left ≡ changed_by change.now s) };
}
