//! Two policies that are compared.
ghost use Rattle.std.specs.Prelude.{◌≡◌, ◌≤◌, IfOk, false, length, true};
ghost use Rattle.std.specs.List.{flat_map};
ghost use Rattle.std.specs.Option.{option_copied};
ghost use Rattle.opc_answers_diff.specs.Sections.{
  AreFoundAt,
  IsCompared,
  NoneFoundAt,
  NoneFoundBetween,
  NothingAt,
  changes_about,
  found_changes,
  kind_changes,
  one_at,
  other_at,
};
ghost use Rattle.opc_answers_diff.specs.Unchanged.{AreEnough};
ghost use Rattle.opc_answers_diff.specs.Verdicts.{user_changes};

use crate::asked::Asked;
use crate::members::{MemberChange, changed_of_both, members_of_both};
use crate::unchanged::is_unchanged;
use crate::verdicts::{UserChange, add_all, user_changes};
use opc_answers::room::Room;
use opc_answers_may::commands::{FormsAsked, profile_at};
use opc_answers_may::values::commands_of;
use opc_names::name::{Pattern, Resource};
use opc_policy_deciders::candidates::{all_among, may_decide_both};
use opc_policy_deciders::decided::patterns_of;
use opc_policy_deciders::kind::{AskedKind, KINDS};
use opc_policy_deciders::pairs::decided_by_both;
use opc_policy_deciders::places::{next_candidate, places_alone};
use opc_policy_members::profile::Profile;
use opc_rows::Rows;
use std::alloc::{AllocError, Global};

/// Two policies, their users side by side, and the patterns of the profiles of OPERCMDS of both in order.
#[derive(Drop)]
pub struct Compared {
    pub before: Room,
    pub after: Room,
    pub members: Rows<MemberChange>,
    /// Those who are not the same on both sides.
    pub changed: Rows<MemberChange>,
    pub patterns: Vec<Pattern>,
    pub others: Vec<Pattern>,
    /// Of each pattern, whether it is on the other side, too.
    pub stand: Vec<bool>,
    pub others_stand: Vec<bool>,
    /// Where the patterns after are that are not on the other side.
    pub alone: Vec<usize>,
}

impl Compared {
    /// Both policies.
    pub fn of(alloc: Global, before: Room, after: Room) -> Result<Self, AllocError>
        ensures before { IfOk result (λ c. c.before ≡ before) }
        ensures after { IfOk result (λ c. c.after ≡ after) }
        ensures compared { IfOk result IsCompared }
    {
        let members = members_of_both(alloc, &before, &after)?;
        let changed = changed_of_both(alloc, &before, &after, members.as_slice())?;
        let patterns = patterns_of(alloc, &before.policy)?;
        let others = patterns_of(alloc, &after.policy)?;
        let stand = all_among(alloc, patterns.as_slice(), others.as_slice())?;
        let others_stand = all_among(alloc, others.as_slice(), patterns.as_slice())?;
        let alone = places_alone(alloc, others_stand.as_slice())?;
        Ok(Compared {
            before,
            after,
            members,
            changed,
            patterns,
            others,
            stand,
            others_stand,
            alone,
        })
    }

    /// The profile at a place before.
    pub fn one_at(&self, at: usize) -> Option<&Profile>
        ensures { option_copied result ≡ one_at self.entry.now at }
    {
        profile_at(&self.before.policy, self.patterns.as_slice(), at)
    }

    /// The profile at a place after.
    pub fn other_at(&self, at: usize) -> Option<&Profile>
        ensures { option_copied result ≡ other_at self.entry.now at }
    {
        profile_at(&self.after.policy, self.others.as_slice(), at)
    }

    /// Those of whom something else can be said where these profiles decide: if nothing changes there, only users who
    /// change.
    pub(crate) fn members_by(
        &self,
        one: Option<&Profile>,
        other: Option<&Profile>,
    ) -> &[MemberChange]
        requires { IsCompared self.now }
        ensures { AreEnough (option_copied one.entry) (option_copied other.entry) result.now self.now.members }
    {
        if is_unchanged(one, other) {
            self.changed.as_slice()
        } else {
            self.members.as_slice()
        }
    }

    /// For each form, the shortest resource that the profiles at these places decide.
    pub fn found_at(
        &self,
        alloc: Global,
        at: usize,
        other_at: usize,
    ) -> Result<Vec<Option<Resource>>, AllocError>
        requires compared { IsCompared self.now }
        requires within { at ≤ length self.now.patterns.items }
        requires other_within { other_at ≤ length self.now.others.items }
        ensures { IfOk result (λ found. AreFoundAt self.now at other_at found.items) }
    {
        let (before, after) = (&self.before.policy, &self.after.policy);
        let (patterns, others) = (self.patterns.as_slice(), self.others.as_slice());
        decided_by_both(alloc, before, after, patterns, others, at, other_at)
    }

    /// Of whom something else is said where these profiles decide.
    fn changes_by(
        &self,
        alloc: Global,
        asked: &Asked,
        one: Option<&Profile>,
        other: Option<&Profile>,
    ) -> Result<Vec<UserChange>, AllocError>
        requires { IsCompared self.now }
        ensures { IfOk result (λ list. list.items ≡ user_changes asked.now (option_copied one.entry)
            (option_copied other.entry) self.now.members) }
    {
        let members = self.members_by(one, other);
        user_changes(alloc, asked, one, other, members)
    }

    /// Of whom something else is said there.
    fn kind_changes(
        &self,
        alloc: Global,
        kind: &AskedKind,
        at: usize,
        other_at: usize,
    ) -> Result<Vec<UserChange>, AllocError>
        requires { IsCompared self.now }
        ensures { IfOk result (λ list. list.items ≡ kind_changes self.now kind.now at other_at) }
    {
        let (one, other) = (self.one_at(at), self.other_at(other_at));
        self.changes_by(alloc, &Asked::Resource(*kind), one, other)
    }

    /// Whether the profiles at these places may decide one resource: of most pairs it is known at once that they do
    /// not.
    fn may_decide_at(&self, at: usize, other_at: usize) -> bool
        requires { IsCompared self.now }
        ensures { result ≡ false → NoneFoundAt self.now at other_at }
    {
        let (patterns, others) = (self.patterns.as_slice(), self.others.as_slice());
        let (stand, others_stand) = (self.stand.as_slice(), self.others_stand.as_slice());
        may_decide_both(patterns, others, stand, others_stand, at, other_at)
    }

    /// The first place after, from one on, whose profile may decide a resource with that at a place before; the end, if
    /// there is none.
    pub fn next_at(&self, at: usize, from: usize) -> usize
        requires compared { IsCompared self.now }
        requires from { from ≤ length self.now.others.items }
        ensures within { (from ≤ result) × (result ≤ length self.now.others.items) }
        ensures none { NoneFoundBetween self.now at from result }
    {
        let (patterns, others) = (self.patterns.as_slice(), self.others.as_slice());
        let (stand, others_stand) = (self.stand.as_slice(), self.others_stand.as_slice());
        let alone = self.alone.as_slice();
        next_candidate(patterns, others, stand, others_stand, alone, at, from)
    }

    /// Of whom something else is said there, about forms of any of these kinds.
    fn all_changes(
        &self,
        alloc: Global,
        kinds: &[AskedKind],
        at: usize,
        other_at: usize,
    ) -> Result<Vec<UserChange>, AllocError>
        requires { IsCompared self.now }
        ensures { IfOk result (λ list. list.items ≡ flat_map (changes_about self.now at other_at) kinds.now) }
    {
        let mut list = Vec::new(alloc);
        for kind in kinds {
            let changes = self.kind_changes(alloc, kind, at, other_at)?;
            add_all(&mut list, changes.as_slice())?;
        }
        Ok(list)
    }

    /// Whether something may change there: one resource is decided by both profiles, and something else is said of
    /// somebody. Most often it is known at once that nothing does. Where a profile changes, the search for a resource
    /// takes less time than all users do.
    pub fn may_change_at(
        &self,
        alloc: Global,
        at: usize,
        other_at: usize,
    ) -> Result<bool, AllocError>
        requires { IsCompared self.now }
        ensures { IfOk result (λ changes. changes ≡ false → NothingAt self.now at other_at) }
    {
        if !self.may_decide_at(at, other_at) {
            return Ok(false);
        }
        if !is_unchanged(self.one_at(at), self.other_at(other_at)) {
            return Ok(true);
        }
        let changes = self.all_changes(alloc, &KINDS, at, other_at)?;
        Ok(!changes.as_slice().is_empty())
    }

    /// Of whom something else is said about what is found there. Without forms of the kind no user is compared.
    pub fn found_changes(
        &self,
        alloc: Global,
        kind: &AskedKind,
        found: &[Option<Resource>],
        at: usize,
        other_at: usize,
    ) -> Result<Vec<UserChange>, AllocError>
        requires { IsCompared self.now }
        ensures { IfOk result (λ list. list.items ≡ found_changes self.now kind.now found.now at other_at) }
    {
        let names = commands_of(alloc, &FormsAsked::OfKind(*kind), found)?;
        if names.as_slice().is_empty() {
            return Ok(Vec::new(alloc));
        }
        self.kind_changes(alloc, kind, at, other_at)
    }
}
