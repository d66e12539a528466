//! Why a user may or may not have a level of access to a resource.
ghost use Rattle.std.specs.Prelude.{◌≡◌, ◌≢◌, IfOk, IfErr, IsOk, Ok, Err, find};
ghost use Rattle.std.specs.List.{AllPairs};
ghost use Rattle.std.specs.Option.{option_copied};
ghost use Rattle.opc_names.specs.Order.{Before};
ghost use Rattle.opc_names.specs.Patterns.{tokens, covers_text};
ghost use Rattle.opc_policy_members.specs.Profiles.{of_class, AreMostSpecificFirst};
ghost use Rattle.opc_policy.specs.Deciding.{deciding};
ghost use Rattle.opc_policy.specs.Explained.{covering_patterns, is_covering, explanation};

use crate::covering::{covering_from, first_covering};
use crate::ruling::profile_ruling;
use crate::verdict::Verdict;
use opc_names::class::Class;
use opc_names::level::Level;
use opc_names::name::{ConsoleName, Pattern, Resource, UserId};
use opc_policy_members::policy::Policy;
use opc_policy_members::profile::Profile;
use opc_policy_members::profiles::Profiles;
use opc_terms::fault::{Fault, Subject};
use opc_terms::rule::Rule;
use std::alloc::{AllocError, Global};
use std::fmt;
use std::marker::Model;
use std::ops::Bound;

/// Patterns, each before all later ones.
#[derive(Drop)]
pub struct Patterns {
    list: Vec<Pattern>,
}

impl Model for Patterns {
    ghost use Rattle.std.specs.Prelude.{List, ℕ};

    ghost Value = { List (List ℕ) };

    ghost view = { λ p. p.list.items };
}

impl Patterns {
    /// The patterns, in order.
    pub fn as_slice(&self) -> &[Pattern]
        ensures { result.now ≡ self.now }
    {
        self.list.as_slice()
    }
}

/// The profiles of a class that cover a resource, by their patterns, the verdict on a user and a level, and the
/// rule of the verdict.
#[derive(Drop)]
pub struct Explained {
    pub covering: Patterns,
    pub verdict: Verdict,
    pub rule: Rule,
}

/// Explains the access of a user to a resource of a class, at a console if one is given.
pub fn explain(
    alloc: Global,
    policy: &Policy,
    class: Class,
    resource: &Resource,
    id: &UserId,
    console: Option<&ConsoleName>,
    needed: Level,
) -> Result<Explained, Fault>
    ensures ok { IfOk result (λ explained. explanation policy.now class resource.now id.now
        (option_copied console.entry) needed ≡ Ok explained) }
    ensures in_order { IfOk result (λ explained. AllPairs (λ p q. Before (tokens p) (tokens q)) explained.covering) }
    ensures fault { IfErr result (λ fault. fault ≢ Fault.NoMemory →
        explanation policy.now class resource.now id.now (option_copied console.entry) needed ≡ Err fault) }
    ensures memory { IfErr result (λ fault. fault ≡ Fault.NoMemory →
        IsOk (explanation policy.now class resource.now id.now (option_copied console.entry) needed)) }
{
    let Some(user) = policy.users.get(id) else {
        return Err(Fault::Missing(Subject::of(id)));
    };
    let groups = policy.connects.groups_of(alloc, id)?;
    let covering = covering_patterns(alloc, &policy.profiles, class, resource)?;
    let (verdict, rule) = match decided(&policy.profiles, class, resource) {
        Some(profile) if policy.active.contains(class) => {
            let ruling = profile_ruling(profile, user, console, &groups, needed);
            (ruling.verdict(), ruling.rule())
        }
        // No profile covers the resource, or the class is inactive.
        _ => (Verdict::Undecided, Rule::NoProfile),
    };
    Ok(Explained {
        covering,
        verdict,
        rule,
    })
}

/// The profile that decides: the first that covers, since profiles are in the order of their patterns.
fn decided<'a>(profiles: &'a Profiles, class: Class, resource: &Resource) -> Option<&'a Profile>
    ensures { option_copied result ≡ deciding (of_class class profiles.now) resource.now }
{
    first_covering(profiles, class, resource)
}

/// The patterns of the profiles of a class that cover a resource, in their order.
fn covering_patterns(
    alloc: Global,
    profiles: &Profiles,
    class: Class,
    resource: &Resource,
) -> Result<Patterns, AllocError>
    ensures patterns { IfOk result (λ patterns. patterns ≡ covering_patterns class resource.now profiles.now) }
    ensures in_order { AllPairs (λ p q. Before (tokens p) (tokens q))
        (covering_patterns class resource.now profiles.now) }
{
    let mut list = Vec::new(alloc);
    let mut start = Bound::Unbounded;
    while let Some(profile) = covering_from(profiles, class, resource, start) {
        list.push(profile.pattern)?;
        start = Bound::Excluded(profile.pattern.sort_key());
    }
    Ok(Patterns { list })
}

impl fmt::Display for Explained {
    ghost use Rattle.std.specs.Prelude.{Some};
    ghost use Rattle.opc_policy.specs.Explained.{explained_text};

    ghost output = { λ explained. Some (explained_text explained) };

    /// A line for each pattern, and one for the verdict and its rule, each ended by a line feed.
    fn fmt<W: fmt::Write>(&self, f: &mut fmt::Formatter<W>) -> fmt::Result {
        for pattern in self.covering.as_slice() {
            write!(f, "COVERS {pattern}\n")?;
        }
        let verdict = self.verdict;
        let rule = self.rule;
        write!(f, "{verdict} {rule}\n")
    }
}
