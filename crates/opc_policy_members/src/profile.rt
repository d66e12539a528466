//! Profiles.
ghost use Rattle.std.specs.Prelude.{◌≡◌};
ghost use Rattle.std.specs.Option.{option_copied};

use crate::entries::{Entries, higher_level};
use crate::user::User;
use opc_names::class::Class;
use opc_names::level::Level;
use opc_names::name::{ConsoleName, GroupName, Pattern, UserId};

/// What a class requires for the resources that a pattern covers: who owns the profile, the universal access, whether
/// it only warns, and the access list (RACF guide: general resource profile).
#[derive(Clone, Drop)]
pub struct Profile {
    pub class: Class,
    pub pattern: Pattern,
    pub owner: UserId,
    pub uacc: Level,
    pub warning: bool,
    pub entries: Entries,
}

impl Profile {
    ghost use Rattle.opc_names.specs.Authority.{same_class};
    ghost use Rattle.std.specs.Prelude.{unwrap_or};
    ghost use Rattle.opc_policy_members.specs.Access.{higher_level};
    ghost use Rattle.opc_policy_members.specs.Held.{universal_level, conditional_level, held};

    /// Whether it is a profile of a class.
    pub fn is_of(&self, class: Class) -> bool
        ensures { result ≡ same_class self.now.class class }
    {
        match (self.class, class) {
            (Class::Console, Class::Console) | (Class::Opercmds, Class::Opercmds) => true,
            // The two classes differ.
            _ => false,
        }
    }

    /// The level that a user who is connected to these groups holds at a console: the higher of the level that holds at
    /// every console and the one at this console alone.
    #[tactic(auto, unfolding(crate::specs::Held::held))]
    pub fn level_of(
        &self,
        user: &User,
        console: Option<&ConsoleName>,
        groups: &[GroupName],
    ) -> Level
        ensures { result ≡ held self.now user.now (option_copied console.entry) groups.now }
    {
        let plain = self.entries.first_level(None, user, groups);
        self.level_from(user, plain, self.conditional_level(user, console, groups))
    }

    /// The level by the entries for one console alone; without a console none of them counts.
    fn conditional_level(
        &self,
        user: &User,
        console: Option<&ConsoleName>,
        groups: &[GroupName],
    ) -> Option<Level>
        ensures { unwrap_or result Level.None ≡ conditional_level self.now user.now (option_copied console.entry)
            groups.now }
    {
        if console.is_none() {
            return None;
        }
        self.entries.first_level(console, user, groups)
    }

    /// The level that a user holds by the entries that apply: those for every console, and those for one console alone.
    /// Without one of the former, there is the universal access.
    pub fn level_from(&self, user: &User, plain: Option<Level>, conditional: Option<Level>) -> Level
        ensures { result ≡ higher_level (unwrap_or plain (universal_level self.now user.now))
            (unwrap_or conditional Level.None) }
    {
        let plain = plain.unwrap_or(self.universal_level(user));
        higher_level(plain, conditional.unwrap_or(Level::None))
    }

    /// What is given to users without an entry; a RESTRICTED user gets nothing of it.
    fn universal_level(&self, user: &User) -> Level
        ensures { result ≡ universal_level self.now user.now }
    {
        if user.restricted {
            Level::None
        } else {
            self.uacc
        }
    }
}
