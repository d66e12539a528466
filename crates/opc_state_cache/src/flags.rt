//! What is known of the flags that nearly every request needs: whether the day is halted, and which classes are active.
ghost use Rattle.std.specs.Prelude.{◌≡◌};
ghost use Rattle.opc_state_cache.specs.Flags.{known_active, unknown, with_active, with_halted};

use opc_names::class::Class;

/// The flags that were loaded since one of them was last set.
#[derive(Clone, Copy)]
pub(crate) struct Flags {
    pub(crate) halted: Option<bool>,
    pub(crate) console: Option<bool>,
    pub(crate) opercmds: Option<bool>,
}

impl Flags {
    pub(crate) fn unknown() -> Self
        ensures { result ≡ unknown }
    {
        Flags {
            halted: None,
            console: None,
            opercmds: None,
        }
    }

    /// Whether a class is active, if that is known.
    pub(crate) fn active(&self, class: Class) -> Option<bool>
        ensures { result ≡ known_active self.now class }
    {
        match class {
            Class::Console => self.console,
            Class::Opercmds => self.opercmds,
        }
    }

    pub(crate) fn set_active(&mut self, class: Class, active: bool)
        ensures { self.new ≡ with_active class active self.old }
    {
        match class {
            Class::Console => self.console = Some(active),
            Class::Opercmds => self.opercmds = Some(active),
        }
    }

    pub(crate) fn set_halted(&mut self, halted: bool)
        ensures { self.new ≡ with_halted halted self.old }
    {
        self.halted = Some(halted);
    }
}
