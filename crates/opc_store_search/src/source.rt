//! The tables as a source of profiles.
use crate::search::first_with_head_on;
use opc_names::class::Class;
use opc_names::name::Resource;
use opc_policy::source::{ProfileSource, Taken};
use opc_terms::store_fault::StoreFault;
use sqlite::{Alter, Connection};
use std::alloc::Global;

/// The profiles that the tables of an open connection represent, each without its access list.
#[derive(Drop)]
pub(crate) struct TableProfiles<'a, S: Alter> {
    pub alloc: Global,
    pub conn: &'a mut Connection<S>,
}

impl<S: Alter> ProfileSource for TableProfiles<'_, S> {
    ghost use Rattle.std.specs.Prelude.{◌≡◌, IsTrue, map, refl, false, ⊤};
    ghost use Rattle.std.proofs.Common.{◌∙◌};
    ghost use Rattle.sqlite.specs.Held.{state};
    ghost use Rattle.sqlite.specs.State.{HasCleanDisk};
    ghost use Rattle.opc_store_sql.specs.Steps.{Looks};
    ghost use Rattle.opc_state.specs.Loads.{bare};
    ghost use Rattle.opc_state.specs.State.{State};
    ghost use Rattle.opc_store_schema.specs.Represented.{Represents};
    ghost use Rattle.opc_store_search.specs.Search.{unanswered};
    ghost use Rattle.opc_store_sql.proofs.Looking.{looks_off, looks_start};

    ghost has = { λ source profiles. (s : State) × Represents (state S.Store source.conn.now).now s
        × (profiles ≡ map bare s.policy.profiles) };

    ghost is_ready = { λ source. source.conn.now.in_transaction ≡ false };

    ghost is_faithful = { λ source. HasCleanDisk (state S.Store source.conn.now) };

    // The same connection, whose tables are read and not changed.
    ghost is_kept = { λ old new. (new.conn.ghost_name ≡ old.conn.ghost_name)
        × Looks S.Store old.conn.now new.conn.now unanswered };

    ghost is_open = { λ source. HasCleanDisk (state S.Store source.conn.now)
        → IsTrue (state S.Store source.conn.now).is_open };

    ghost can_fail_with = { λ _. ⊤ };

    ghost kept_itself = { λ source. (refl, looks_start _ unanswered refl source.conn.now) };

    ghost kept_again = { λ source next last first more. (
      more.0 ∙ first.0,
      looks_off _ unanswered source.conn.now next.conn.now last.conn.now first.1 tt unanswered refl
          more.1,
    ) };

    fn first_in(
        &mut self,
        class: Class,
        head: &str,
        resource: &Resource,
    ) -> Result<Taken, StoreFault> {
        first_with_head_on(self.alloc, self.conn, class, head, resource)
    }
}
