//! The store as a source of profiles.
use crate::store::Store;
use opc_names::class::Class;
use opc_names::name::Resource;
use opc_policy::source::{ProfileSource, Taken};
use opc_store_search::search::first_in_on;
use opc_terms::store_fault::StoreFault;
use sqlite::Alter;

impl<S: Alter> ProfileSource for Store<S> {
    ghost use Rattle.std.specs.Prelude.{◌≡◌, IsTrue, refl, ⊤};
    ghost use Rattle.sqlite.specs.Held.{state};
    ghost use Rattle.sqlite.specs.State.{HasCleanDisk};
    ghost use Rattle.opc_store_sql.specs.Steps.{Looks};
    ghost use Rattle.opc_state.specs.State.{State};
    ghost use Rattle.opc_store_schema.specs.Represented.{Represents};
    ghost use Rattle.opc_store_search.specs.Search.{unanswered};
    ghost use Rattle.opc_store_sql.proofs.Looking.{looks_off, looks_start};

    // Those of the state that the tables represent, with their access lists.
    ghost has = { λ store profiles. (s : State) × Represents (state S.Store store).now s
        × (profiles ≡ s.policy.profiles) };

    ghost is_ready = { λ _. ⊤ };

    ghost is_faithful = { λ store. HasCleanDisk (state S.Store store) };

    // The tables are read and not changed.
    ghost is_kept = { λ old new. Looks S.Store old new unanswered };

    ghost is_open = { λ store. HasCleanDisk (state S.Store store) → IsTrue (state S.Store store).is_open };

    ghost can_fail_with = { λ _. ⊤ };

    ghost kept_itself = { λ store. looks_start _ unanswered refl store };

    ghost kept_again = { λ store next last first more.
        looks_off _ unanswered store next last first tt unanswered refl more };

    fn first_in(
        &mut self,
        class: Class,
        head: &str,
        resource: &Resource,
    ) -> Result<Taken, StoreFault> {
        first_in_on(self.alloc, &mut self.conn, class, head, resource)
    }
}
