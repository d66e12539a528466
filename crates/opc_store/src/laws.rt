//! What a crash leaves of a store, what it is as a source of profiles, and its answers once it is closed; each law as
//! what a call without a body ensures.
ghost use Rattle.opc_store.specs.StoreLaws.{
  IsSourceOfState,
  LeavesTables,
  LeavesWhatIsThere,
  ShutTablesGiveNothing,
  ShutTablesReturnNothing,
};

use crate::store::Store;
use opc_policy::source::ProfileSource;
use opc_state::tables::Tables;
use sqlite::Alter;

/// If a crash can leave only one state of a store, what it leaves are tables of that state.
pub fn a_state_left_alone_is_left_as_tables<S: Alter>()
    ensures { LeavesTables S.Store ⟦<Store<S> as Tables>⟧.meaning }
{}

/// After an opening, a crash leaves only the state that is there.
pub fn what_is_there_is_left_alone<S: Alter>()
    ensures { LeavesWhatIsThere S.Store ⟦<Store<S> as Tables>⟧.meaning }
{}

/// A store may be searched at any time: it has the profiles of the state that its tables represent, and its answers
/// count if the disk returned what was written.
pub fn a_store_has_the_profiles_of_its_state<S: Alter>()
    ensures { IsSourceOfState S.Store ⟦<Store<S> as ProfileSource>⟧.has ⟦<Store<S> as ProfileSource>⟧.is_ready
        ⟦<Store<S> as ProfileSource>⟧.is_faithful }
{}

/// Once a fault of the disk has closed the tables, each load returns a fault, and they stay closed.
pub fn closed_tables_answer_nothing<S: Alter, V, W, E>()
    ensures keeps { ShutTablesGiveNothing S.Store V E }
    ensures answers { ShutTablesReturnNothing S.Store V W E }
{}
