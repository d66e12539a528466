//! Tables in memory.
use anyhow::Result;
use opc_names::class::Class;
use opc_names::name::Resource;
use opc_policy::source::{ProfileSource, Taken};
use opc_policy::{Found, search};
use opc_policy_members::profile::Profile;
use opc_state::tables::Tables;
use opc_store::store::Store;
use opc_terms::store_fault::StoreFault;
use sqlite::MemStore;
use std::alloc::Global;

/// Tables that are made anew for each case, whose queries may be limited, and which report how they search.
pub trait Fresh: Tables + Drop + Sized {
    /// New tables.
    fn fresh(alloc: Global) -> Result<Self>;

    /// The tables, under a limit on the steps of each query.
    fn limited(self, alloc: Global, steps: u64) -> Result<Self>;

    /// What the gate's own search finds of a name in a class: the profile without its access list.
    fn find_deciding(
        &mut self,
        alloc: Global,
        class: Class,
        name: &Resource,
    ) -> Result<Found, StoreFault>;

    /// What a search of policies finds of a name in a class.
    fn search_for(&mut self, class: Class, name: &Resource) -> Result<Found, StoreFault>;

    /// The first profile that covers a name, of those of a class with this very head, and how many were read.
    fn first_with_head(
        &mut self,
        class: Class,
        head: &str,
        name: &Resource,
    ) -> Result<Taken, StoreFault>;

    /// The first profile of a class that covers a name, in the order of the patterns, and how many were read.
    fn first_in_order(
        &mut self,
        alloc: Global,
        class: Class,
        name: &Resource,
    ) -> Result<Taken, StoreFault>;

    /// The profiles of a class, in the order of the patterns.
    fn all_in_order(&mut self, alloc: Global, class: Class) -> Result<Vec<Profile>, StoreFault>;
}

impl Fresh for Store<MemStore> {
    fn fresh(alloc: Global) -> Result<Self> {
        Ok(Store::in_memory(alloc)?)
    }

    fn limited(self, alloc: Global, steps: u64) -> Result<Self> {
        let mut conn = self.into_connection();
        conn.set_step_limit(Some(steps));
        match Store::open_files(alloc, conn) {
            Ok(store) => Ok(store),
            Err((fault, _)) => Err(fault)?,
        }
    }

    fn find_deciding(
        &mut self,
        alloc: Global,
        class: Class,
        name: &Resource,
    ) -> Result<Found, StoreFault> {
        Store::find_deciding(self, alloc, class, name)
    }

    fn search_for(&mut self, class: Class, name: &Resource) -> Result<Found, StoreFault> {
        search(self, class, name)
    }

    fn first_with_head(
        &mut self,
        class: Class,
        head: &str,
        name: &Resource,
    ) -> Result<Taken, StoreFault> {
        self.first_in(class, head, name)
    }

    fn first_in_order(
        &mut self,
        alloc: Global,
        class: Class,
        name: &Resource,
    ) -> Result<Taken, StoreFault> {
        self.first(alloc, class, name)
    }

    fn all_in_order(&mut self, alloc: Global, class: Class) -> Result<Vec<Profile>, StoreFault> {
        self.all(alloc, class)
    }
}
