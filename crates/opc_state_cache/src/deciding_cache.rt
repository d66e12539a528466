//! The most recently requested names.
ghost use Rattle.std.specs.Prelude.{◌≡◌, ◌≤◌, ◌⊎◌, [], IfOk, length};
ghost use Rattle.std.specs.Map.{lookup};
ghost use Rattle.lru.specs.LruCache.{lru_cache, promoted, put_entries};
ghost use Rattle.opc_state_cache.specs.Cache.{same_name};

use lru::LruCache;
use opc_names::class::Class;
use opc_names::name::{Pattern, Resource};
use std::alloc::{AllocError, Global};
use std::marker::Model;
use std::num::NonZeroUsize;

/// How many names are kept.
const MOST: usize = 256;

/// The pattern that decides, or that none does, for the most recently used pairs of class and resource.
pub(crate) struct DecidingCache {
    cache: LruCache<(Class, Resource), Option<Pattern>>,
}

// In a function of its own, so that what drops a gate does not drop the cache part by part: that keeps its proof short.
impl Drop for DecidingCache {
    fn drop(self) {
        let DecidingCache { cache: _ } = self;
    }
}

impl Model for DecidingCache {
    ghost use Rattle.std.specs.Prelude.{◌≡◌};
    ghost use Rattle.opc_state_cache.specs.Cache.{Entries};

    ghost Value = { Entries };

    ghost view = { λ recent. recent.cache.entries };

    ghost invariant = { λ recent. recent.cache.cap ≡ 256 };
}

impl DecidingCache {
    pub(crate) fn new(alloc: Global) -> Result<Self, AllocError>
        ensures { IfOk result (λ recent. recent ≡ []) }
    {
        let Some(most) = NonZeroUsize::new(MOST) else {
            // 256 is not zero.
            unreachable!()
        };
        Ok(DecidingCache {
            cache: LruCache::new(alloc, most)?,
        })
    }

    /// What is known of a name, which then is the most recently used one.
    pub(crate) fn get(&mut self, class: Class, resource: &Resource) -> Option<Option<Pattern>>
        ensures found { result ≡ lookup (same_name (class, resource.now)) self.old }
        ensures first { self.new ≡ promoted (same_name (class, resource.now)) self.old }
    {
        self.cache.get(&(class, *resource)).copied()
    }

    /// Remembers a name, in the place of the least recently used one if there are too many; not if an allocation fails.
    pub(crate) fn put(&mut self, class: Class, resource: &Resource, pattern: Option<Pattern>)
        ensures { (self.new ≡ self.old) ⊎
            (self.new ≡ put_entries same_name (lru_cache self.old 256) (class, resource.now) pattern) }
    {
        // If the allocation fails, the name is not cached, and the request proceeds.
        let _refused = self.cache.put((class, *resource), pattern);
    }

    pub(crate) fn clear(&mut self)
        ensures { self.new ≡ [] }
    {
        self.cache.clear();
    }

    pub(crate) fn len(&self) -> u32
        ensures count { result ≡ length self.now }
        ensures most { result ≤ 256 }
    {
        self.cache.len() as u32
    }
}
