// The names of user groups.
ghost use Rattle.std.specs.Prelude.{◌≡◌, [], IfOk, OnOk, Some, string_bytes};
ghost use Rattle.site_model.specs.Names.{place_of, with_name};

use indexmap::IndexSet;
use site_base::OutOfMemory;
use std::alloc::Global;
use std::marker::Model;

/// Distinct names of groups, each with its place. Users may name more groups than there are objects, so a place isn't a `u32`.
/// Clauses see them as the list of the names in order.
#[derive(Drop)]
pub(crate) struct GroupNames {
    set: IndexSet<String>,
}

impl Model for GroupNames {
    ghost use Rattle.std.specs.Prelude.{List, ℕ, map, string_bytes};

    ghost Value = { List (List ℕ) };

    ghost view = { λ n. map string_bytes n.set.keys };
}

impl GroupNames {
    /// No names, which take no memory.
    pub(crate) fn new(alloc: Global) -> GroupNames
        ensures { result ≡ [] }
    {
        GroupNames {
            set: IndexSet::new(alloc),
        }
    }

    /// The place of a name; `None` if it isn't there.
    pub(crate) fn find(&self, name: &str) -> Option<usize>
        ensures { result ≡ place_of name.now self.now }
    {
        self.set.get_index_of(name)
    }

    /// The place of a name, which is added at the end if it isn't there.
    pub(crate) fn add(&mut self, name: String) -> Result<usize, OutOfMemory>
        ensures place { IfOk result (λ k. place_of (string_bytes name) self.new ≡ Some k) }
        ensures names { OnOk result (self.new ≡ with_name (string_bytes name) self.old) }
    {
        let (place, _) = self.set.insert_full(name)?;
        Ok(place)
    }
}
