// Lists of names that are known.
ghost use Rattle.std.specs.Prelude.{◌≡◌, [], ℕ, List, Some, IfSome, OnOk, slice_get};
ghost use Rattle.conf_sources.specs.Known.{AreKnown};

use indexmap::IndexMap;
use site_base::{OutOfMemory, Texts};
use std::alloc::Global;
use std::marker::Model;

/// Lists of names, each under the name for which it was asked. Clauses see them as pairs in order.
#[derive(Drop)]
pub struct Known {
    alloc: Global,
    lists: IndexMap<String, Texts>,
}

impl Model for Known {
    ghost use Rattle.std.specs.Prelude.{List, map};
    ghost use Rattle.conf_sources.specs.Known.{Answer, answer_of};

    ghost Value = { List Answer };

    ghost view = { λ k. map answer_of k.lists.entries };
}

impl Known {
    /// Nothing is known, which takes no memory.
    pub(crate) fn new(alloc: Global) -> Known
        ensures { result ≡ [] }
    {
        Known {
            alloc,
            lists: IndexMap::new(alloc),
        }
    }

    /// What is known of a name; `None` if nothing is.
    pub(crate) fn of(&self, name: &str) -> Option<&Texts>
        ensures { (what : List ℕ → List (List ℕ)) → AreKnown what self.now → IfSome result (λ names. names.now ≡ what name.now) }
    {
        match self.lists.get_full(name) {
            Some((_, key, names)) if key.as_str() == name => Some(names),
            _ => None,
        }
    }

    /// Keeps what is to be known of a name.
    pub(crate) fn keep(&mut self, name: &str, names: Texts) -> Result<(), OutOfMemory>
        ensures { (what : List ℕ → List (List ℕ)) → AreKnown what self.old → names ≡ what name.now → OnOk result (AreKnown what self.new) }
    {
        let key = String::from_str(self.alloc, name)?;
        self.lists.insert(key, names)?;
        Ok(())
    }
}
