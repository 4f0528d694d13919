// Distinct names in order.
ghost use Rattle.std.specs.Prelude.{◌≡◌, ◌≢◌, ◌<◌, ◌^◌, ◌-◌, [], length, IfOk, OnErr, Some, AllPairs};
ghost use Rattle.site_model.specs.Names.{place_of, with_name, IsPlaceOf};

use indexmap::{Equivalent, IndexSet};
use site_base::{OutOfMemory, Text};
use std::alloc::Global;
use std::hash::{Hash, Hasher};
use std::marker::Model;

/// Distinct names, each with its place. Clauses see them as the list of the names in order.
#[derive(Drop)]
pub struct Names {
    set: IndexSet<Name>,
}

impl Model for Names {
    ghost use Rattle.std.specs.Prelude.{List, ℕ, ◌<◌, ◌^◌, length};

    ghost Value = { List (List ℕ) };

    ghost view = { λ n. n.set.keys };

    ghost invariant = { λ n. length n.set.keys < 2 ^ 32 };
}

impl Names {
    /// No names, which take no memory.
    pub fn new(alloc: Global) -> Names
        ensures { result ≡ [] }
    {
        Names {
            set: IndexSet::new(alloc),
        }
    }

    /// The number of names.
    pub fn len(&self) -> usize
        ensures value { result ≡ length self.now }
        ensures distinct { AllPairs (λ x y. x ≢ y) self.now }
    {
        self.set.len()
    }

    /// The place of a name; `None` if it isn't there.
    pub fn find(&self, name: &str) -> Option<u32>
        ensures value { result ≡ place_of name.now self.now }
        ensures place { IsPlaceOf name.now self.now result }
    {
        match self.set.get_index_of(name) {
            Some(place) => Some(place as u32),
            None => None,
        }
    }

    /// The place of a name, which is added at the end where it isn't there. After an error the names are
    /// as before.
    pub fn add(&mut self, name: Text) -> Result<u32, OutOfMemory>
        requires { length self.old < 2 ^ 32 - 1 }
        ensures place { IfOk result (λ k. place_of name self.new ≡ Some k) }
        ensures names { IfOk result (λ _. self.new ≡ with_name name self.old) }
        ensures err { OnErr result (self.new ≡ self.old) }
    {
        let (place, _) = self.set.insert_full(Name { text: name })?;
        Ok(place as u32)
    }
}

/// A name, which is found by the hash of its text. Clauses see it as the list of its bytes.
#[derive(Debug, Drop)]
struct Name {
    text: Text,
}

impl Model for Name {
    ghost use Rattle.std.specs.Prelude.{List, ℕ};

    ghost Value = { List ℕ };

    ghost view = { λ n. n.text };
}

impl PartialEq for Name {
    ghost use Rattle.std.specs.Str.{bytes_eq};
    ghost use Rattle.std.specs.Cmp.Rules.{comparing};
    ghost use Rattle.std.proofs.Common.{rules};

    ghost eq = { bytes_eq };

    ghost laws = { Prim.search (comparing, rules) };

    fn eq(&self, other: &Name) -> bool {
        self.text == other.text
    }
}

impl Eq for Name {
    ghost use Rattle.std.specs.Cmp.Rules.{comparing};
    ghost use Rattle.std.proofs.Common.{rules};

    ghost laws = { Prim.search (comparing, rules) };
}

impl Hash for Name {
    ghost use Rattle.std.specs.Hash as fed;
    ghost use Rattle.std.specs.Cmp.Lexicographic.{bytes_decides};
    ghost use Rattle.std.proofs.Common.{ap};

    ghost hash_input = { fed.str };

    ghost respects_eq = { λ x y h. ap fed.str ((bytes_decides x y).0 h) };

    fn hash<H: Hasher>(&self, state: &mut H) {
        self.text.as_str().hash(state);
    }
}

impl Equivalent<Name> for &str {
    ghost use Rattle.std.specs.Hash as fed;
    ghost use Rattle.std.specs.Str.{bytes_eq};
    ghost use Rattle.std.specs.Cmp.Lexicographic.{bytes_decides, nat_list_eq_equiv};
    ghost use Rattle.std.proofs.Common.{ap};

    ghost equivalent = { λ q n. bytes_eq q.now n };

    ghost respects_hash = { λ q n h. ap fed.str ((bytes_decides q.now n).0 h) };

    ghost respects_eq = { λ q x y. nat_list_eq_equiv.congr q.now x y };

    fn equivalent(&self, name: &Name) -> bool {
        *self == name.text.as_str()
    }
}
