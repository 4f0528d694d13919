// Where the first thing of each type and full name stands.
ghost use Rattle.std.specs.Prelude.{◌≡◌, ℕ, List, Some, None, OnOk, OnErr};
ghost use Rattle.std.specs.Str.{bytes_eq};
ghost use Rattle.indexmap.specs.IndexMap.{get_by_text};
ghost use Rattle.eval_work.specs.Placing.{place_in, place_at, placed, placed_in};

use indexmap::IndexMap;
use site_base::{OutOfMemory, Text};
use std::alloc::Global;

/// Of things with a type and a full name, the place of the first that has both.
#[derive(Drop)]
pub(crate) struct Places {
    alloc: Global,
    /// For each name the types that have it, each with its first place.
    lists: IndexMap<String, Vec<(Text, usize)>>,
}

impl Places {
    /// No places, which take no memory.
    pub(crate) fn new(alloc: Global) -> Places
        ensures { (kind name : List ℕ) → place_at result kind name ≡ None }
    {
        Places {
            alloc,
            lists: IndexMap::new(alloc),
        }
    }

    /// The place of the first thing of a type and a full name.
    pub(crate) fn find(&self, kind: &str, name: &str) -> Option<usize>
        ensures { result ≡ place_at self.now kind.now name.now }
    {
        match self.lists.get(name) {
            Some(list) => find_in(list, kind),
            None => None,
        }
    }

    /// Gives a type and a full name this place, unless they have one. After an error all places are as before.
    pub(crate) fn add(&mut self, kind: &Text, name: &Text, place: usize) -> Result<(), OutOfMemory>
        ensures added { (k n : List ℕ) → OnOk result (place_at self.new k n ≡ placed k n kind.now name.now place (place_at self.old k n)) }
        ensures kept { (k n : List ℕ) → OnErr result (place_at self.new k n ≡ place_at self.old k n) }
    {
        match self.lists.get_mut(name.as_str()) {
            Some(list) => add_to(list, kind, place),
            None => self.add_name(kind, name, place),
        }
    }

    /// Adds a name that isn't there.
    fn add_name(&mut self, kind: &Text, name: &Text, place: usize) -> Result<(), OutOfMemory>
        requires { get_by_text self.old.lists name.now ≡ None }
        ensures added { (k n : List ℕ) → OnOk result (place_at self.new k n ≡ placed k n kind.now name.now place (place_at self.old k n)) }
        ensures kept { (k n : List ℕ) → OnErr result (place_at self.new k n ≡ place_at self.old k n) }
    {
        let mut list = Vec::with_capacity(self.alloc, 1)?;
        list.push((kind.clone()?, place))?;
        let key = String::from_str(self.alloc, name.as_str())?;
        self.lists.insert(key, list)?;
        Ok(())
    }
}

/// The place of a type in the list of a name.
fn find_in(list: &[(Text, usize)], kind: &str) -> Option<usize>
    ensures { result ≡ place_in kind.now list.now }
{
    for entry in list {
        if kind == entry.0.as_str() {
            return Some(entry.1);
        }
    }
    None
}

fn add_to(list: &mut Vec<(Text, usize)>, kind: &Text, place: usize) -> Result<(), OutOfMemory>
    ensures added { (k : List ℕ) → OnOk result (place_in k list.new.items ≡ placed_in k kind.now place (place_in k list.old.items)) }
    ensures kept { OnErr result (list.new.items ≡ list.old.items) }
{
    if find_in(list, kind.as_str()).is_none() {
        list.push((kind.clone()?, place))?;
    }
    Ok(())
}
