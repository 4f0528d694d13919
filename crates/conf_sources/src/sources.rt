// Files that were met.
ghost use Rattle.std.specs.Prelude.{◌≡◌, ◌++◌, [], ◌∷◌, None, IfOk, OnOk};
ghost use Rattle.conf_sources.specs.Sources.{source_at};
ghost use Rattle.conf_sources.specs.SourceKeys.{source_of};

use crate::source::Source;
use indexmap::IndexSet;
use site_base::OutOfMemory;
use std::alloc::Global;
use std::marker::Model;

/// Distinct files and parts of the library, each with its place. Clauses see them as their list in order.
#[derive(Drop)]
pub struct Sources {
    alloc: Global,
    /// Whether it is a part of the library, and its name.
    keys: IndexSet<(bool, String)>,
}

impl Model for Sources {
    ghost use Rattle.std.specs.Prelude.{List, map};
    ghost use Rattle.conf_sources.specs.SourceKeys.{source_of};
    ghost use Rattle.conf_sources.specs.declared.source.Source.{Source};

    ghost Value = { List Source };

    ghost view = { λ s. map source_of s.keys.keys };
}

impl Sources {
    /// Nothing, which takes no memory.
    pub fn new(alloc: Global) -> Sources
        ensures { result ≡ [] }
    {
        Sources {
            alloc,
            keys: IndexSet::new(alloc),
        }
    }

    /// The place of a file; `None` if it isn't there.
    pub fn find(&self, source: &Source) -> Result<Option<usize>, OutOfMemory>
        ensures { IfOk result (λ k. k ≡ source_at source.now self.now) }
    {
        let key = key_of(self.alloc, source)?;
        Ok(self.keys.get_index_of(&key))
    }

    /// Adds a file that isn't there at the end.
    pub fn add(&mut self, source: &Source) -> Result<(), OutOfMemory>
        requires { source_at source.now self.old ≡ None }
        ensures { OnOk result (self.new ≡ self.old ++ source.now ∷ []) }
    {
        let key = key_of(self.alloc, source)?;
        self.keys.insert(key)?;
        Ok(())
    }
}

/// What a file is kept under.
fn key_of(alloc: Global, source: &Source) -> Result<(bool, String), OutOfMemory>
    ensures { IfOk result (λ k. source_of k ≡ source.now) }
{
    match source {
        Source::File(name) => Ok((false, String::from_str(alloc, name.as_str())?)),
        Source::Library(name) => Ok((true, String::from_str(alloc, name.as_str())?)),
    }
}
