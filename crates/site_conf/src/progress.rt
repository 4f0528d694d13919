// What stands at a moment of the walk.
ghost use Rattle.std.specs.Prelude.{◌≡◌, None, IfOk, OnOk, length, slice_get};
ghost use Rattle.conf_sources.specs.Sources.{source_at};
ghost use Rattle.conf_sources.specs.Views.{kept_view};
ghost use Rattle.site_conf.specs.Views.{state_view};
ghost use Rattle.site_conf.specs.Walks.{empty_state, with_number, with_length, with_fault, with_kept, or_nothing};

use conf_sources::holding::Holding;
use conf_sources::inclusion::Inclusion;
use conf_sources::kept::Kept;
use conf_sources::reading::diag;
use conf_sources::source::{Source, full_name, is_library};
use conf_sources::sources::Sources;
use dsl_syntax::File;
use site_base::{Diag, DiagKind, OutOfMemory, Place, Row, Text, Texts, quote};
use std::alloc::Global;

/// What stands at a moment of the walk: for each file that was met whether it is
/// of the library and what it holds, the order so far, the
/// diagnostics, the number of inclusions, and whether the walk has ended.
#[derive(Drop)]
pub(crate) struct Progress {
    pub(crate) alloc: Global,
    pub(crate) sources: Sources,
    pub(crate) names: Texts,
    pub(crate) library: Vec<bool>,
    pub(crate) holdings: Vec<Holding>,
    pub(crate) trees: Vec<File>,
    pub(crate) inclusions: Vec<Vec<Inclusion>>,
    pub(crate) order: Vec<u32>,
    pub(crate) diags: Vec<Diag>,
    pub(crate) count: u32,
    pub(crate) ended: bool,
}

impl Progress {
    /// No file was met.
    pub(crate) fn new(alloc: Global) -> Progress
        ensures { state_view result ≡ empty_state }
    {
        Progress {
            alloc,
            sources: Sources::new(alloc),
            names: Row::new(alloc),
            library: Vec::new(alloc),
            holdings: Vec::new(alloc),
            trees: Vec::new(alloc),
            inclusions: Vec::new(alloc),
            order: Vec::new(alloc),
            diags: Vec::new(alloc),
            count: 0,
            ended: false,
        }
    }

    /// Adds a number to the order.
    pub(crate) fn number(&mut self, number: u32) -> Result<(), OutOfMemory>
        ensures { OnOk result (state_view self.new ≡ with_number number (state_view self.old)) }
    {
        self.order.push(number)?;
        Ok(())
    }

    /// Begins the part of a file, and gives its place in the order. Its length isn't known yet.
    pub(crate) fn begin_part(&mut self) -> Result<usize, OutOfMemory>
        ensures value { OnOk result (state_view self.new ≡ with_number 0 (state_view self.old)) }
        ensures start { IfOk result (λ start. start ≡ length (state_view self.old).order) }
    {
        let start = self.order.len();
        self.order.push(0)?;
        Ok(start)
    }

    /// Ends the part of a file that begins at this place: what stands behind it is the part.
    pub(crate) fn end_part(&mut self, start: usize) -> Result<(), OutOfMemory>
        ensures { OnOk result (state_view self.new ≡ with_length start (state_view self.old)) }
    {
        let length = self.order.len().saturating_sub(start).saturating_sub(1);
        let Ok(length) = u32::try_from(length) else {
            return Err(OutOfMemory);
        };
        if start < self.order.len() {
            self.order[start] = length;
        }
        Ok(())
    }

    /// Tells a fault of an inclusion that names this.
    pub(crate) fn tell(&mut self, at: Place, kind: DiagKind, name: &str) -> Result<(), OutOfMemory>
        ensures { OnOk result (state_view self.new ≡ with_fault at kind name.now (state_view self.old)) }
    {
        let text = quote(self.alloc, name)?;
        self.diags.push(diag(at, kind, text))?;
        Ok(())
    }

    /// Adds a file that wasn't met before, and tells the fault of its own text.
    pub(crate) fn keep(&mut self, source: &Source, kept: Kept) -> Result<(), OutOfMemory>
        requires { source_at source.now (state_view self.old).sources ≡ None }
        ensures { OnOk result (state_view self.new ≡ with_kept source.now (kept_view kept) (state_view self.old)) }
    {
        let Kept {
            holding,
            tree,
            inclusions,
            mut faults,
        } = kept;
        self.sources.add(source)?;
        self.names.push(full_name(self.alloc, source)?)?;
        self.library.push(is_library(source))?;
        self.holdings.push(holding)?;
        self.trees.push(tree)?;
        self.inclusions.push(inclusions)?;
        self.diags.append(&mut faults)?;
        Ok(())
    }

    /// A copy of the name of a file; the empty name for one that wasn't met.
    pub(crate) fn name_at(&self, index: u32) -> Result<Text, OutOfMemory>
        ensures { IfOk result (λ t. t ≡ or_nothing (slice_get (state_view self.now).names index)) }
    {
        match self.names.as_slice().get(index as usize) {
            Some(name) => Ok(name.clone()?),
            None => Ok(Text::new(self.alloc)),
        }
    }

    /// A copy of the inclusions in a file; none for one that wasn't met.
    pub(crate) fn inclusions_at(&self, index: u32) -> Result<Vec<Inclusion>, OutOfMemory>
        ensures { IfOk result (λ v. v.items ≡ or_nothing (slice_get (state_view self.now).inclusions index)) }
    {
        match self.inclusions.get(index as usize) {
            Some(list) => Ok(list.clone()?),
            None => Ok(Vec::new(self.alloc)),
        }
    }

    /// What a file holds, if it was met.
    pub(crate) fn holding_at(&self, index: usize) -> Option<Holding>
        ensures { result ≡ slice_get (state_view self.now).holdings index }
    {
        match self.holdings.get(index) {
            Some(holding) => Some(*holding),
            None => None,
        }
    }
}
