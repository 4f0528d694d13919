// Cells that were found equal.
ghost use Rattle.std.specs.Prelude.{◌≡◌, ◌+◌, ◌*◌, ◌^◌, ◌<◌, IsTrue, List, true};
ghost use Rattle.dsl_value.specs.Contents.{PlainCell};
ghost use Rattle.dsl_value.specs.Known.{IsKnown, AreEqual, number_of};

use std::alloc::Global;
use std::collections::BTreeSet;

/// Pairs of cells that were found equal, each with how many levels of nesting were looked into.
#[derive(Drop)]
pub(crate) struct Known {
    pub(crate) numbers: BTreeSet<u128>,
}

impl Known {
    pub(crate) fn new(alloc: Global) -> Known
        ensures { (cells : List PlainCell) → IsKnown cells result }
    {
        Known {
            numbers: BTreeSet::new(alloc),
        }
    }

    /// Whether two cells were found equal.
    pub(crate) fn contains(&self, levels: u32, left: u32, right: u32) -> bool
        requires { levels < 100 }
        ensures { (cells : List PlainCell) → IsKnown cells self.now → IsTrue result → AreEqual cells levels left right }
    {
        self.numbers.contains(&number(levels, left, right))
    }

    /// Keeps in mind that two cells are equal, if there is memory for that.
    pub(crate) fn add(&mut self, levels: u32, left: u32, right: u32)
        requires { levels < 100 }
        ensures { (cells : List PlainCell) → IsKnown cells self.old → AreEqual cells levels left right → IsKnown cells self.new }
    {
        match self.numbers.insert(number(levels, left, right)) {
            Ok(_) => {}
            Err(_) => {}
        }
    }
}

/// One number for two cells and a number of levels below 128.
fn number(levels: u32, left: u32, right: u32) -> u128
    requires { levels < 100 }
    ensures { result ≡ number_of levels left right }
{
    (u128::from(left) * 4_294_967_296 + u128::from(right)) * 128 + u128::from(levels)
}
