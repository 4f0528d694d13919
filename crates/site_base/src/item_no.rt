// The numbers of items.
use crate::TargetNo;
use std::cmp::Ordering;

/// The number of an item: by it objects and diagnostics are ordered, field by field.
#[derive(Clone, Copy, PartialEq, Eq, PartialOrd, Ord)]
pub struct ItemNo {
    /// The place of the statement among all that register an item or a rule, from 1.
    pub item: u32,
    /// What an instance of an `apply` rule was applied to.
    pub target: TargetNo,
    /// The place among the instances that a `for` gives, from 1; 0 without one.
    pub key: u32,
}

impl ItemNo {
    ghost use Rattle.std.specs.Prelude.{◌≡◌, ◌↔◌, IsTrue};
    ghost use Rattle.site_base.specs.Order.{by_fields};

    /// Whether this number stands before another: in the first field in which they differ it has less.
    pub fn is_before(&self, other: &ItemNo) -> bool
        ensures { IsTrue result ↔ (by_fields self.now other.now ≡ Ordering.Less) }
    {
        self < other
    }
}
