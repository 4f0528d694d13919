// The numbers of an apply rule's targets.

/// Which object an `apply` rule was applied to; 0 in all fields for a plain object. Ordered field by field.
#[derive(Clone, Copy, PartialEq, Eq, PartialOrd, Ord)]
pub struct TargetNo {
    /// The number of the target's own item or rule.
    pub item: u32,
    /// The number of the item of the target's host; 0 if the target is a plain object.
    pub host: u32,
    /// The place of the target among the instances of its rule, from 1; 0 without a `for`.
    pub key: u32,
}
