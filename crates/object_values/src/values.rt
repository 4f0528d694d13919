// The values of attributes.
ghost use Rattle.std.specs.Prelude.{◌≡◌, IfOk};
ghost use Rattle.std.specs.Option.{option_copied};
ghost use Rattle.site_base.specs.View.{view, items_view};
ghost use Rattle.object_values.specs.Attributes.{value_view};
ghost use Rattle.object_values.specs.Values.{flag_at, count_at, seconds_at, thousandths_at, limit_at, spans_at};
ghost use Rattle.object_values.specs.Values.{text_at, items_at, items_in as array_in, names_at, slice_view, texts_of};

use crate::Attributes;
use crate::reading::{
    is_true, limit_in, seconds, spans, text_of, thousandths, unset_flag, unset_number, whole,
};
use object_types::Attribute;
use site_base::{OutOfMemory, Ranges, Row, Tree};
use std::alloc::Global;

impl<'a> Attributes<'a> {
    /// The boolean that holds.
    pub fn flag(&self, attribute: Attribute) -> bool
        ensures { result ≡ flag_at self.now.kind attribute (view self.now.tree.now) }
    {
        match self.set(attribute) {
            Some(value) => is_true(value),
            None => unset_flag(self.unset(attribute)),
        }
    }

    /// The whole number that holds.
    pub fn count(&self, attribute: Attribute) -> u32
        ensures { result ≡ count_at self.now.kind attribute (view self.now.tree.now) }
    {
        match self.set(attribute) {
            Some(value) => whole(value),
            None => unset_number(self.unset(attribute)),
        }
    }

    /// The seconds that hold, as whole ones, rounded up.
    pub fn seconds(&self, attribute: Attribute) -> u64
        ensures { result ≡ seconds_at self.now.kind attribute (view self.now.tree.now) }
    {
        match self.set(attribute) {
            Some(value) => seconds(value),
            None => u64::from(unset_number(self.unset(attribute))),
        }
    }

    /// The number that holds, in thousandths.
    pub fn thousandths(&self, attribute: Attribute) -> u64
        ensures { result ≡ thousandths_at self.now.kind attribute (view self.now.tree.now) }
    {
        match self.set(attribute) {
            Some(value) => thousandths(value),
            None => u64::from(unset_number(self.unset(attribute))) * 1000,
        }
    }

    /// The limit under a key, in whole seconds, rounded up; `None` if there is none.
    pub fn limit(&self, attribute: Attribute, key: &str) -> Option<u64>
        ensures { result ≡ limit_at self.now.kind attribute key.now (view self.now.tree.now) }
    {
        limit_in(key, self.set(attribute))
    }

    /// The spans of time ranges; none if there are none.
    pub fn spans(&self, alloc: Global, attribute: Attribute) -> Result<Ranges, OutOfMemory>
        ensures { IfOk result (λ r. r ≡ spans_at self.now.kind attribute (view self.now.tree.now)) }
    {
        match self.set(attribute) {
            Some(value) => spans(alloc, value),
            None => Ok(Row::new(alloc)),
        }
    }

    /// The string that is set; `None` if none is.
    pub fn text(&self, attribute: Attribute) -> Option<&'a str>
        ensures { option_copied result ≡ text_at self.now.kind attribute (view self.now.tree.now) }
    {
        match self.set(attribute) {
            Some(value) => text_of(value),
            None => None,
        }
    }

    /// The array that is set; `None` if none is.
    pub fn items(&self, attribute: Attribute) -> Option<&'a [Tree]>
        ensures { slice_view result ≡ items_at self.now.kind attribute (view self.now.tree.now) }
    {
        items_in(self.set(attribute))
    }

    /// The array of names that is set; the empty one where none is.
    pub fn names(&self, attribute: Attribute) -> &'a [Tree]
        ensures { texts_of (items_view result.now) ≡ names_at self.now.kind attribute (view self.now.tree.now) }
    {
        match self.items(attribute) {
            Some(items) => items,
            None => &[],
        }
    }
}

fn items_in(value: Option<&Tree>) -> Option<&[Tree]>
    ensures { slice_view result ≡ array_in (value_view value.entry) }
{
    match value {
        Some(Tree::List(items)) => Some(items.as_slice()),
        _ => None,
    }
}
