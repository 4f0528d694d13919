// Changes of cells.
use crate::Value;
use site_base::Text;

/// What changes an array or a dictionary.
#[derive(Drop)]
pub enum Change<'a> {
    /// Another value at a place of an array.
    Put(u32, Value),
    /// One more value at the end of an array.
    Push(Value),
    /// A value at a key of a dictionary.
    Set(Text, Value),
    /// A dictionary without the pair of a key; nothing changes if the key is absent.
    Remove(&'a str),
}
