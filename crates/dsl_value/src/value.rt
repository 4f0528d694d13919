// Values.
use site_base::{Num, Text};

/// A value of the language. Arrays and dictionaries lie in cells of a store, functions in its list of
/// functions, and a value names them by their index.
#[derive(Drop, Clone, PartialEq, Eq)]
pub enum Value {
    Null,
    Bool(bool),
    Number(Num),
    Str(Text),
    /// A cell of the store.
    Ref(u32),
    /// A function of the store.
    Func(u32),
}
