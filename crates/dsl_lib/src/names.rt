// The names of the library's calls.
ghost use Rattle.std.specs.Prelude.{◌≡◌, ◌<◌, length};
ghost use Rattle.dsl_value.specs.Contents.{plain as plain_cell};
ghost use Rattle.dsl_value.specs.Whole.{Names};
ghost use Rattle.dsl_ops.specs.Operands.{content_of, operand};
ghost use Rattle.dsl_lib.specs.Names.{spelling as spelling_of, functions as all_functions, text_methods, array_methods, dict_methods, methods_of, call_among as first_call, function_named, method_named};

use crate::Plain;
use dsl_value::{Cell, Store, Value};

/// A call of the library: one that [`crate::call_plain`] makes, one that reads a committed object, or a method of
/// arrays that calls a function for each element.
#[derive(Clone, Copy, PartialEq, Eq)]
pub enum LibraryCall {
    Plain(Plain),
    /// `get_host(name)`
    GetHost,
    /// `get_service(host, name)`
    GetService,
    /// `array.map(function)`
    Map,
    /// `array.filter(function)`
    Filter,
    /// `array.any(function)`
    Any,
    /// `array.all(function)`
    All,
}

impl LibraryCall {
    /// The function of a name; `None` if the library has none.
    #[tactic(auto, unfolding(crate::specs::Names::function_named))]
    pub fn function(name: &str) -> Option<LibraryCall>
        ensures { result ≡ function_named name.now }
    {
        call_among(functions(), name)
    }

    /// The method of a name that a value has; `None` if it has none. A dictionary's own key of that
    /// name isn't looked for.
    #[tactic(auto, unfolding(crate::specs::Names::method_named))]
    pub fn method(value: &Value, name: &str, store: &Store) -> Option<LibraryCall>
        requires { Names (length store.now.cells) (length store.now.functions) value.now }
        ensures { result ≡ method_named (operand store.now.cells value.now) name.now }
    {
        match value {
            Value::Str(_) => call_among(methods_of_texts(), name),
            Value::Ref(cell) => call_among(methods_of_cell(store.cell(*cell)), name),
            _ => None,
        }
    }

    /// How it is written.
    pub fn spelling(self) -> &'static str
        ensures { result.now ≡ spelling_of self }
    {
        match self {
            LibraryCall::Plain(plain) => plain.spelling(),
            LibraryCall::GetHost => "get_host",
            LibraryCall::GetService => "get_service",
            LibraryCall::Map => "map",
            LibraryCall::Filter => "filter",
            LibraryCall::Any => "any",
            LibraryCall::All => "all",
        }
    }
}

fn functions() -> &'static [LibraryCall]
    ensures { result.now ≡ all_functions }
{
    &[
        LibraryCall::Plain(Plain::Match),
        LibraryCall::Plain(Plain::Len),
        LibraryCall::Plain(Plain::String),
        LibraryCall::Plain(Plain::Number),
        LibraryCall::Plain(Plain::Bool),
        LibraryCall::Plain(Plain::Range),
        LibraryCall::Plain(Plain::Union),
        LibraryCall::Plain(Plain::Intersection),
        LibraryCall::Plain(Plain::Keys),
        LibraryCall::GetHost,
        LibraryCall::GetService,
        LibraryCall::Plain(Plain::Log),
    ]
}

fn methods_of_texts() -> &'static [LibraryCall]
    ensures { result.now ≡ text_methods }
{
    &[
        LibraryCall::Plain(Plain::TextLen),
        LibraryCall::Plain(Plain::TextContains),
        LibraryCall::Plain(Plain::TextLower),
        LibraryCall::Plain(Plain::TextUpper),
        LibraryCall::Plain(Plain::TextTrim),
        LibraryCall::Plain(Plain::TextReplace),
        LibraryCall::Plain(Plain::TextSplit),
        LibraryCall::Plain(Plain::TextSubstr),
    ]
}

/// The methods of arrays or of dictionaries.
fn methods_of_cell(cell: &Cell) -> &'static [LibraryCall]
    ensures { result.now ≡ methods_of (content_of (plain_cell cell.now)) }
{
    match cell {
        Cell::Array(_) => &[
            LibraryCall::Plain(Plain::ArrayLen),
            LibraryCall::Plain(Plain::ArrayContains),
            LibraryCall::Plain(Plain::ArrayGet),
            LibraryCall::Plain(Plain::ArrayAdd),
            LibraryCall::Plain(Plain::ArrayJoin),
            LibraryCall::Plain(Plain::ArraySort),
            LibraryCall::Map,
            LibraryCall::Filter,
            LibraryCall::Any,
            LibraryCall::All,
        ],
        Cell::Dict(_) => &[
            LibraryCall::Plain(Plain::DictLen),
            LibraryCall::Plain(Plain::DictContains),
            LibraryCall::Plain(Plain::DictGet),
            LibraryCall::Plain(Plain::DictSet),
            LibraryCall::Plain(Plain::DictRemove),
            LibraryCall::Plain(Plain::DictKeys),
            LibraryCall::Plain(Plain::DictValues),
        ],
    }
}

/// The first of these calls that is written so.
fn call_among(calls: &[LibraryCall], name: &str) -> Option<LibraryCall>
    ensures { result ≡ first_call calls.now name.now }
{
    for call in calls {
        if name == call.spelling() {
            return Some(*call);
        }
    }
    None
}
