// What is called.
use dsl_lib::LibraryCall;
use dsl_value::Value;

/// What is called.
#[derive(Drop)]
pub enum Callee {
    /// A value, which has to be a function, with the `this` of the call.
    Value { value: Value, this: Value },
    /// A function of the library.
    Function(LibraryCall),
    /// A method of the library, with the value that it is called on.
    Method(LibraryCall, Value),
}
