// The kinds of diagnostics.

/// What is wrong with a configuration or a script.
#[derive(Clone, Copy, PartialEq, Eq)]
pub enum DiagKind {
    /// A file that is named is missing.
    NoFile,
    /// A configuration file is longer than 4 MiB.
    FileTooLong,
    /// More than 50 inclusions stand in one another.
    IncludeDepth,
    /// There are more than 10,000 inclusions.
    TooManyFiles,
    /// Bytes that are no token.
    Lexical,
    /// A token that the grammar doesn't allow here.
    Syntax,
    /// Brackets or operators that are nested too deep.
    TooDeep,
    /// A value of a type that the operation doesn't take.
    WrongType,
    /// A number out of range.
    Overflow,
    /// A division by zero.
    DivZero,
    /// A call with another number of arguments.
    Arity,
    /// A write to a value that was there before the objects were evaluated.
    FrozenWrite,
    /// A constant that is set again.
    ConstSet,
    /// A statement that has no place here.
    NotHere,
    /// An `apply` with neither `assign` nor `for`.
    NoAssign,
    /// Too many statements and expressions were evaluated.
    StepLimit,
    /// Too much was made, or a value is too large as a tree.
    SpaceLimit,
    /// Too many statements and expressions are open at once.
    DepthLimit,
    /// A name that nothing defines.
    Undefined,
    /// An `import` of a template that isn't there.
    NoTemplate,
    /// An `apply` to a type that its type doesn't go to.
    BadTarget,
    /// A type of object that isn't known.
    UnknownType,
    /// A name that no object may have.
    BadName,
    /// A `throw` of the configuration's own.
    Thrown,
    /// A value that contains itself.
    Cyclic,
    /// A function where a value is needed.
    FunctionValue,
    /// An attribute that the type doesn't have.
    UnknownAttr,
    /// An attribute of another type.
    AttrType,
    /// An attribute that the type needs and that isn't set.
    MissingAttr,
    /// A time range that isn't one.
    BadRange,
    /// There are more than 1,000,000 items.
    ItemLimit,
    /// A second object or template of one type and name.
    Duplicate,
    /// An object that is named and isn't there.
    NoReference,
    /// Dependencies that lead back to where they began.
    DependencyCycle,
    /// A constant of the program with a value that it can't use.
    BadConst,
    /// A zone file that isn't one.
    BadZone,
    /// A line of a script that isn't one.
    BadScript,
    /// A line of a query that isn't one.
    BadQuery,
    /// A state file that isn't one, or that the site doesn't fit.
    BadState,
}
