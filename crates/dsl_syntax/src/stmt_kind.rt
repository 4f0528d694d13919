// The kinds of statements.
use crate::{Arm, Base, Block, Each, Expr, Func, SetOp, Step, Stmt, Use};
use site_base::{Place, Text};
use std::sync::Arc;

/// What a statement is.
#[cycle(syntax)]
#[derive(Drop)]
pub enum StmtKind {
    Object {
        kind: Text,
        name: Expr,
        uses: Vec<Use>,
        body: Arc<Block>,
    },
    Template {
        kind: Text,
        name: Expr,
        uses: Vec<Use>,
        body: Arc<Block>,
    },
    /// Objects of a type, one for each target that the body's `assign` takes, and there one for each
    /// element where it has a loop.
    Apply {
        kind: Text,
        name: Option<Expr>,
        to: Option<Text>,
        each: Option<Arc<Each>>,
        uses: Vec<Use>,
        body: Arc<Block>,
    },
    /// `assign where expr`
    Assign {
        expr: Expr,
    },
    /// `ignore where expr`
    Ignore {
        expr: Expr,
    },
    /// `import expr`
    Import {
        expr: Expr,
    },
    /// `include "name"`, with the place of the name's string.
    Include {
        name: Text,
        at: Place,
    },
    /// `include <name>`, with the place of the `<`.
    IncludeLib {
        name: Text,
        at: Place,
    },
    /// `include_recursive "dir", "pattern"`, with the place of the folder's string.
    IncludeAll {
        dir: Text,
        pattern: Text,
        at: Place,
    },
    Const {
        name: Text,
        expr: Expr,
    },
    Var {
        name: Text,
        expr: Option<Expr>,
    },
    /// An assignment to what the steps lead to.
    Set {
        base: Base,
        steps: Vec<Step>,
        op: SetOp,
        expr: Expr,
    },
    If {
        arms: Vec<Arm>,
        /// What is run if no condition holds.
        other: Vec<Stmt>,
    },
    While {
        cond: Expr,
        block: Vec<Stmt>,
    },
    For {
        each: Each,
        block: Vec<Stmt>,
    },
    /// `function name(..) { .. }`
    Define {
        name: Text,
        func: Arc<Func>,
    },
    Return {
        expr: Option<Expr>,
    },
    Break,
    Continue,
    Throw {
        expr: Expr,
    },
    /// An expression whose value isn't used.
    Eval {
        expr: Expr,
    },
}
