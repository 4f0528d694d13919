//! The syntax trees of the configuration language, and their printing: one spelling for each tree.
#![tactic(auto)]

mod exprs;
mod operators;
mod printing;
mod shapes;
mod stmts;

pub use dsl_syntax::{
    Arm, Base, BinOp, Block, Each, Expr, ExprKind, File, Func, SetOp, Step, Stmt, StmtKind, UnOp,
    Use,
};
pub use printing::print;
