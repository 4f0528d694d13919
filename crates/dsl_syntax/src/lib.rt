//! The syntax tree of the configuration language.
//!
//! Bodies of objects, templates and apply rules, the loops of apply rules, and functions, stand behind
//! an `Arc`: what outlives the file shares them, and no syntax is copied.
#![tactic(auto)]

mod arm;
mod base;
mod bin_op;
mod block;
mod each;
mod expr;
mod expr_kind;
mod file;
mod func;
mod set_op;
mod step;
mod stmt;
mod stmt_kind;
mod un_op;
mod used;

pub use arm::Arm;
pub use base::Base;
pub use bin_op::BinOp;
pub use block::Block;
pub use each::Each;
pub use expr::Expr;
pub use expr_kind::ExprKind;
pub use file::File;
pub use func::Func;
pub use set_op::SetOp;
pub use step::Step;
pub use stmt::Stmt;
pub use stmt_kind::StmtKind;
pub use un_op::UnOp;
pub use used::Use;
