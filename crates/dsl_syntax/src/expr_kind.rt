// The kinds of expressions.
use crate::{BinOp, Expr, Func, UnOp};
use site_base::{Num, Text};
use std::sync::Arc;

/// What an expression is. Parentheses leave no node of their own.
#[cycle(syntax)]
#[derive(Drop)]
pub enum ExprKind {
    Null,
    Bool(bool),
    Number(Num),
    Str(Text),
    Array(Vec<Expr>),
    /// The keys as written, of which one may stand twice.
    Dict(Vec<(Text, Expr)>),
    Name(Text),
    This,
    Globals,
    /// `expr.name`
    Member(Box<Expr>, Text),
    /// `expr[expr]`
    Index(Box<Expr>, Box<Expr>),
    Call(Box<Expr>, Vec<Expr>),
    Unary(UnOp, Box<Expr>),
    Binary(BinOp, Box<Expr>, Box<Expr>),
    Function(Arc<Func>),
}
