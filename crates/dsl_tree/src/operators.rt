// How operators are written.
ghost use Rattle.std.specs.Prelude.{◌≡◌};
ghost use Rattle.dsl_tree.specs.Operators.{unary_text, binary_text, set_text};

use dsl_syntax::{BinOp, SetOp, UnOp};

/// An operator before its operand.
pub(crate) fn unary_sign(op: UnOp) -> &'static str
    ensures { result.now ≡ unary_text op }
{
    match op {
        UnOp::Not => "!",
        UnOp::Complement => "~",
        UnOp::Plus => "+",
        UnOp::Minus => "-",
    }
}

/// An operator between two operands.
pub(crate) fn binary_sign(op: BinOp) -> &'static str
    ensures { result.now ≡ binary_text op }
{
    match op {
        BinOp::Mul => "*",
        BinOp::Div => "/",
        BinOp::Rem => "%",
        BinOp::Add => "+",
        BinOp::Sub => "-",
        BinOp::ShiftLeft => "<<",
        BinOp::ShiftRight => ">>",
        BinOp::Less => "<",
        BinOp::Greater => ">",
        BinOp::LessEqual => "<=",
        BinOp::GreaterEqual => ">=",
        BinOp::In => "in",
        BinOp::NotIn => "!in",
        BinOp::Equal => "==",
        BinOp::NotEqual => "!=",
        BinOp::BitAnd => "&",
        BinOp::BitXor => "^",
        BinOp::BitOr => "|",
        BinOp::And => "&&",
        BinOp::Or => "||",
    }
}

/// The operator of an assignment.
pub(crate) fn set_sign(op: SetOp) -> &'static str
    ensures { result.now ≡ set_text op }
{
    match op {
        SetOp::Plain => "=",
        SetOp::Add => "+=",
        SetOp::Sub => "-=",
        SetOp::Mul => "*=",
        SetOp::Div => "/=",
    }
}
