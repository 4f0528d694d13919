// The numbers of operators.
ghost use Rattle.std.specs.Prelude.{◌≡◌};
ghost use Rattle.task_keys.specs.Operators.{binary_number as number_of_binary, set_number as number_of_set, unary_number as number_of_unary};

use dsl_syntax::{BinOp, SetOp, UnOp};

/// An operator before its operand.
pub(crate) fn unary_number(op: UnOp) -> u8
    ensures { result ≡ number_of_unary op }
{
    match op {
        UnOp::Not => 0,
        UnOp::Complement => 1,
        UnOp::Plus => 2,
        UnOp::Minus => 3,
    }
}

/// An operator between two operands.
pub(crate) fn binary_number(op: BinOp) -> u8
    ensures { result ≡ number_of_binary op }
{
    match op {
        BinOp::Mul => 0,
        BinOp::Div => 1,
        BinOp::Rem => 2,
        BinOp::Add => 3,
        BinOp::Sub => 4,
        BinOp::ShiftLeft => 5,
        BinOp::ShiftRight => 6,
        BinOp::Less => 7,
        BinOp::Greater => 8,
        BinOp::LessEqual => 9,
        BinOp::GreaterEqual => 10,
        BinOp::In => 11,
        BinOp::NotIn => 12,
        BinOp::Equal => 13,
        BinOp::NotEqual => 14,
        BinOp::BitAnd => 15,
        BinOp::BitXor => 16,
        BinOp::BitOr => 17,
        BinOp::And => 18,
        BinOp::Or => 19,
    }
}

/// An operator of an assignment.
pub(crate) fn set_number(op: SetOp) -> u8
    ensures { result ≡ number_of_set op }
{
    match op {
        SetOp::Plain => 0,
        SetOp::Add => 1,
        SetOp::Sub => 2,
        SetOp::Mul => 3,
        SetOp::Div => 4,
    }
}
