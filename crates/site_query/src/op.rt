// How filters compare.
ghost use Rattle.std.specs.Prelude.{◌≡◌};
ghost use Rattle.site_query.specs.Names.{op_named as named, op_text, spelled_among};

/// How what a checkable shows is to stand to the value of a filter.
#[derive(Clone, Copy)]
pub enum Op {
    /// `=`
    Equal,
    /// `!=`
    Unequal,
    /// `<`
    Less,
    /// `>`
    Greater,
    /// `<=`
    AtMost,
    /// `>=`
    AtLeast,
}

/// All of them.
static OPS: [Op; 6] = [
    Op::Equal,
    Op::Unequal,
    Op::Less,
    Op::Greater,
    Op::AtMost,
    Op::AtLeast,
];

impl Op {
    fn spelling(self) -> &'static str
        ensures { result.now ≡ op_text self }
    {
        match self {
            Op::Equal => "=",
            Op::Unequal => "!=",
            Op::Less => "<",
            Op::Greater => ">",
            Op::AtMost => "<=",
            Op::AtLeast => ">=",
        }
    }
}

/// The operator that is spelled so.
#[tactic(auto, unfolding(crate::specs::Names::op_named))]
pub(crate) fn op_named(spelling: &str) -> Option<Op>
    ensures { result ≡ named spelling.now }
{
    op_among(&OPS, spelling)
}

/// The first of these operators that is spelled so.
fn op_among(ops: &[Op], spelling: &str) -> Option<Op>
    ensures { result ≡ spelled_among op_text ops.now spelling.now }
{
    for op in ops {
        if spelling == op.spelling() {
            return Some(*op);
        }
    }
    None
}
