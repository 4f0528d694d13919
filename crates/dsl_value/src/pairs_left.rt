// What a walk over pairs has before it.
ghost use Rattle.std.specs.Prelude.{◌≡◌, [], ◌∷◌, IfSome, IfNone};
ghost use Rattle.dsl_value.specs.Rows.{joined, AreFull};

use crate::Value;
use site_base::Text;
use std::marker::Model;

/// The pairs that a walk over them hasn't passed, in their order.
#[derive(Drop)]
pub struct PairsLeft<'a> {
    row: &'a [(Text, Value)],
    rows: &'a [Vec<(Text, Value)>],
}

impl<'a> Model for PairsLeft<'a> {
    ghost use Rattle.std.specs.Prelude.{◌++◌};
    ghost use Rattle.dsl_value.specs.Pairs.{Pairs};
    ghost use Rattle.dsl_value.specs.Rows.{joined, AreFull};

    ghost Value = { Pairs };

    ghost view = { λ l. l.row.now ++ joined l.rows.now };

    ghost invariant = { λ l. AreFull l.rows.now };
}

impl<'a> PairsLeft<'a> {
    /// The pairs of a row.
    pub fn of_row(row: &'a [(Text, Value)]) -> PairsLeft<'a>
        ensures { result ≡ row.now }
    {
        PairsLeft { row, rows: &[] }
    }

    pub(crate) fn of_rows(rows: &'a [Vec<(Text, Value)>]) -> PairsLeft<'a>
        requires { AreFull rows.now }
        ensures { result ≡ joined rows.now }
    {
        PairsLeft { row: &[], rows }
    }

    /// The same pairs once more.
    pub fn again(&self) -> PairsLeft<'a>
        ensures { result ≡ self.now }
    {
        PairsLeft {
            row: self.row,
            rows: self.rows,
        }
    }

    /// The one that comes next, and those that are left then; `None` if none is left.
    pub fn split_first(&self) -> Option<(&'a (Text, Value), PairsLeft<'a>)>
        ensures some { IfSome result (λ r. self.now ≡ r.0.now ∷ r.1) }
        ensures none { IfNone result (self.now ≡ []) }
    {
        if let Some((pair, row)) = self.row.split_first() {
            let rows = self.rows;
            return Some((pair, PairsLeft { row, rows }));
        }
        let (next, rows) = self.rows.split_first()?;
        let (pair, row) = next.split_first()?;
        Some((pair, PairsLeft { row, rows }))
    }
}
