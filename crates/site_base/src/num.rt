// Numbers of the configuration language.
ghost use Rattle.std.specs.Prelude.{◌≡◌, ◌++◌, ◌+◌, ◌<◌, ◌%◌, ◌/◌, OnOk, IfSome, Some, ◌*ℤ◌, ℕ, ◌^◌, pos, ◌≤ℤ◌};
ghost use Rattle.site_base.specs.Reading.{number_read, Spells};
ghost use Rattle.site_base.specs.Numbers.{number_text, amount_text, fraction_text, ranged, sum_of, difference_of, product_of, quotient_of, rest_of, seconds_of};

use crate::reading::read_number;
use crate::{OutOfMemory, Text};
use std::marker::Model;

/// A number, kept as a whole number of thousandths. Clauses see it as that whole number.
#[derive(Clone, Copy, PartialEq, Eq, PartialOrd, Ord)]
pub struct Num {
    thousandths: i64,
}

impl Model for Num {
    ghost use Rattle.std.specs.Prelude.{ℤ};

    ghost Value = { ℤ };

    ghost view = { λ n. n.thousandths };

    ghost inverse = { λ z. record { thousandths = z } };
}

impl Num {
    /// The number that is so many thousandths.
    pub fn of(thousandths: i64) -> Num
        ensures { result ≡ thousandths }
    {
        Num { thousandths }
    }

    pub fn thousandths(&self) -> i64
        ensures { result ≡ self.now }
    {
        self.thousandths
    }

    /// The number that a text stands for: digits, then maybe `.` and digits, then maybe a unit. The units
    /// are `ms`, `s`, `m`, `h` and `d`, for thousandths, ones, minutes, hours and days in seconds. There
    /// may be any number of digits. `None` if the text has another form, if what it stands for
    /// is no whole number of thousandths, and if it is out of range: the greatest is
    /// `9223372036854775.807`.
    pub fn read(text: &str) -> Option<Num>
        ensures value { result ≡ number_read text.now }
        ensures spelled { IfSome result (Spells text.now) }
        ensures only { (n : ℕ) → n < 2 ^ 63 → Spells text.now (pos n) → result ≡ Some (pos n) }
    {
        read_number(text.as_bytes())
    }

    /// The sum; `None` if it is out of range.
    pub fn plus(&self, other: &Num) -> Option<Num>
        ensures value { result ≡ sum_of self.now other.now }
        ensures undone { IfSome result (λ sum. difference_of sum other.now ≡ Some self.now) }
    {
        let thousandths = self.thousandths.checked_add(other.thousandths)?;
        Some(Num { thousandths })
    }

    /// The difference; `None` if it is out of range.
    pub fn minus(&self, other: &Num) -> Option<Num>
        ensures value { result ≡ difference_of self.now other.now }
        ensures undone { IfSome result (λ difference. sum_of difference other.now ≡ Some self.now) }
    {
        let thousandths = self.thousandths.checked_sub(other.thousandths)?;
        Some(Num { thousandths })
    }

    /// The product, cut toward zero to a whole number of thousandths; `None` if it is out of range.
    pub fn times(&self, other: &Num) -> Option<Num>
        ensures { result ≡ product_of self.now other.now }
    {
        narrowed(wide_product(self.thousandths, other.thousandths) / 1000)
    }

    /// The quotient, cut toward zero to a whole number of thousandths; `None` if it is out of
    /// range, and if the divisor is 0.
    pub fn over(&self, divisor: &Num) -> Option<Num>
        ensures { result ≡ quotient_of self.now divisor.now }
    {
        if divisor.thousandths == 0 {
            return None;
        }
        narrowed(i128::from(self.thousandths) * 1000 / i128::from(divisor.thousandths))
    }

    /// What is left when the divisor is taken away as often as the quotient says, cut toward zero to a
    /// whole number: it has this number's sign. `None` if the divisor is 0.
    pub fn rest(&self, divisor: &Num) -> Option<Num>
        ensures { result ≡ rest_of self.now divisor.now }
    {
        if divisor.thousandths == 0 {
            return None;
        }
        Some(Num {
            thousandths: self.thousandths.wrapping_rem(divisor.thousandths),
        })
    }

    /// Whole seconds, rounded up, of a number of seconds; `None` if it is negative.
    pub fn seconds(&self) -> Option<u64>
        ensures { result ≡ seconds_of self.now }
    {
        let thousandths = u64::try_from(self.thousandths).ok()?;
        Some(thousandths.div_ceil(1000))
    }

    /// Adds the number's text, the shortest decimal, at the end of a text: `1.5`, `300`, `-0.001`. What is
    /// added of a number that isn't negative is read back as that number. After an error the front of the
    /// text may stand there.
    #[tactic(auto, using(crate::proofs::Printed::read_back))]
    pub fn push_to(&self, out: &mut Text) -> Result<(), OutOfMemory>
        ensures ok { OnOk result (out.new ≡ out.old ++ number_text self.now) }
        ensures read_back { pos 0 ≤ℤ self.now → number_read (number_text self.now) ≡ Some self.now }
    {
        if self.thousandths < 0 {
            out.push('-')?;
        }
        push_amount(out, self.thousandths.unsigned_abs())
    }
}

fn wide_product(left: i64, right: i64) -> i128
    ensures { result ≡ left *ℤ right }
{
    i128::from(left) * i128::from(right)
}

/// The number of so many thousandths, if it is in range.
fn narrowed(thousandths: i128) -> Option<Num>
    ensures { result ≡ ranged thousandths }
{
    let thousandths = i64::try_from(thousandths).ok()?;
    Some(Num { thousandths })
}

/// Adds so many thousandths.
fn push_amount(out: &mut Text, thousandths: u64) -> Result<(), OutOfMemory>
    ensures { OnOk result (out.new ≡ out.old ++ amount_text thousandths) }
{
    out.push_decimal(thousandths / 1000)?;
    push_fraction(out, thousandths % 1000)
}

/// Adds the point and the digits behind it, without zeros at the end.
fn push_fraction(out: &mut Text, thousandths: u64) -> Result<(), OutOfMemory>
    requires { thousandths < 1000 }
    ensures { OnOk result (out.new ≡ out.old ++ fraction_text thousandths) }
{
    if thousandths == 0 {
        return Ok(());
    }
    out.push('.')?;
    out.push(digit(thousandths / 100))?;
    if thousandths % 100 == 0 {
        return Ok(());
    }
    out.push(digit(thousandths / 10 % 10))?;
    if thousandths % 10 == 0 {
        return Ok(());
    }
    out.push(digit(thousandths % 10))
}

fn digit(value: u64) -> char
    requires { value < 10 }
    ensures { result ≡ 48 + value }
{
    char::from(b'0' + value as u8)
}
