// Texts, seen as the lists of their bytes.
ghost use Rattle.std.specs.Prelude.{◌≡◌, ◌<◌, ◌++◌, [], ◌∷◌, length, IfOk, OnOk, OnErr, ◌==◌, encode_utf8, string_bytes};
ghost use Rattle.std.specs.Fmt.{decimal};

use crate::OutOfMemory;
use crate::short::Short;
use std::alloc::{AllocError, Global};
use std::cmp::Ordering;
use std::fmt::Write;
use std::marker::Model;
use std::sync::Arc;

/// A text in UTF-8. Clauses see it as the list of its bytes, by which it is compared. A short one has them in itself; clones of a longer one
/// share them, and one that is changed copies them first.
#[derive(Debug, Drop)]
pub struct Text {
    alloc: Global,
    kept: Kept,
}

/// How the bytes of a text are kept.
#[derive(Debug, Drop)]
pub(crate) enum Kept {
    Short(Short),
    Shared(Arc<String>),
}

impl Model for Text {
    ghost use Rattle.std.specs.Prelude.{List, ℕ};
    ghost use Rattle.site_base.specs.Texts.{kept_bytes};

    ghost Value = { List ℕ };

    ghost view = { λ t. kept_bytes t.kept };
}

impl Text {
    /// The empty text, which takes no memory.
    pub fn new(alloc: Global) -> Text
        ensures { result ≡ [] }
    {
        Text {
            alloc,
            kept: Kept::Short(Short::new()),
        }
    }

    /// A text of its own with these bytes. A short one takes no memory.
    pub fn copy_of(alloc: Global, text: &str) -> Result<Text, OutOfMemory>
        ensures { IfOk result (λ t. t ≡ text.now) }
    {
        match Short::of(text) {
            Some(short) => Ok(Text {
                alloc,
                kept: Kept::Short(short),
            }),
            None => Text::shared(alloc, String::from_str(alloc, text)?),
        }
    }

    /// A text of a string's bytes, which aren't copied unless they are few. A short one takes no memory.
    pub fn of_string(alloc: Global, string: String) -> Result<Text, OutOfMemory>
        ensures { IfOk result (λ t. t ≡ string_bytes string) }
    {
        match Short::of(string.as_str()) {
            Some(short) => Ok(Text {
                alloc,
                kept: Kept::Short(short),
            }),
            None => Text::shared(alloc, string),
        }
    }

    /// A text of a string's bytes, however many they are.
    fn shared(alloc: Global, string: String) -> Result<Text, OutOfMemory>
        ensures { IfOk result (λ t. t ≡ string_bytes string) }
    {
        Ok(Text {
            alloc,
            kept: Kept::Shared(Arc::new(alloc, string)?),
        })
    }

    pub fn as_str(&self) -> &str
        ensures { result.now ≡ self.now }
    {
        match &self.kept {
            Kept::Short(short) => short.as_str(),
            Kept::Shared(string) => string.as_str(),
        }
    }

    pub fn as_bytes(&self) -> &[u8]
        ensures { result.now ≡ self.now }
    {
        self.as_str().as_bytes()
    }

    /// The number of bytes.
    pub fn len(&self) -> usize
        ensures { result ≡ length self.now }
    {
        self.as_str().len()
    }

    pub fn is_empty(&self) -> bool
        ensures { result ≡ (length self.now == 0) }
    {
        self.as_str().is_empty()
    }

    /// Adds a character at the end.
    pub fn push(&mut self, c: char) -> Result<(), OutOfMemory>
        ensures ok { OnOk result (self.new ≡ self.old ++ encode_utf8 c) }
        ensures ascii { c < 128 → encode_utf8 c ≡ c ∷ [] }
        ensures err { OnErr result (self.new ≡ self.old) }
    {
        self.push_str(c.encode_utf8(&mut [0; 4]))
    }

    /// Adds a text at the end.
    pub fn push_str(&mut self, more: &str) -> Result<(), OutOfMemory>
        ensures ok { OnOk result (self.new ≡ self.old ++ more.now) }
        ensures err { OnErr result (self.new ≡ self.old) }
    {
        match &mut self.kept {
            Kept::Shared(string) => Arc::make_mut(string)?.push_str(more)?,
            Kept::Short(short) => {
                let mut string = longer(self.alloc, short, more.len())?;
                string.push_str(more)?;
                self.kept = Kept::Shared(Arc::new(self.alloc, string)?);
            }
        }
        Ok(())
    }

    /// Adds a whole number in decimal digits at the end. After an error some of them may stand there.
    pub fn push_decimal(&mut self, number: u64) -> Result<(), OutOfMemory>
        ensures { OnOk result (self.new ≡ self.old ++ decimal number) }
    {
        match &mut self.kept {
            Kept::Shared(string) => write!(Arc::make_mut(string)?, "{number}")?,
            Kept::Short(short) => {
                let mut string = longer(self.alloc, short, DIGITS)?;
                write!(&mut string, "{number}")?;
                self.kept = Kept::Shared(Arc::new(self.alloc, string)?);
            }
        }
        Ok(())
    }
}

/// How many decimal digits a number has at most.
const DIGITS: usize = 20;

/// A string of a short text's bytes, with room for more of them.
fn longer(alloc: Global, short: &Short, more: usize) -> Result<String, OutOfMemory>
    ensures { IfOk result (λ s. string_bytes s ≡ short.now) }
{
    let front = short.as_str();
    let mut string = String::with_capacity(alloc, front.len().saturating_add(more))?;
    string.push_str(front)?;
    Ok(string)
}

impl PartialEq for Text {
    ghost use Rattle.std.specs.Str.{bytes_eq};
    ghost use Rattle.std.specs.Cmp.Rules.{comparing};
    ghost use Rattle.std.proofs.Common.{rules};

    ghost eq = { bytes_eq };

    ghost laws = { Prim.search (comparing, rules) };

    fn eq(&self, other: &Text) -> bool {
        self.as_str() == other.as_str()
    }
}

impl Eq for Text {
    ghost use Rattle.std.specs.Cmp.Rules.{comparing};
    ghost use Rattle.std.proofs.Common.{rules};

    ghost laws = { Prim.search (comparing, rules) };
}

impl PartialOrd for Text {
    ghost use Rattle.std.specs.Cmp.{partial_order_from_own_ties};
    ghost use Rattle.std.specs.Cmp.Lexicographic.{slice_cmp};
    ghost use Rattle.std.specs.Cmp.Rules.{comparing};
    ghost use Rattle.std.specs.Ordering.{nat_cmp, as_partial_cmp};
    ghost use Rattle.std.proofs.Common.{rules};

    ghost partial_cmp = { as_partial_cmp (slice_cmp nat_cmp) };

    ghost laws = { partial_order_from_own_ties (Prim.search (comparing, rules)) (Prim.search (comparing, rules)) };

    fn partial_cmp(&self, other: &Text) -> Option<Ordering> {
        Some(self.cmp(other))
    }
}

impl Ord for Text {
    ghost use Rattle.std.specs.Cmp.Lexicographic.{slice_cmp};
    ghost use Rattle.std.specs.Cmp.Rules.{comparing};
    ghost use Rattle.std.specs.Ordering.{nat_cmp};
    ghost use Rattle.std.proofs.Common.{rules};

    ghost cmp = { slice_cmp nat_cmp };

    ghost total = { Prim.search (comparing, rules) };

    ghost matches_partial_cmp = { Prim.search (comparing, rules) };

    ghost matches_eq = { Prim.search (comparing, rules) };

    fn cmp(&self, other: &Text) -> Ordering {
        self.as_str().cmp(other.as_str())
    }
}

impl Clone for Text {
    ghost use Rattle.std.specs.Prelude.{◌≡◌};

    ghost is_clone = { λ s t. t ≡ s };

    fn clone(&self) -> Result<Text, AllocError> {
        let kept = match &self.kept {
            Kept::Short(short) => Kept::Short(short.copied()),
            Kept::Shared(string) => Kept::Shared(string.clone()?),
        };
        Ok(Text {
            alloc: self.alloc,
            kept,
        })
    }
}
