// The names in objects' statements.
ghost use Rattle.std.specs.Prelude.{◌≡◌, ◌<◌, [], length, IfOk, MatchOption};
ghost use Rattle.commit_meaning.specs.Names.{behind_last};

use site_base::{OutOfMemory, Text};
use std::alloc::Global;

/// The name in the statement of an object with this full name. It shares the bytes of a full name without a `!`.
pub(crate) fn own_text(alloc: Global, full: &Text) -> Result<Text, OutOfMemory>
    ensures { IfOk result (λ t. t ≡ behind_last [] full.now) }
{
    match behind_mark(full.as_str()) {
        Some(behind) => Text::copy_of(alloc, own_name(behind)),
        None => Ok(full.clone()?),
    }
}

/// What stands behind the last `!` of a full name, all of it if there is none. A name in a statement holds no `!`, so this is
/// the name in the object's statement.
fn own_name(full: &str) -> &str
    ensures { result.now ≡ behind_last [] full.now }
{
    let mut rest = full;
    while let Some(behind) = behind_mark(rest) {
        rest = behind;
    }
    rest
}

/// What stands behind the first `!`.
fn behind_mark(name: &str) -> Option<&str>
    ensures { MatchOption result (behind_last [] name.now ≡ name.now) (λ rest. (behind_last [] name.now ≡ behind_last [] rest.now) × (length rest.now < length name.now)) }
{
    match cut(name) {
        Some((_, behind)) => Some(behind),
        None => None,
    }
}

/// What stands before the first `!`, and what behind it.
fn cut(name: &str) -> Option<(&str, &str)>
    ensures { MatchOption result (behind_last [] name.now ≡ name.now) (λ x. (behind_last [] name.now ≡ behind_last [] x.1.now) × (length x.1.now < length name.now)) }
{
    name.split_once('!')
}
