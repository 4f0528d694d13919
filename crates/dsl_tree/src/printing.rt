// The print of a file.
ghost use Rattle.std.specs.Prelude.{◌≡◌, IfOk};
ghost use Rattle.dsl_syntax.specs.SyntaxView.{file_view};
ghost use Rattle.dsl_tree.specs.Spelling.{file_text};

use crate::stmts::push_stmts;
use dsl_syntax::File;
use site_base::{OutOfMemory, Text};
use std::alloc::Global;

/// The one spelling of a file: one statement a line, and parentheses round each operand that isn't a
/// primary and round the name of an `apply` that would begin with a brace.
///
/// # Errors
/// Want of memory alone.
pub fn print(alloc: Global, file: &File) -> Result<Text, OutOfMemory>
    ensures text { IfOk result (λ t. t ≡ file_text (file_view file.now)) }
{
    let mut out = Text::new(alloc);
    push_stmts(&mut out, &file.statements)?;
    Ok(out)
}
