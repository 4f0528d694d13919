// The listing's lines.
ghost use Rattle.std.specs.Prelude.{◌≡◌, IfOk};
ghost use Rattle.site_text.specs.Listing.{object_line};

use crate::walk::push_tree;
use site_base::{OutOfMemory, Text, push_quoted};
use site_model::Object;
use std::alloc::Global;

/// The line of an object in the listing: its type, its quoted name and its tree, with a newline.
pub fn print_object(alloc: Global, object: &Object) -> Result<Text, OutOfMemory>
    ensures { IfOk result (λ t. t ≡ object_line object.now) }
{
    let mut out = Text::copy_of(alloc, object.kind.as_str())?;
    out.push(' ')?;
    push_quoted(&mut out, object.name.as_str())?;
    out.push(' ')?;
    push_tree(alloc, &mut out, &object.tree)?;
    out.push('\n')?;
    Ok(out)
}
