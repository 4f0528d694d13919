// The strings of attributes.
ghost use Rattle.std.specs.Prelude.{◌≡◌};
ghost use Rattle.site_base.specs.View.{view, pairs_view};
ghost use Rattle.object_types.specs.Names.{attribute_name};
ghost use Rattle.conf_check.specs.References.{text_under as string_under, text_of as string_of};
ghost use Rattle.commit_meaning.specs.Names.{text_of as attribute_text};

use object_types::Attribute;
use site_base::{Text, Tree};

/// The string of an attribute; empty if it isn't set, or is no string.
pub fn text_of(tree: &Tree, attribute: Attribute) -> &str
    ensures { result.now ≡ attribute_text (view tree.now) attribute }
{
    match tree {
        Tree::Dict(pairs) => text_under(attribute.name(), pairs),
        _ => "",
    }
}

/// The string under a key; empty if there is none.
fn text_under<'a>(key: &str, pairs: &'a [(Text, Tree)]) -> &'a str
    ensures { result.now ≡ string_under key.now (pairs_view pairs.now) }
{
    for (name, value) in pairs {
        if name.as_str() == key {
            return string(value);
        }
    }
    ""
}

/// A string; empty if the value is none.
fn string(value: &Tree) -> &str
    ensures { result.now ≡ string_of (view value.now) }
{
    match value {
        Tree::Str(text) => text.as_str(),
        _ => "",
    }
}
