// What inclusions name.
ghost use Rattle.std.specs.Prelude.{◌≡◌, IfOk};
ghost use Rattle.conf_sources.specs.Sources.{full_name as full_name_of, is_library as is_library_of};

use site_base::{OutOfMemory, Text};
use std::alloc::Global;

/// What an inclusion names.
#[derive(Clone, Drop, PartialEq, Eq)]
pub enum Source {
    /// A file.
    File(Text),
    /// A part of the built-in library.
    Library(Text),
}

/// Whether it is a part of the built-in library.
pub fn is_library(source: &Source) -> bool
    ensures { result ≡ is_library_of source.now }
{
    matches!(source, Source::Library(_))
}

/// The name that is shown: a file's own, and that of a part of the library between `<` and `>`.
pub fn full_name(alloc: Global, source: &Source) -> Result<Text, OutOfMemory>
    ensures { IfOk result (λ t. t ≡ full_name_of source.now) }
{
    match source {
        Source::File(name) => Text::copy_of(alloc, name.as_str()),
        Source::Library(name) => {
            let mut text = Text::new(alloc);
            text.push('<')?;
            text.push_str(name.as_str())?;
            text.push('>')?;
            Ok(text)
        }
    }
}
