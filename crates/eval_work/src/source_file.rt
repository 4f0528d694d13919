// Files of a load.
use dsl_syntax::File;
use site_base::Text;

/// A file of a load.
#[derive(Drop)]
pub struct SourceFile {
    pub name: Text,
    /// Whether it is a part of the built-in library.
    pub builtin: bool,
    pub file: File,
}
