// The files of a walk, as the load takes them.
ghost use Rattle.std.specs.Prelude.{◌≡◌, IfOk, map};
ghost use Rattle.dsl_syntax.specs.SyntaxView.{file_view};
ghost use Rattle.eval_work.specs.Works.{plain_file};
ghost use Rattle.site_load.specs.Loads.{plain_files};

use dsl_syntax::File;
use eval_work::SourceFile;
use site_base::{OutOfMemory, Texts};
use std::alloc::Global;

/// Each tree with its file's name, and whether that is a part of the built-in library.
pub(crate) fn source_files(
    alloc: Global,
    names: &Texts,
    library: &[bool],
    trees: Vec<File>,
) -> Result<Vec<SourceFile>, OutOfMemory>
    ensures { IfOk result (λ fs. map plain_file fs.items ≡ plain_files names.now library.now (map file_view trees.items)) }
{
    let mut files = Vec::with_capacity(alloc, trees.len())?;
    let mut left = names.as_slice();
    let mut flags = library;
    for file in trees {
        let [name, more_names @ ..] = left else {
            return Ok(files);
        };
        let [builtin, more_flags @ ..] = flags else {
            return Ok(files);
        };
        files.push(SourceFile {
            name: name.clone()?,
            builtin: *builtin,
            file,
        })?;
        left = more_names;
        flags = more_flags;
    }
    Ok(files)
}
