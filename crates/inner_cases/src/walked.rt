// The walk over a row's files.
use crate::scene::{ROOT, Scene};
use dsl_syntax::File;
use eval_work::SourceFile;
use site_base::{Blob, OutOfMemory, Row, Text};
use site_conf::{LoadFault, Walk, WalkAnswer, walk};
use site_edge::MemFiles;
use std::alloc::Global;

impl Scene {
    /// Takes files in the order in which a walk meets them, and answers whether it ends without faults.
    pub(crate) fn walk(
        &mut self,
        alloc: Global,
        files: Row<(Text, Blob)>,
    ) -> Result<bool, OutOfMemory> {
        let mut files = MemFiles::new(alloc, files, Row::new(alloc));
        match walk(alloc, &mut files, ROOT) {
            Ok(WalkAnswer::Walked(walk)) => {
                self.take_walk(walk)?;
                Ok(true)
            }
            Err(LoadFault::OutOfMemory) => Err(OutOfMemory),
            _ => Ok(false),
        }
    }

    fn take_walk(&mut self, walk: Walk) -> Result<(), OutOfMemory> {
        self.names = walk.names;
        self.order = walk.order;
        let trees = walk.trees;
        self.add_files(&walk.library, trees)
    }

    /// Adds the tree of each name, and whether it is one of the built-in library.
    fn add_files(&mut self, library: &[bool], trees: Vec<File>) -> Result<(), OutOfMemory> {
        let heads = self.names.as_slice().iter().zip(library);
        for ((name, builtin), file) in heads.zip(trees) {
            self.files.push(SourceFile {
                name: name.clone()?,
                builtin: *builtin,
                file,
            })?;
        }
        Ok(())
    }
}
