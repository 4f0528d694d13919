// All that a row describes.
use crate::shown::NO_NUMBER;
use case_rows::unmarked;
use case_trees::tree_of;
use eval_meaning::Read;
use eval_work::{Committed, Known, SourceFile};
use site_base::{Blob, OutOfMemory, Place, Row, Text, Texts, Tree};
use site_model::Object;
use std::alloc::Global;
use std::sync::Arc;

/// What stands before each part of a row.
const PART: &str = " ‖ ";

/// The name of a row's root.
pub(crate) const ROOT: &str = "r";

/// All that a row describes: its files in the order of their walk, the objects that are shown, what is known beside them, and what the
/// last object has before its body is run.
#[derive(Drop)]
pub(crate) struct Scene {
    pub(crate) names: Texts,
    pub(crate) files: Vec<SourceFile>,
    pub(crate) order: Vec<u32>,
    pub(crate) objects: Committed,
    pub(crate) known: Known,
    pub(crate) presets: Vec<(Text, Tree)>,
    pub(crate) bound: Vec<(Text, Tree)>,
}

fn add_file(
    alloc: Global,
    files: &mut Row<(Text, Blob)>,
    name: &str,
    text: &str,
) -> Result<(), OutOfMemory> {
    let text = unmarked(alloc, text)?;
    let bytes = Blob::copy_of(alloc, text.as_bytes())?;
    files.push((Text::copy_of(alloc, name)?, bytes))
}

impl Scene {
    /// A scene without files and objects.
    pub(crate) fn new(alloc: Global) -> Scene {
        Scene {
            names: Texts::new(alloc),
            files: Vec::new(alloc),
            order: Vec::new(alloc),
            objects: Committed::new(alloc),
            known: Known {
                whole: Vec::new(alloc),
                absent: Vec::new(alloc),
            },
            presets: Vec::new(alloc),
            bound: Vec::new(alloc),
        }
    }

    /// Reads a row, and answers whether its files can be walked. All hosts and services are told, unless the row says otherwise.
    pub(crate) fn read(&mut self, alloc: Global, row: &str) -> Result<bool, OutOfMemory> {
        self.add_whole(alloc, "Host")?;
        self.add_whole(alloc, "Service")?;
        let mut files = Row::new(alloc);
        self.take_all(alloc, &mut files, row)?;
        self.walk(alloc, files)
    }

    /// Adds a type of which all objects are told.
    fn add_whole(&mut self, alloc: Global, kind: &str) -> Result<(), OutOfMemory> {
        self.known.whole.push(Text::copy_of(alloc, kind)?)?;
        Ok(())
    }

    /// Takes the parts of a row, of which the first is the text of its root.
    fn take_all(
        &mut self,
        alloc: Global,
        files: &mut Row<(Text, Blob)>,
        row: &str,
    ) -> Result<(), OutOfMemory> {
        let mut parts = row.split(PART);
        add_file(alloc, files, ROOT, parts.next().unwrap_or(""))?;
        for part in parts {
            self.take(alloc, files, part)?;
        }
        Ok(())
    }

    /// Takes a part of a row: a word, a name, and a text or a tree.
    fn take(
        &mut self,
        alloc: Global,
        files: &mut Row<(Text, Blob)>,
        part: &str,
    ) -> Result<(), OutOfMemory> {
        let (word, text) = part.split_once(' ').unwrap_or((part, ""));
        let (name, text) = text.split_once(' ').unwrap_or((text, ""));
        match word {
            "file" => add_file(alloc, files, name, text),
            "partial" => {
                self.known.whole = Vec::new(alloc);
                Ok(())
            }
            "absent" => self.add_absent(alloc, name, text),
            "shows" => self.objects.add(object_of(alloc, name, text)?),
            "preset" => add_tree(alloc, &mut self.presets, name, text),
            _ => add_tree(alloc, &mut self.bound, name, text),
        }
    }

    /// Adds a name that no object of this type has.
    fn add_absent(&mut self, alloc: Global, kind: &str, name: &str) -> Result<(), OutOfMemory> {
        let name = unmarked(alloc, name)?;
        let kind = Text::copy_of(alloc, kind)?;
        self.known.absent.push(Read { kind, name })?;
        Ok(())
    }
}

/// The object of a type whose name and tree are written.
fn object_of(alloc: Global, kind: &str, text: &str) -> Result<Object, OutOfMemory> {
    let (name, tree) = text.split_once(' ').unwrap_or((text, ""));
    let tree = Arc::new(alloc, marked_tree(alloc, tree)?)?;
    let kind = Text::copy_of(alloc, kind)?;
    Ok(Object {
        kind,
        name: Text::copy_of(alloc, name)?,
        place: Place {
            file: 0,
            line: 1,
            col: 1,
        },
        number: NO_NUMBER,
        builtin: false,
        tree,
    })
}

fn add_tree(
    alloc: Global,
    pairs: &mut Vec<(Text, Tree)>,
    name: &str,
    tree: &str,
) -> Result<(), OutOfMemory> {
    let tree = marked_tree(alloc, tree)?;
    pairs.push((Text::copy_of(alloc, name)?, tree))?;
    Ok(())
}

/// A tree with the marks of rows in it; null if the text is none.
fn marked_tree(alloc: Global, text: &str) -> Result<Tree, OutOfMemory> {
    let text = unmarked(alloc, text)?;
    Ok(tree_of(alloc, text.as_str())?.unwrap_or(Tree::Null))
}
