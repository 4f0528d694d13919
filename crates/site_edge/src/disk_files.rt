// The real files.
ghost use Rattle.std.specs.Prelude.{◌≡◌, ◌≤◌, None, OnOk, OnErr};
ghost use Rattle.site_edge.specs.Told.{Rose};

use crate::disk_fault::{DiskFault, Unread};
use crate::folder::folder_prefix;
use crate::{FileFault, Files};
use site_base::{Blob, Row, Text, Texts};
use std::fs;
use std::fs::DirEntry;
use std::io::{ErrorKind, Read};

/// No file of more bytes is read.
const MAX_BYTES: u64 = 1 << 30;

/// No folder with more files below it is listed.
const MAX_FILES: usize = 1_000_000;

/// No folder with more levels of folders below it is listed.
const MAX_LEVELS: u32 = 100;

/// The real files. Nothing is told of what they hold.
///
/// `read` takes whatever can be opened and read to its end, up to 1 GiB; a folder, a longer file and
/// one without the right to read are `Failed`. `names` follows links and gives those that lead
/// nowhere too, passes over devices, pipes and sockets, and is `Failed` at a folder without the
/// right to read it, at a name that is no UTF-8, above 1,000,000 files and below 100 levels. For both
/// a name that no file can have is missing, as one that goes through a file or holds a byte 0, and one
/// that leads to itself by links is `Failed`.
#[derive(Drop)]
pub struct DiskFiles<R: std::rt::Files + AllocGlobal + Clone + Drop> {
    rt: R,
    faults: u64,
    unread: Option<Unread>,
}

/// A folder that is still to be listed.
#[derive(Drop)]
struct Folder {
    path: Text,
    level: u32,
}

impl<R: std::rt::Files + AllocGlobal + Clone + Drop> DiskFiles<R> {
    pub fn new(rt: R) -> DiskFiles<R>
        ensures { ⟦<DiskFiles<R> as Files>⟧.faults result ≡ 0 }
    {
        DiskFiles {
            rt,
            faults: 0,
            unread: None,
        }
    }

    /// What could not be read or listed last, and why; `None` if all could, or if there was no memory for it.
    pub fn unread(&self) -> Option<&Unread> {
        self.unread.as_ref()
    }

    /// Counts an error, and keeps why it came.
    fn counted<T>(&mut self, name: &str, answer: Result<T, DiskFault>) -> Result<T, FileFault>
        ensures rises { OnErr result (Rose self.old.faults self.new.faults) }
        ensures counts { self.old.faults ≤ self.new.faults }
        ensures quiet { OnOk result (self.new.faults ≡ self.old.faults) }
    {
        match answer {
            Ok(value) => Ok(value),
            Err(DiskFault::OutOfMemory) => {
                self.faults = self.faults.saturating_add(1);
                Err(FileFault::OutOfMemory)
            }
            Err(fault) => {
                self.faults = self.faults.saturating_add(1);
                self.unread = fault.of(self.rt.alloc(), name);
                Err(FileFault::Failed)
            }
        }
    }
}

impl<R: std::rt::Files + AllocGlobal + Clone + Drop> Files for DiskFiles<R> {
    ghost told = { λ _. None };

    ghost reads = { λ _. None };

    ghost faults = { λ f. f.faults };

    ghost calm = { λ _. ⊥ };

    fn read(&mut self, name: &str) -> Result<Option<Blob>, FileFault> {
        let answer = read_whole(&self.rt, name);
        self.counted(name, answer)
    }

    fn names(&mut self, dir: &str) -> Result<Texts, FileFault> {
        let answer = list_files(&self.rt, dir);
        self.counted(dir, answer)
    }
}

/// Whether nothing is there, or no file or folder can have such a name: one that goes through a file,
/// holds a byte 0, or is too long.
fn is_missing(kind: ErrorKind) -> bool {
    matches!(
        kind,
        ErrorKind::NotFound
            | ErrorKind::NotADirectory
            | ErrorKind::InvalidInput
            | ErrorKind::InvalidFilename
    )
}

/// The bytes of a file; `None` if it is missing.
fn read_whole<R: std::rt::Files + AllocGlobal>(
    rt: &R,
    name: &str,
) -> Result<Option<Blob>, DiskFault> {
    let file = match fs::open(rt, name) {
        Ok(file) => file,
        Err(error) if is_missing(error.kind()) => return Ok(None),
        Err(error) => return Err(DiskFault::from(error)),
    };
    let mut bytes = Vec::new(rt.alloc());
    let _ = file.take(MAX_BYTES + 1).read_to_end(&mut bytes)?;
    if bytes.len() as u64 > MAX_BYTES {
        return Err(DiskFault::too_much("it has more than 1 GiB"));
    }
    Ok(Some(Blob::from(bytes)))
}

/// The paths of all files below a folder, in byte order.
fn list_files<R: std::rt::Files + AllocGlobal + Clone + Drop>(
    rt: &R,
    dir: &str,
) -> Result<Texts, DiskFault> {
    let alloc = rt.alloc();
    let mut names = Vec::new(alloc);
    let mut folders = Vec::new(alloc);
    folders.push(Folder {
        path: Text::copy_of(alloc, dir)?,
        level: 0,
    })?;
    for _ in 0..u64::MAX {
        match folders.pop() {
            Some(folder) => list_folder(rt, &folder, &mut names, &mut folders)?,
            None => break,
        }
    }
    names.sort()?;
    Ok(Row::from(names))
}

/// Adds the files of one folder, and the folders in it that are to be listed.
fn list_folder<R: std::rt::Files + AllocGlobal + Clone + Drop>(
    rt: &R,
    folder: &Folder,
    names: &mut Vec<Text>,
    folders: &mut Vec<Folder>,
) -> Result<(), DiskFault> {
    let prefix = folder_prefix(rt.alloc(), folder.path.as_str())?;
    let path = if prefix.is_empty() {
        "."
    } else {
        prefix.as_str()
    };
    let entries = match fs::read_dir(rt, path) {
        Ok(entries) => entries,
        Err(error) if is_missing(error.kind()) => return Ok(()),
        Err(error) => return Err(DiskFault::from(error)),
    };
    for entry in entries {
        let mut path = prefix.clone()?;
        path.push_str(entry?.file_name())?;
        list_entry(rt, path, folder.level, names, folders)?;
    }
    Ok(())
}

/// Adds a path where it is that of a file, or of a folder to be listed.
fn list_entry<R: std::rt::Files>(
    rt: &R,
    path: Text,
    level: u32,
    names: &mut Vec<Text>,
    folders: &mut Vec<Folder>,
) -> Result<(), DiskFault> {
    let is_file = match fs::metadata(rt, path.as_str()) {
        Ok(metadata) if metadata.is_dir() => {
            if level >= MAX_LEVELS {
                return Err(DiskFault::too_much("it has more than 100 levels of folders"));
            }
            folders.push(Folder {
                path,
                level: level + 1,
            })?;
            return Ok(());
        }
        Ok(metadata) => metadata.is_file(),
        Err(error) if is_missing(error.kind()) => true,
        Err(error) => return Err(DiskFault::from(error)),
    };
    if is_file {
        if names.len() >= MAX_FILES {
            return Err(DiskFault::too_much("it has more than 1,000,000 files"));
        }
        names.push(path)?;
    }
    Ok(())
}
