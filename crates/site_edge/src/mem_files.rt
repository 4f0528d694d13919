// Files in memory.
ghost use Rattle.std.specs.Prelude.{◌≡◌, ◌≢◌, ◌≤◌, ◌++◌, [], ◌∷◌, IfOk, OnOk, OnErr, IsErrOf, Some, Err, filter, map};
ghost use Rattle.site_edge.specs.Fakes.{fresh, files_failures, FailsAsListed, IsCalm};
ghost use Rattle.site_edge.specs.Told.{find_file, folder_prefix as prefix_of, is_below as stands_below, name_of, IsListingOf, Rose};

use crate::folder::folder_prefix;
use crate::mem_failures::Failures;
use crate::{FileFault, Files};
use site_base::{Blob, OutOfMemory, Row, Text, Texts};
use std::alloc::Global;

/// Files in memory, of which all is told. The n-th call fails exactly where n is listed, counted
/// from 1.
#[derive(Drop)]
pub struct MemFiles {
    alloc: Global,
    files: Row<(Text, Blob)>,
    reads: Texts,
    failures: Failures,
    faults: u64,
}

impl MemFiles {
    /// Files with these names and bytes. Of several with one name the first counts.
    pub fn new(alloc: Global, files: Row<(Text, Blob)>, failing: Row<u64>) -> MemFiles
        ensures told { ⟦<MemFiles as Files>⟧.told result ≡ Some files }
        ensures reads { ⟦<MemFiles as Files>⟧.reads result ≡ Some [] }
        ensures failing { files_failures result ≡ fresh failing }
        ensures faults { ⟦<MemFiles as Files>⟧.faults result ≡ 0 }
        ensures calm { failing ≡ [] → ⟦<MemFiles as Files>⟧.calm result }
    {
        MemFiles {
            alloc,
            files,
            reads: Row::new(alloc),
            failures: Failures::new(failing),
            faults: 0,
        }
    }

    /// The names that were read, one for each read, in order.
    pub fn reads(&self) -> &[Text]
        ensures { ⟦<MemFiles as Files>⟧.reads self.now ≡ Some result.now }
    {
        self.reads.as_slice()
    }
}

impl Files for MemFiles {
    ghost told = { λ f. Some f.files };

    ghost reads = { λ f. Some f.reads };

    ghost faults = { λ f. f.faults };

    ghost calm = { λ f. IsCalm f.failures };

    fn read(&mut self, name: &str) -> Result<Option<Blob>, FileFault>
        ensures bytes { IfOk result (λ found. found ≡ find_file name.now self.old.files) }
        ensures same { self.new.files ≡ self.old.files }
        ensures counted { OnOk result (self.new.reads ≡ self.old.reads ++ name.now ∷ []) }
        ensures uncounted { OnErr result (self.new.reads ≡ self.old.reads) }
        ensures failing { FailsAsListed (files_failures self.old) (files_failures self.new)
            (IsErrOf result FileFault.Failed) }
        ensures cause { IsErrOf result FileFault.Failed → Rose self.old.faults self.new.faults }
        ensures counts { self.old.faults ≤ self.new.faults }
        ensures quiet { result ≢ Err FileFault.Failed → self.new.faults ≡ self.old.faults }
        ensures calm { IsCalm (files_failures self.old) → IsCalm (files_failures self.new) }
        ensures unfailing { IsCalm (files_failures self.old) → result ≢ Err FileFault.Failed }
    {
        if self.failures.next_fails() {
            self.faults = self.faults.saturating_add(1);
            return Err(FileFault::Failed);
        }
        let found = find(self.alloc, self.files.as_slice(), name)?;
        self.reads.push(Text::copy_of(self.alloc, name)?)?;
        Ok(found)
    }

    fn names(&mut self, dir: &str) -> Result<Texts, FileFault>
        ensures names { IfOk result (IsListingOf dir.now self.old.files) }
        ensures same { self.new.files ≡ self.old.files }
        ensures uncounted { self.new.reads ≡ self.old.reads }
        ensures failing { FailsAsListed (files_failures self.old) (files_failures self.new)
            (IsErrOf result FileFault.Failed) }
        ensures cause { IsErrOf result FileFault.Failed → Rose self.old.faults self.new.faults }
        ensures counts { self.old.faults ≤ self.new.faults }
        ensures quiet { result ≢ Err FileFault.Failed → self.new.faults ≡ self.old.faults }
        ensures calm { IsCalm (files_failures self.old) → IsCalm (files_failures self.new) }
        ensures unfailing { IsCalm (files_failures self.old) → result ≢ Err FileFault.Failed }
    {
        if self.failures.next_fails() {
            self.faults = self.faults.saturating_add(1);
            return Err(FileFault::Failed);
        }
        let names = names_below(self.alloc, self.files.as_slice(), dir)?;
        Ok(names)
    }
}

/// The bytes of the first file of a name.
fn find(alloc: Global, files: &[(Text, Blob)], name: &str) -> Result<Option<Blob>, OutOfMemory>
    ensures { IfOk result (λ found. found ≡ find_file name.now files.now) }
{
    for (path, bytes) in files {
        if path.as_str() == name {
            return Ok(Some(Blob::copy_of(alloc, bytes.as_slice())?));
        }
    }
    Ok(None)
}

/// The names below a folder, each once, in byte order.
fn names_below(alloc: Global, files: &[(Text, Blob)], dir: &str) -> Result<Texts, OutOfMemory>
    ensures { IfOk result (IsListingOf dir.now files.now) }
{
    let prefix = folder_prefix(alloc, dir)?;
    let mut names = names_with(alloc, files, dir, prefix.as_bytes())?;
    names.sort()?;
    names.dedup();
    Ok(Row::from(names))
}

/// The names below a folder whose paths begin so, in the order of the files.
fn names_with(
    alloc: Global,
    files: &[(Text, Blob)],
    dir: &str,
    prefix: &[u8],
) -> Result<Vec<Text>, OutOfMemory>
    requires { prefix.now ≡ prefix_of dir.now }
    ensures { IfOk result (λ v. v.items ≡ filter (stands_below dir.now) (map name_of files.now)) }
{
    let mut names = Vec::new(alloc);
    for (name, _) in files {
        if is_below(dir, prefix, name.as_bytes()) {
            names.push(name.clone()?)?;
        }
    }
    Ok(names)
}

/// Whether a name stands below the folder whose paths begin so.
fn is_below(dir: &str, prefix: &[u8], name: &[u8]) -> bool
    requires { prefix.now ≡ prefix_of dir.now }
    ensures { result ≡ stands_below dir.now name.now }
{
    if dir.is_empty() {
        !name.starts_with(b"/")
    } else {
        name.starts_with(prefix)
    }
}
