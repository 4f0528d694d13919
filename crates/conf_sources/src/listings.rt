// What is known of folders in a walk.
ghost use Rattle.std.specs.Prelude.{◌≡◌, ◌≤◌, map, IfOk, OnOk, Option, Some, IsErrOf, ◌≢◌, Err};
ghost use Rattle.site_edge.specs.Told.{Rose};
ghost use Rattle.conf_sources.specs.Known.{IsKnown};
ghost use Rattle.conf_sources.specs.Listings.{listing};
ghost use Rattle.conf_sources.specs.Sources.{Told, below_folder as those_below, in_folder as those_in_folder, wild_names as wild_names_of, is_in_folder as stands_in, ends_so as ends_in};

use crate::LoadFault;
use crate::known::Known;
use crate::names::split_name;
use crate::source::Source;
use site_base::{OutOfMemory, Row, Text, Texts};
use site_edge::Files;
use std::alloc::Global;
use wildcards::matches;

/// The folders that were listed, each once, and the files that names with wildcards were found to
/// describe, each once.
#[derive(Drop)]
pub struct Listings {
    pub alloc: Global,
    pub folders: Known,
    pub wildcards: Known,
}

impl Listings {
    /// No folder was listed.
    pub fn new(alloc: Global) -> Listings
        ensures { (told : Option Told) → IsKnown told result.folders result.wildcards }
    {
        Listings {
            alloc,
            folders: Known::new(alloc),
            wildcards: Known::new(alloc),
        }
    }
}

/// The files of one folder that a name with a wildcard in its last part describes, in byte order.
pub(crate) fn wild_files<F: Files>(
    files: &mut F,
    listings: &mut Listings,
    name: &str,
) -> Result<Vec<Source>, LoadFault>
    requires { IsKnown (F.told files.old) listings.old.folders listings.old.wildcards }
    ensures value { (all : Told) → F.told files.old ≡ Some all → IfOk result (λ v. v.items ≡ map Source.File (wild_names_of all name.now)) }
    ensures known { OnOk result (IsKnown (F.told files.new) listings.new.folders listings.new.wildcards) }
    ensures same { F.told files.new ≡ F.told files.old }
    ensures uncounted { F.reads files.new ≡ F.reads files.old }
    ensures cause { IsErrOf result LoadFault.Failed → Rose (F.faults files.old) (F.faults files.new) }
    ensures counts { F.faults files.old ≤ F.faults files.new }
    ensures calm { F.calm files.old → F.calm files.new }
    ensures unfailing { F.calm files.old → result ≢ Err LoadFault.Failed }
{
    if let Some(names) = listings.wildcards.of(name) {
        return Ok(files_named(listings.alloc, names.as_slice())?);
    }
    let names = find_wild(files, listings, name)?;
    let found = files_named(listings.alloc, names.as_slice())?;
    listings.wildcards.keep(name, names)?;
    Ok(found)
}

/// Their names, where they weren't looked for before.
fn find_wild<F: Files>(
    files: &mut F,
    listings: &mut Listings,
    name: &str,
) -> Result<Texts, LoadFault>
    requires { IsKnown (F.told files.old) listings.old.folders listings.old.wildcards }
    ensures value { (all : Told) → F.told files.old ≡ Some all → IfOk result (λ names. names ≡ wild_names_of all name.now) }
    ensures known { OnOk result (IsKnown (F.told files.new) listings.new.folders listings.new.wildcards) }
    ensures same { F.told files.new ≡ F.told files.old }
    ensures uncounted { F.reads files.new ≡ F.reads files.old }
    ensures cause { IsErrOf result LoadFault.Failed → Rose (F.faults files.old) (F.faults files.new) }
    ensures counts { F.faults files.old ≤ F.faults files.new }
    ensures calm { F.calm files.old → F.calm files.new }
    ensures unfailing { F.calm files.old → result ≢ Err LoadFault.Failed }
{
    let (folder, last) = split_name(name);
    if let Some(names) = listings.folders.of(folder) {
        return Ok(in_folder(listings.alloc, folder, last, names.as_slice())?);
    }
    let names = files.names(folder)?;
    let found = in_folder(listings.alloc, folder, last, names.as_slice())?;
    listings.folders.keep(folder, names)?;
    Ok(found)
}

/// The files below a folder, at any depth, whose last part the pattern describes, in byte order.
pub(crate) fn names_below<F: Files>(
    files: &mut F,
    listings: &mut Listings,
    folder: &str,
    pattern: &str,
) -> Result<Texts, LoadFault>
    requires { IsKnown (F.told files.old) listings.old.folders listings.old.wildcards }
    ensures value { (all : Told) → F.told files.old ≡ Some all → IfOk result (λ names. names ≡ those_below pattern.now (listing folder.now all)) }
    ensures known { OnOk result (IsKnown (F.told files.new) listings.new.folders listings.new.wildcards) }
    ensures same { F.told files.new ≡ F.told files.old }
    ensures uncounted { F.reads files.new ≡ F.reads files.old }
    ensures cause { IsErrOf result LoadFault.Failed → Rose (F.faults files.old) (F.faults files.new) }
    ensures counts { F.faults files.old ≤ F.faults files.new }
    ensures calm { F.calm files.old → F.calm files.new }
    ensures unfailing { F.calm files.old → result ≢ Err LoadFault.Failed }
{
    if let Some(names) = listings.folders.of(folder) {
        return Ok(below_folder(listings.alloc, pattern, names.as_slice())?);
    }
    let names = files.names(folder)?;
    let found = below_folder(listings.alloc, pattern, names.as_slice())?;
    listings.folders.keep(folder, names)?;
    Ok(found)
}

/// The files of these names.
pub(crate) fn files_named(alloc: Global, names: &[Text]) -> Result<Vec<Source>, OutOfMemory>
    ensures { IfOk result (λ v. v.items ≡ map Source.File names.now) }
{
    let mut all = Vec::new(alloc);
    for name in names {
        all.push(Source::File(name.clone()?))?;
    }
    Ok(all)
}

/// Of these names, those in the one folder that the pattern describes.
fn in_folder(
    alloc: Global,
    folder: &str,
    pattern: &str,
    names: &[Text],
) -> Result<Texts, OutOfMemory>
    ensures { IfOk result (λ found. found ≡ those_in_folder folder.now pattern.now names.now) }
{
    let mut found = Row::new(alloc);
    for name in names {
        if is_in_folder(folder, pattern, name.as_str()) {
            found.push(name.clone()?)?;
        }
    }
    Ok(found)
}

/// Whether a name stands in the folder and the pattern describes its last part.
fn is_in_folder(folder: &str, pattern: &str, name: &str) -> bool
    ensures { result ≡ stands_in folder.now pattern.now name.now }
{
    let (in_folder, last) = split_name(name);
    in_folder == folder && matches(pattern, last)
}

/// Of these names, those whose last part the pattern describes.
fn below_folder(alloc: Global, pattern: &str, names: &[Text]) -> Result<Texts, OutOfMemory>
    ensures { IfOk result (λ found. found ≡ those_below pattern.now names.now) }
{
    let mut found = Row::new(alloc);
    for name in names {
        if ends_so(pattern, name.as_str()) {
            found.push(name.clone()?)?;
        }
    }
    Ok(found)
}

/// Whether the pattern describes the last part of a name.
fn ends_so(pattern: &str, name: &str) -> bool
    ensures { result ≡ ends_in pattern.now name.now }
{
    let (_, last) = split_name(name);
    matches(pattern, last)
}
