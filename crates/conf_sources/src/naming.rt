// What inclusions name.
ghost use Rattle.std.specs.Prelude.{◌≡◌, ◌≤◌, [], ◌∷◌, Some, IfOk, OnOk, IsErrOf, ◌≢◌, Err};
ghost use Rattle.site_edge.specs.Told.{Rose};
ghost use Rattle.conf_sources.specs.Known.{IsKnown};
ghost use Rattle.conf_sources.specs.Sources.{Told, sources_of, named as named_in};

use crate::LoadFault;
use crate::inclusion::Inclusion;
use crate::listings::{Listings, files_named, names_below, wild_files};
use crate::names::{has_wildcard, joined, split_name, trimmed};
use crate::source::Source;
use site_base::{OutOfMemory, Text};
use site_edge::Files;
use std::alloc::Global;

/// What an inclusion in the file of this name names.
pub fn sources<F: Files>(
    files: &mut F,
    listings: &mut Listings,
    file: &str,
    inclusion: &Inclusion,
) -> Result<Vec<Source>, LoadFault>
    requires { IsKnown (F.told files.old) listings.old.folders listings.old.wildcards }
    ensures value { (all : Told) → F.told files.old ≡ Some all →
        IfOk result (λ v. v.items ≡ sources_of all file.now inclusion.now) }
    ensures known { OnOk result (IsKnown (F.told files.new) listings.new.folders listings.new.wildcards) }
    ensures same { F.told files.new ≡ F.told files.old }
    ensures uncounted { F.reads files.new ≡ F.reads files.old }
    ensures cause { IsErrOf result LoadFault.Failed → Rose (F.faults files.old) (F.faults files.new) }
    ensures counts { F.faults files.old ≤ F.faults files.new }
    ensures calm { F.calm files.old → F.calm files.new }
    ensures unfailing { F.calm files.old → result ≢ Err LoadFault.Failed }
{
    let alloc = listings.alloc;
    match inclusion {
        Inclusion::File { name, .. } => {
            let name = joined(alloc, file, name.as_str())?;
            named(files, listings, name)
        }
        Inclusion::Library { name, .. } => Ok(only(alloc, Source::Library(name.clone()?))?),
        Inclusion::Folder { dir, pattern, .. } => {
            let dir = joined(alloc, file, dir.as_str())?;
            let names = names_below(files, listings, trimmed(dir.as_str()), pattern.as_str())?;
            Ok(files_named(alloc, names.as_slice())?)
        }
    }
}

/// What a name names: with a wildcard in its last part the files of that one folder that match it, in
/// byte order; else itself.
fn named<F: Files>(
    files: &mut F,
    listings: &mut Listings,
    name: Text,
) -> Result<Vec<Source>, LoadFault>
    requires { IsKnown (F.told files.old) listings.old.folders listings.old.wildcards }
    ensures value { (all : Told) → F.told files.old ≡ Some all →
        IfOk result (λ v. v.items ≡ named_in all name) }
    ensures known { OnOk result (IsKnown (F.told files.new) listings.new.folders listings.new.wildcards) }
    ensures same { F.told files.new ≡ F.told files.old }
    ensures uncounted { F.reads files.new ≡ F.reads files.old }
    ensures cause { IsErrOf result LoadFault.Failed → Rose (F.faults files.old) (F.faults files.new) }
    ensures counts { F.faults files.old ≤ F.faults files.new }
    ensures calm { F.calm files.old → F.calm files.new }
    ensures unfailing { F.calm files.old → result ≢ Err LoadFault.Failed }
{
    let alloc = listings.alloc;
    let (_, last) = split_name(name.as_str());
    if has_wildcard(last) {
        wild_files(files, listings, name.as_str())
    } else {
        Ok(only(alloc, Source::File(name))?)
    }
}

/// A list of one.
fn only(alloc: Global, source: Source) -> Result<Vec<Source>, OutOfMemory>
    ensures { IfOk result (λ v. v.items ≡ source ∷ []) }
{
    let mut all = Vec::new(alloc);
    all.push(source)?;
    Ok(all)
}
