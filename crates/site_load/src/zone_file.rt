// The file of the site's zone.
ghost use Rattle.std.specs.Prelude.{◌≡◌, ◌≢◌, ◌≤◌, codes, option_map, Some, Err, IfOk, IsErrOf};
ghost use Rattle.site_edge.specs.Told.{Rose, find_file};
ghost use Rattle.conf_sources.specs.Sources.{Told};
ghost use Rattle.eval_work.specs.Kept.{HasGlobals};
ghost use Rattle.site_load.specs.Zones.{name_by, zone_by_name, zone_found, zone_name as name_of_zone, zone_view};

use dsl_value::{Cell, Store, Value};
use site_base::{Blob, Text, quote};
use site_conf::LoadFault;
use site_edge::Files;
use std::alloc::Global;

/// What the file is that `SiteZone` names.
#[derive(Drop)]
pub(crate) enum ZoneFile {
    /// `SiteZone` is no string.
    Unnamed,
    Read(Blob),
    /// There is no such file; its quoted name.
    Missing(Text),
}

/// Reads the file of the zone, if the global `SiteZone` is a string.
pub(crate) fn zone_file<F: Files>(
    alloc: Global,
    files: &mut F,
    store: &Store,
) -> Result<ZoneFile, LoadFault>
    requires { HasGlobals store.now }
    ensures value { (all : Told) → F.told files.old ≡ Some all → IfOk result (λ z. zone_view z ≡ zone_found all (name_of_zone store.now.cells)) }
    ensures same { F.told files.new ≡ F.told files.old }
    ensures cause { IsErrOf result LoadFault.Failed → Rose (F.faults files.old) (F.faults files.new) }
    ensures counts { F.faults files.old ≤ F.faults files.new }
    ensures calm { F.calm files.old → F.calm files.new }
    ensures unfailing { F.calm files.old → result ≢ Err LoadFault.Failed }
{
    match zone_name(store) {
        Some(name) => read_zone(alloc, files, name),
        None => Ok(ZoneFile::Unnamed),
    }
}

fn read_zone<F: Files>(alloc: Global, files: &mut F, name: &str) -> Result<ZoneFile, LoadFault>
    ensures value { (all : Told) → F.told files.old ≡ Some all → IfOk result (λ z. zone_view z ≡ zone_by_name name.now (find_file name.now all)) }
    ensures same { F.told files.new ≡ F.told files.old }
    ensures cause { IsErrOf result LoadFault.Failed → Rose (F.faults files.old) (F.faults files.new) }
    ensures counts { F.faults files.old ≤ F.faults files.new }
    ensures calm { F.calm files.old → F.calm files.new }
    ensures unfailing { F.calm files.old → result ≢ Err LoadFault.Failed }
{
    match files.read(name)? {
        Some(bytes) => Ok(ZoneFile::Read(bytes)),
        None => Ok(ZoneFile::Missing(quote(alloc, name)?)),
    }
}

/// The name of the zone's file, if the global `SiteZone` is a string.
fn zone_name(store: &Store) -> Option<&str>
    requires { HasGlobals store.now }
    ensures { option_map (λ n. n.now) result ≡ name_of_zone store.now.cells }
{
    match store.cell(0) {
        Cell::Dict(_) => match store.get(0, "SiteZone") {
            Some(value) => name_in(value),
            None => None,
        },
        Cell::Array(_) => None,
    }
}

fn name_in(value: &Value) -> Option<&str>
    ensures { option_map (λ n. n.now) result ≡ name_by (Some value.now) }
{
    match value {
        Value::Str(name) => Some(name.as_str()),
        _ => None,
    }
}
