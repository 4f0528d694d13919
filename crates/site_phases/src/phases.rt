// All phases, one after another.
ghost use Rattle.std.specs.Prelude.{◌≡◌, ◌<◌, ◌^◌, ◌-◌, Bool, [], ◌∷◌, All, map, length, IfOk};
ghost use Rattle.std.specs.Bool.{Decides};
ghost use Rattle.site_model.specs.PlainSite.{object_view, site_view};
ghost use Rattle.site_model.specs.Sound.{IsSound};
ghost use Rattle.commit_meaning.specs.Commits.{unless_told, first_told};
ghost use Rattle.site_phases.specs.Constants.{AreBadBytes, globals_view, settings_of};
ghost use Rattle.site_phases.specs.CycleFaults.{cycle_faults as cycle_faults_of, turning};
ghost use Rattle.site_phases.specs.Phases.{FilesStay, IfSite, IsGiven, IsReady, answer_view, last_part};

use crate::cycles::cycle_faults;
use crate::{Answer, Globals};
use conf_check::{Together, check_together};
use site_base::{Diags, OutOfMemory, Row, Texts};
use site_model::{Object, Site};
use std::alloc::Global;
use typed_site::typed_site;

/// What all objects of a configuration come to, which stand in committed order and in these files: a site, or what is wrong with
/// them together. There are fewer than 4,294,967,294 of them, so that each has a place.
///
/// The diagnostics of one phase alone are told, the first that has any: `Duplicate`, `NoReference`, `DependencyCycle`, and
/// last `BadConst` and `BadZone` of the constants.
pub fn last_phases(
    alloc: Global,
    files: Texts,
    objects: Row<Object>,
    globals: Globals,
) -> Result<Answer, OutOfMemory>
    requires placed { All (λ o. o.place.file < length files) objects }
    requires few { length objects < 2 ^ 32 - 2 }
    // Whether the zone's file is one is what its reader says.
    ensures value { (bad : Bool) → Decides bad (AreBadBytes (settings_of (globals_view globals)).zone)
        → IfOk result (λ a. answer_view a ≡ last_part files (globals_view globals) (map object_view objects) bad) }
    ensures files { IfOk result (FilesStay files) }
    // A run may begin with every site that is given.
    ensures ready { IfOk result (λ a. IfSite a IsReady) }
{
    let Together {
        duplicates,
        references,
    } = check_together(alloc, objects.as_slice(), &files)?;
    if !duplicates.is_empty() {
        return Ok(Answer::Diags {
            files,
            list: duplicates,
        });
    }
    if !references.is_empty() {
        return Ok(Answer::Diags {
            files,
            list: references,
        });
    }
    let faults = globals.faults(alloc)?;
    let site = typed_site(alloc, files, objects, globals.into_settings())?;
    Ok(with_site(alloc, site, faults)?)
}

/// The phases of a site: its dependencies, and then its constants, of which these faults are known.
fn with_site(alloc: Global, site: Site, faults: Diags) -> Result<Answer, OutOfMemory>
    requires sound { IsSound (site_view site) }
    requires few { length (site_view site).checkables < 2 ^ 32 }
    ensures value { IfOk result (λ a. answer_view a ≡ unless_told (site_view site)
        (first_told (cycle_faults_of (site_view site) (turning (site_view site)) ∷ faults ∷ []))) }
    ensures files { IfOk result (FilesStay site.files) }
    ensures given { IfOk result (λ a. IfSite a (IsGiven (site_view site) faults)) }
{
    let list = cycle_faults(alloc, &site)?;
    if !list.is_empty() {
        return Ok(Answer::Diags {
            files: site.files,
            list,
        });
    }
    Ok(unless(site, faults))
}

/// The site, unless there are faults.
fn unless(site: Site, faults: Diags) -> Answer
    ensures value { answer_view result ≡ unless_told (site_view site) faults }
    ensures files { FilesStay site.files result }
    ensures given { IfSite result (λ s. (s ≡ site_view site) × (faults ≡ [])) }
{
    if faults.is_empty() {
        Answer::Site(site)
    } else {
        Answer::Diags {
            files: site.files,
            list: faults,
        }
    }
}
