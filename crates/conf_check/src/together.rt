// All that is wrong with all objects together.
ghost use Rattle.std.specs.Prelude.{◌<◌, All, map, length, IfOk};
ghost use Rattle.site_model.specs.PlainSite.{object_view};
ghost use Rattle.conf_check.specs.Duplicates.{duplicate_faults};
ghost use Rattle.conf_check.specs.Ordering.{IsByNumber};
ghost use Rattle.conf_check.specs.References.{reference_faults};

use crate::all_duplicates::look_through;
use crate::all_references::faults_of;
use crate::ordering::by_number;
use site_base::{Diags, OutOfMemory, Texts};
use site_model::Object;
use std::alloc::Global;

/// What is wrong with all objects of a site together.
#[derive(Drop)]
pub struct Together {
    /// What `duplicates` tells.
    pub duplicates: Diags,
    /// What `references` tells.
    pub references: Diags,
}

/// The duplicates among the objects of a site, and what they name and isn't among them, as `duplicates` and `references` tell them. The
/// keys of the objects are made once for both.
pub fn check_together(
    alloc: Global,
    objects: &[Object],
    files: &Texts,
) -> Result<Together, OutOfMemory>
    requires { All (λ o. o.place.file < length files.now) objects.now }
    ensures duplicates { IfOk result (λ t. IsByNumber (duplicate_faults files.now (map object_view objects.now)) t.duplicates) }
    ensures references { IfOk result (λ t. IsByNumber (reference_faults (map object_view objects.now)) t.references) }
{
    let looked = look_through(alloc, objects, files)?;
    let missing = faults_of(alloc, &looked.keys, objects)?;
    Ok(Together {
        duplicates: by_number(looked.faults)?,
        references: by_number(missing)?,
    })
}
