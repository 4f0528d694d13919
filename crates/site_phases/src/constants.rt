// The constants that a site takes.
ghost use Rattle.std.specs.Prelude.{◌≡◌, ◌≤◌, ◌++◌, ◌∷◌, [], Bool, true, false, IfOk, OnOk, IfSome};
ghost use Rattle.std.specs.Bool.{Decides};
ghost use Rattle.std.specs.Option.{option_copied};
ghost use Rattle.time_range.specs.Zone.{IsBadFile};
ghost use Rattle.typed_site.specs.TypedSite.{settings_view};
ghost use Rattle.site_phases.specs.Constants.{AreBadBytes, bad_zone, constant_fault, constant_faults, count_by, fault_unless, file_used, globals_view, is_file_name, lent_tree, other_faults};
ghost use Rattle.site_phases.specs.Constants.{orders_by, settings_of, tree_view, zone_faults};

use crate::Globals;
use site_base::{
    Blob, Diag, DiagKind, Diags, ItemNo, OutOfMemory, Place, Row, TargetNo, Tree, quote,
};
use std::alloc::Global;
use time_range::{Zone, ZoneFault};
use typed_site::Settings;

/// What belongs to no item is told at the beginning of the root.
pub(crate) const ROOT_START: Place = Place {
    file: 0,
    line: 1,
    col: 1,
};

/// The number of what belongs to no item.
pub(crate) const NO_ITEM: ItemNo = ItemNo {
    item: 0,
    target: TargetNo {
        item: 0,
        host: 0,
        key: 0,
    },
    key: 0,
};

/// How many checks may be outstanding if nothing is set.
const USUAL_ORDERS: u32 = 512;

impl Globals {
    /// What is wrong with the constants: `MaxConcurrentChecks` first, and then `SiteZone`.
    pub(crate) fn faults(&self, alloc: Global) -> Result<Diags, OutOfMemory>
        ensures { (bad : Bool) → Decides bad (AreBadBytes (settings_of (globals_view self.now)).zone)
            → IfOk result (λ d. d ≡ constant_faults (globals_view self.now) bad) }
    {
        let mut faults = Row::new(alloc);
        push_unless(alloc, &mut faults, orders_in(lent(&self.max_checks)))?;
        push_zone(
            alloc,
            &mut faults,
            lent(&self.site_zone),
            self.zone_file.as_ref(),
        )?;
        Ok(faults)
    }

    /// What a site takes of them.
    pub(crate) fn into_settings(self) -> Settings
        ensures value { settings_view result ≡ settings_of (globals_view self) }
        ensures some { 1 ≤ result.max_orders }
        ensures most { result.max_orders ≤ 65535 }
    {
        let Globals {
            max_checks,
            site_zone,
            zone_file,
            vars,
        } = self;
        Settings {
            vars,
            zone: used(lent(&site_zone), zone_file),
            max_orders: orders_in(lent(&max_checks)).unwrap_or(USUAL_ORDERS),
        }
    }
}

/// The value, if there is one.
fn lent(value: &Option<Tree>) -> Option<&Tree>
    ensures { lent_tree result ≡ tree_view value.now }
{
    match value {
        Some(tree) => Some(tree),
        None => None,
    }
}

/// The zone's file, which counts if the value of `SiteZone` names it.
fn used(value: Option<&Tree>, file: Option<Blob>) -> Option<Blob>
    ensures { result ≡ file_used (lent_tree value.entry) file }
{
    if names_file(value) { file } else { None }
}

/// Adds that `MaxConcurrentChecks` is no such count, if it is so.
fn push_unless(alloc: Global, out: &mut Diags, count: Option<u32>) -> Result<(), OutOfMemory>
    ensures { OnOk result (out.new ≡ out.old ++ fault_unless count) }
{
    match count {
        Some(_) => Ok(()),
        None => push_fault(alloc, out, DiagKind::BadConst, "MaxConcurrentChecks"),
    }
}

/// Adds what is wrong with `SiteZone`: a value that names no file, or a file that is none of a zone.
fn push_zone(
    alloc: Global,
    out: &mut Diags,
    value: Option<&Tree>,
    file: Option<&Blob>,
) -> Result<(), OutOfMemory>
    ensures { (bad : Bool) → Decides bad (AreBadBytes (file_used (lent_tree value.entry) (option_copied file.entry)))
        → OnOk result (out.new ≡ out.old ++ zone_faults (lent_tree value.entry) bad) }
{
    if names_file(value) {
        return push_file(alloc, out, file);
    }
    push_other(alloc, out, value)
}

/// Adds that a value names no file, if there is one.
fn push_other(alloc: Global, out: &mut Diags, value: Option<&Tree>) -> Result<(), OutOfMemory>
    ensures { OnOk result (out.new ≡ out.old ++ other_faults (lent_tree value.entry)) }
{
    match value {
        None => Ok(()),
        Some(_) => push_fault(alloc, out, DiagKind::BadConst, "SiteZone"),
    }
}

/// Adds that a file is none of a zone, if it is so.
fn push_file(alloc: Global, out: &mut Diags, file: Option<&Blob>) -> Result<(), OutOfMemory>
    ensures { (bad : Bool) → Decides bad (AreBadBytes (option_copied file.entry)) → OnOk result (out.new ≡ out.old ++ bad_zone bad) }
{
    let Some(bytes) = file else {
        return Ok(());
    };
    let is_bad = is_bad_file(alloc, bytes.as_slice())?;
    push_bad(alloc, out, is_bad)
}

/// Whether the reader of zone files refuses these bytes.
fn is_bad_file(alloc: Global, bytes: &[u8]) -> Result<bool, OutOfMemory>
    ensures bad { IfOk result (λ b. b ≡ true → IsBadFile bytes.now) }
    ensures good { IfOk result (λ b. b ≡ false → ¬ IsBadFile bytes.now) }
{
    match Zone::of_file(alloc, bytes) {
        Ok(_) => Ok(false),
        Err(ZoneFault::BadZone) => Ok(true),
        Err(ZoneFault::OutOfMemory) => Err(OutOfMemory),
    }
}

/// Adds that the zone's file is none, if it is so.
fn push_bad(alloc: Global, out: &mut Diags, is_bad: bool) -> Result<(), OutOfMemory>
    ensures { OnOk result (out.new ≡ out.old ++ bad_zone is_bad) }
{
    if is_bad {
        push_fault(alloc, out, DiagKind::BadZone, "SiteZone")
    } else {
        Ok(())
    }
}

/// Whether the value of `SiteZone` names a file.
fn names_file(value: Option<&Tree>) -> bool
    ensures { result ≡ is_file_name (lent_tree value.entry) }
{
    match value {
        Some(Tree::Str(_)) => true,
        _ => false,
    }
}

/// How many checks may be outstanding by the value of `MaxConcurrentChecks`.
fn orders_in(value: Option<&Tree>) -> Option<u32>
    ensures value { result ≡ orders_by (lent_tree value.entry) }
    ensures range { IfSome result (λ n. (1 ≤ n) × (n ≤ 65535)) }
{
    match value {
        None => Some(USUAL_ORDERS),
        Some(Tree::Number(number)) => { count_of(u64::try_from(number.thousandths()).unwrap_or(0)) }
        Some(_) => None,
    }
}

/// So many thousandths as a whole number from 1 to 65,535.
fn count_of(thousandths: u64) -> Option<u32>
    ensures value { result ≡ count_by thousandths }
    ensures range { IfSome result (λ n. (1 ≤ n) × (n ≤ 65535)) }
{
    if thousandths % 1000 == 0 && thousandths >= 1000 && thousandths <= 65_535_000 {
        Some((thousandths / 1000) as u32)
    } else {
        None
    }
}

fn push_fault(alloc: Global, out: &mut Diags, kind: DiagKind, name: &str) -> Result<(), OutOfMemory>
    ensures { OnOk result (out.new ≡ out.old ++ constant_fault kind name.now ∷ []) }
{
    out.push(Diag {
        number: NO_ITEM,
        place: ROOT_START,
        kind,
        text: quote(alloc, name)?,
    })
}
