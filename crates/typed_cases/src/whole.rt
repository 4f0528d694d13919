// A site as a whole.
use crate::lists::size_of;
use crate::words::{push_number, push_place};
use site_base::{Blob, OutOfMemory, Text};
use site_model::Site;

/// Adds how long the lists of a site are, where the service `h!s` stands, and what the site has beside its lists.
pub(crate) fn push_whole(out: &mut Text, site: &Site) -> Result<(), OutOfMemory> {
    push_number(out, "files ", site.files.len() as u64)?;
    push_number(out, " objects ", site.objects.len() as u64)?;
    push_number(out, " checkables ", site.checkables.len() as u64)?;
    push_number(out, " depends ", site.depends.len() as u64)?;
    push_number(out, " notifies ", site.notifies.len() as u64)?;
    push_number(out, " users ", site.users.len() as u64)?;
    push_number(out, " commands ", site.commands.len() as u64)?;
    push_number(out, " periods ", site.periods.len() as u64)?;
    push_number(out, " names ", site.names.len() as u64)?;
    push_place(out, " h!s ", site.find("h!s"))?;
    push_settings(out, site)
}

/// Adds how many checks may be outstanding, how long the zone's file is, and how many pairs `Vars` has.
fn push_settings(out: &mut Text, site: &Site) -> Result<(), OutOfMemory> {
    push_number(out, " orders ", u64::from(site.max_orders))?;
    push_zone(out, &site.zone)?;
    match size_of(&site.vars) {
        Some(pairs) => push_number(out, " vars ", pairs),
        None => out.push_str(" no vars"),
    }
}

fn push_zone(out: &mut Text, file: &Option<Blob>) -> Result<(), OutOfMemory> {
    match file {
        Some(file) => push_number(out, " zone ", file.len() as u64),
        None => out.push_str(" utc"),
    }
}
