// On which checkables each depends at once.
ghost use Rattle.std.specs.Prelude.{◌≡◌, IfOk};
ghost use Rattle.site_model.specs.PlainSite.{site_view};
ghost use Rattle.depend_graph.specs.Parents.{AreHosts, AreParents, HasParents};

use crate::lists::Lists;
use site_base::OutOfMemory;
use site_model::Site;
use std::alloc::Global;

/// The parents of each checkable: its host, and then those of its dependencies in their order.
pub(crate) fn parents_in(alloc: Global, site: &Site) -> Result<Lists, OutOfMemory>
    requires { HasParents (site_view site.now) }
    ensures { IfOk result (AreParents (site_view site.now)) }
{
    let mut lists = hosts_in(alloc, site)?;
    for depend in site.depends.as_slice() {
        lists.push(depend.child as usize, depend.parent)?;
    }
    Ok(lists)
}

/// The host of each service.
fn hosts_in(alloc: Global, site: &Site) -> Result<Lists, OutOfMemory>
    ensures { IfOk result (AreHosts (site_view site.now)) }
{
    let mut lists = Lists::empty(alloc, site.checkables.len())?;
    for (checkable, spec) in site.checkables.as_slice().iter().enumerate() {
        if let Some(host) = spec.host {
            lists.push(checkable, host)?;
        }
    }
    Ok(lists)
}
