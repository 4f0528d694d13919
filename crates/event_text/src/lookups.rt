// Which checkables lines name.
ghost use Rattle.std.specs.Prelude.{◌≡◌, IfOk, IfSome, string_bytes};
ghost use Rattle.std.specs.List.{slice_get};
ghost use Rattle.site_model.specs.PlainSite.{site_view};
ghost use Rattle.site_model.specs.Names.{place_of};
ghost use Rattle.event_text.specs.Lent.{text_view};
ghost use Rattle.event_text.specs.Reading.{looked_up};
ghost use Rattle.event_text.specs.Checkables.{full_name, service_at, host_named, service_named, is_host as host_test, is_service_of as service_test, takes_passive as passive_test};

use arrayvec::ArrayString;
use site_base::OutOfMemory;
use site_model::Site;
use std::alloc::Global;

/// Most full names have so many bytes at most.
const ROOM: usize = 64;

/// The place of the host of this name, or of the service of this name on it.
pub(crate) fn find_named(
    alloc: Global,
    site: &Site,
    host: &str,
    service: Option<&str>,
) -> Result<Option<u32>, OutOfMemory>
    ensures { IfOk result (λ place. place ≡ looked_up (site_view site.now) host.now (text_view service.entry)) }
{
    match service {
        None => Ok(find_host(site, host)),
        Some(service) => find_service(alloc, site, host, service),
    }
}

/// The place of the host of this name.
#[tactic(auto, unfolding(crate::specs::Checkables::host_named))]
fn find_host(site: &Site, name: &str) -> Option<u32>
    ensures { result ≡ host_named (site_view site.now) name.now }
{
    match site.find(name) {
        Some(place) if is_host(site, place) => Some(place),
        _ => None,
    }
}

/// The place of the service of this name on the host of that name.
#[tactic(auto, unfolding(crate::specs::Checkables::service_named))]
fn find_service(
    alloc: Global,
    site: &Site,
    host: &str,
    service: &str,
) -> Result<Option<u32>, OutOfMemory>
    ensures { IfOk result (λ place. place ≡ service_named (site_view site.now) host.now service.now) }
{
    let Some(host_place) = find_host(site, host) else {
        return Ok(None);
    };
    match short_name(host, service) {
        Some(name) => Ok(find_service_of(site, host_place, name.as_str())),
        None => {
            let name = service_name(alloc, host, service)?;
            Ok(find_service_of(site, host_place, name.as_str()))
        }
    }
}

/// The place of the service of this full name on this host.
fn find_service_of(site: &Site, host: u32, name: &str) -> Option<u32>
    ensures { result ≡ service_at (site_view site.now) host (place_of name.now site.now.names) }
{
    match site.find(name) {
        Some(place) if is_service_of(site, host, place) => Some(place),
        _ => None,
    }
}

/// The full name of a service, which takes no memory of the heap; `None` for a long one.
fn short_name(host: &str, service: &str) -> Option<ArrayString<ROOM>>
    ensures { IfSome result (λ name. name.bytes ≡ full_name host.now service.now) }
{
    let mut name = ArrayString::new();
    name.try_push_str(host).ok()?;
    name.try_push('!').ok()?;
    name.try_push_str(service).ok()?;
    Some(name)
}

/// The full name of a service, however long it is.
fn service_name(alloc: Global, host: &str, service: &str) -> Result<String, OutOfMemory>
    ensures { IfOk result (λ name. string_bytes name ≡ full_name host.now service.now) }
{
    let room = host.len().saturating_add(service.len()).saturating_add(1);
    let mut name = String::with_capacity(alloc, room)?;
    name.push_str(host)?;
    name.push('!')?;
    name.push_str(service)?;
    Ok(name)
}

/// Whether a host stands at a place.
fn is_host(site: &Site, place: u32) -> bool
    ensures { result ≡ host_test (slice_get (site_view site.now).checkables place) }
{
    match site.checkables.as_slice().get(place as usize) {
        Some(checkable) => checkable.host.is_none(),
        None => false,
    }
}

/// Whether a service of this host stands at a place.
fn is_service_of(site: &Site, host: u32, place: u32) -> bool
    ensures { result ≡ service_test host (slice_get (site_view site.now).checkables place) }
{
    match site.checkables.as_slice().get(place as usize) {
        Some(checkable) => checkable.host == Some(host),
        None => false,
    }
}

/// Whether the checkable at a place takes passive results.
pub(crate) fn takes_passive(site: &Site, place: u32) -> bool
    ensures { result ≡ passive_test (slice_get (site_view site.now).checkables place) }
{
    match site.checkables.as_slice().get(place as usize) {
        Some(checkable) => checkable.passive,
        None => false,
    }
}
