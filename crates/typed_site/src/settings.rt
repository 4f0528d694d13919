// What a site has beside its objects.
use site_base::{Blob, Tree};

/// What a site has beside its objects.
#[derive(Drop)]
pub struct Settings {
    /// The global `Vars`; `Null` without them.
    pub vars: Tree,
    /// The bytes of the time zone's file; `None` for UTC.
    pub zone: Option<Blob>,
    /// How many checks may be outstanding, from 1 to 65,535.
    pub max_orders: u32,
}
