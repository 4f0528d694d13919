// Objects of the site.
use site_base::{ItemNo, Place, Text, Tree};
use std::sync::Arc;

/// An object that a configuration makes (Icinga 2 documentation, Object Types).
#[derive(Drop)]
pub struct Object {
    /// The type, as `Host`.
    pub kind: Text,
    /// The full name: host, service and name joined by `!`, as far as they are set.
    pub name: Text,
    /// Where its statement stands.
    pub place: Place,
    pub number: ItemNo,
    /// Whether it comes from the built-in library, and isn't listed.
    pub builtin: bool,
    /// Its attributes, a `Dict`.
    pub tree: Arc<Tree>,
}
