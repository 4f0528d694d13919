// Users as the configuration sets them.
use crate::{KindSet, StateSet};
use site_base::Text;

/// A user who receives notifications (Icinga 2 documentation, Object Types, "User").
#[derive(Drop)]
pub struct UserSpec {
    pub name: Text,
    /// `enable_notifications`.
    pub enabled: bool,
    /// The period in which the user is told, among the site's; `None` for always.
    pub period: Option<u32>,
    /// The kinds that the user takes; `None` for all.
    pub kinds: Option<KindSet>,
    /// The states that the user takes; `None` for all.
    pub states: Option<StateSet>,
}
