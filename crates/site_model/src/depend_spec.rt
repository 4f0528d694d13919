// Dependencies as the configuration sets them.
use crate::StateSet;
use site_base::Text;

/// A dependency of one checkable on another (Icinga 2 documentation, Monitoring Basics,
/// "Dependencies"). Indices are places in the lists of the `Site`.
#[derive(Drop)]
pub struct DependSpec {
    /// The full name.
    pub name: Text,
    /// The checkable that depends.
    pub child: u32,
    /// The checkable on which it depends.
    pub parent: u32,
    /// `redundancy_group`; `None` if it is in none.
    pub group: Option<Text>,
    /// `disable_checks`: whether it holds back the child's checks.
    pub checks: bool,
    /// `disable_notifications`: whether it holds back the child's notifications.
    pub notes: bool,
    /// `ignore_soft_states`.
    pub ignore_soft: bool,
    /// The states of the parent in which the child is let through.
    pub states: StateSet,
    /// The period in which it counts; `None` for always.
    pub period: Option<u32>,
}
