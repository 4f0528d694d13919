// Sets of kinds of notifications.
ghost use Rattle.std.specs.Prelude.{◌≡◌, ◌↔◌, Contains, IsTrue};
ghost use Rattle.site_model.specs.declared.note_kind.NoteKind.{NoteKind};
ghost use Rattle.site_model.specs.Sets.{has_kind};

use crate::NoteKind;

/// A set of kinds of notifications, as a filter of users or notifications. Clauses ask it by `has_kind`.
#[derive(Clone, Copy, PartialEq, Eq)]
pub struct KindSet {
    problem: bool,
    recovery: bool,
    acknowledgement: bool,
    custom: bool,
    downtime_start: bool,
    downtime_end: bool,
    downtime_removed: bool,
    flapping_start: bool,
    flapping_end: bool,
}

impl KindSet {
    /// The set of the kinds of a list.
    pub fn of(list: &[NoteKind]) -> KindSet
        ensures { (k : NoteKind) → IsTrue (has_kind result k) ↔ Contains list.now k }
    {
        KindSet {
            problem: list.contains(&NoteKind::Problem),
            recovery: list.contains(&NoteKind::Recovery),
            acknowledgement: list.contains(&NoteKind::Acknowledgement),
            custom: list.contains(&NoteKind::Custom),
            downtime_start: list.contains(&NoteKind::DowntimeStart),
            downtime_end: list.contains(&NoteKind::DowntimeEnd),
            downtime_removed: list.contains(&NoteKind::DowntimeRemoved),
            flapping_start: list.contains(&NoteKind::FlappingStart),
            flapping_end: list.contains(&NoteKind::FlappingEnd),
        }
    }

    /// Whether the kind is in the set.
    pub fn has(&self, kind: NoteKind) -> bool
        ensures { result ≡ has_kind self.now kind }
    {
        match kind {
            NoteKind::Problem => self.problem,
            NoteKind::Recovery => self.recovery,
            NoteKind::Acknowledgement => self.acknowledgement,
            NoteKind::Custom => self.custom,
            NoteKind::DowntimeStart => self.downtime_start,
            NoteKind::DowntimeEnd => self.downtime_end,
            NoteKind::DowntimeRemoved => self.downtime_removed,
            NoteKind::FlappingStart => self.flapping_start,
            NoteKind::FlappingEnd => self.flapping_end,
        }
    }
}
