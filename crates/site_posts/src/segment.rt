// What checkables get of a round.
use site_base::Row;
use site_model::Entry;

/// The entries that the checkable of this index gets of a round, in their order. There is one at least.
#[derive(Drop)]
pub struct Segment {
    pub checkable: u32,
    pub entries: Row<Entry>,
}

/// What a round gives: the checkables that get entries, by ascending index.
pub type Segments = Row<Segment>;
