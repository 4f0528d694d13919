// What a log tells of an entry.
use site_base::Row;
use site_model::Sight;

/// What a log tells of an entry of a round beside its event: of which checkable it is, who made it, and how far its caller saw.
#[derive(Drop)]
pub struct Told {
    pub checkable: u32,
    pub caller: u32,
    /// By ascending index of the checkables that were seen.
    pub sights: Row<Sight>,
}
