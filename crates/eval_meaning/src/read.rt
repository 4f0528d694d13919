// Reads of committed objects.
use site_base::Text;

/// A read of a committed object: its type and its full name.
#[derive(Drop, Clone, PartialEq, Eq)]
pub struct Read {
    pub kind: Text,
    pub name: Text,
}
