// Acknowledgements.

/// Whether a problem is acknowledged (Icinga 2 documentation, Monitoring Basics,
/// "Acknowledgements").
#[derive(Clone, Copy, PartialEq, Eq)]
pub enum Ack {
    Off,
    /// Until the state changes.
    Normal,
    /// Until the problem ends.
    Sticky,
}
