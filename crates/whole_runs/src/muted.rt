// Output that is dropped.
use site_edge::{Sink, SinkFault};

/// Takes all bytes and drops them. No call fails.
#[derive(Drop)]
pub(crate) struct Muted;

impl Sink for Muted {
    ghost use Rattle.std.specs.Prelude.{None};

    ghost written = { λ _. None };

    ghost kept_back = { λ _. 0 };

    ghost faults = { λ _. 0 };

    ghost calm = { λ _. Unit {0} };

    fn put(&mut self, _bytes: &[u8]) -> Result<(), SinkFault> {
        Ok(())
    }

    fn flush(&mut self) -> Result<(), SinkFault> {
        Ok(())
    }
}
