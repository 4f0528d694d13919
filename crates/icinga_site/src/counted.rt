// An output whose lines are counted.
use site_edge::{Sink, SinkFault};

/// An output, and how many lines were put to it.
#[derive(Drop)]
pub(crate) struct Counted<S: Sink + Drop> {
    sink: S,
    lines: u64,
}

impl<S: Sink + Drop> Counted<S> {
    pub(crate) fn new(sink: S) -> Counted<S> {
        Counted { sink, lines: 0 }
    }

    pub(crate) fn lines(&self) -> u64 {
        self.lines
    }
}

impl<S: Sink + Drop> Sink for Counted<S> {
    ghost written = { λ c. S.written c.sink };

    ghost kept_back = { λ c. S.kept_back c.sink };

    ghost faults = { λ c. S.faults c.sink };

    ghost calm = { λ c. S.calm c.sink };

    fn put(&mut self, bytes: &[u8]) -> Result<(), SinkFault> {
        self.lines = self.lines.saturating_add(1);
        self.sink.put(bytes)
    }

    fn flush(&mut self) -> Result<(), SinkFault> {
        self.sink.flush()
    }
}
