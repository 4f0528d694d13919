// What is remarked of a site.
ghost use Rattle.std.specs.Prelude.{None};

use site_base::{OutOfMemory, Text, Texts};
use site_program::{Remark, Remarks};
use std::alloc::Global;

/// Keeps each remark as a line.
#[derive(Drop)]
pub(crate) struct Heard {
    alloc: Global,
    lines: Texts,
}

impl Heard {
    pub(crate) fn new(alloc: Global) -> Heard {
        Heard {
            alloc,
            lines: Texts::new(alloc),
        }
    }

    pub(crate) fn lines(&self) -> &[Text] {
        self.lines.as_slice()
    }
}

impl Remarks for Heard {
    ghost remarked = { λ _. None };

    fn tell(&mut self, remark: &Remark) -> Result<(), OutOfMemory> {
        self.lines.push(line_of(self.alloc, remark)?)
    }

    fn limit(&mut self, _checks: u32) {}
}

fn line_of(alloc: Global, remark: &Remark) -> Result<Text, OutOfMemory> {
    Text::of_string(alloc, remark.to_string(alloc)?)
}
