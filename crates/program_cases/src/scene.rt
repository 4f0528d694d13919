// What the program runs over.
use crate::case::Case;
use crate::heard::Heard;
use site_edge::{MemFiles, MemSink, World};
use site_program::{Status, run};
use std::sync::Wait;
use std::thread::Threads;

/// The files of a case, what is written and what is remarked.
#[derive(Drop)]
pub(crate) struct Scene {
    pub(crate) files: MemFiles,
    pub(crate) sink: MemSink,
    pub(crate) heard: Heard,
}

impl Scene {
    /// Takes the files of a case.
    pub(crate) fn of(case: &mut Case) -> Scene {
        Scene {
            files: case.mem_files(),
            sink: case.mem_sink(),
            heard: Heard::new(case.alloc),
        }
    }

    /// Runs the program with the words of a case.
    pub(crate) fn run<T: Wait + Threads + Sync, W: World>(
        &mut self,
        turns: &T,
        case: &Case,
        world: &mut W,
    ) -> Status {
        run(
            turns,
            case.alloc,
            case.words.as_slice(),
            &mut self.files,
            world,
            &mut self.sink,
            &mut self.heard,
            &case.held,
        )
    }
}
