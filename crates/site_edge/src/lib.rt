//! What lies outside the program: files, the world that gives turns and takes orders, and the place
//! that is written to. Each is a trait, whose contract says what a call does to what is told of it
//! and to its count of faults, with one implementation in memory and one over the real thing.
#![tactic(auto)]

mod disk_fault;
mod disk_files;
mod file_fault;
mod files;
mod folder;
mod mem_failures;
mod mem_files;
mod mem_sink;
mod mem_world;
mod order;
mod out_sink;
mod report;
mod sink;
mod sink_fault;
mod turn;
mod world;
mod world_error;

pub use disk_fault::Unread;
pub use disk_files::DiskFiles;
pub use file_fault::FileFault;
pub use files::Files;
pub use mem_files::MemFiles;
pub use mem_sink::MemSink;
pub use mem_world::MemWorld;
pub use order::Order;
pub use out_sink::OutSink;
pub use report::Report;
pub use sink::Sink;
pub use sink_fault::SinkFault;
pub use turn::Turn;
pub use world::World;
pub use world_error::WorldError;
