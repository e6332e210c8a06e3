//! The events of the solver, sinks of them, and the machine of satisfaction-driven clause learning.
#![tactic(auto)]

pub mod event;
pub mod laws;
mod proof_file;
pub mod recorder;
pub mod run_files;
pub mod sink;
pub mod writing;

pub use event::Event;
pub use recorder::Recorder;
pub use run_files::RunFiles;
pub use sink::JournalOut;
pub use writing::write_event;
