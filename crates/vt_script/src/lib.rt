//! Scripts run: `run` reads a script line by line, and answers each by the written policy.
#![tactic(auto)]

pub mod examples;
mod script;
mod session;
mod world;

pub use script::{run, run_as};
pub use vt_answers::Calls;
pub use vt_io::adapters::{ReadSource, WriteSink};
pub use vt_io::input::{Source, SourceFailed};
pub use vt_io::output::{Sink, SinkFailed};
pub use vt_line::fault::RunFault;
pub use vt_line::line::Line;
pub use vt_line::print::write_reply;
pub use vt_line::version::Version;
pub use vt_request::{
    Access, Answer, Call, CapsWord, Creation, Directive, ForkWords, MountLine, MountPlace,
    PeerLine, Spot, StatLine, TaskName, TypeLine, TypeWord,
};
pub use world::world_after;
