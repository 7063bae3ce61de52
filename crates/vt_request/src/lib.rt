//! What a line of a script asks for, and what a call answers, as plain values.
#![tactic(auto)]

pub mod answer;
pub mod kind;
pub mod request;
pub mod task;

pub use answer::{Answer, MountLine, MountPlace, PeerLine, Spot, StatLine, TypeLine};
pub use kind::CallKind;
pub use request::{
    Access, Call, CapsWord, Creation, DescriptorCall, Directive, ForkWords, LookCall, MakeCall,
    MountCall, RemoveCall, TaskCall, TypeWord, WriteCall,
};
pub use task::TaskName;
