// A script of calls, one a line: its lines read as calls, and the faults of lines in words.

#![tactic(auto)]

mod calls;
mod entries;
mod fault;
mod numbers;

pub use calls::read_call;
pub use fault::{FaultOnLine, ScriptError, ScriptFault};
