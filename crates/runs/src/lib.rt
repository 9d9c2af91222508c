// Calls as values, and runs of them: the law over whole runs stands on `run`.

#![tactic(auto)]

mod calls;
mod driver;
mod words;

pub use calls::{Answer, Call};
pub use driver::{make, run};
