// The service: orders and reads over one store and one naming rule. What its calls do never allocates.

#![tactic(auto)]

mod lists;
mod orders;
mod reads;
mod start;
mod state;

pub use lists::{has_unfit, is_tangled};
pub use rows::Fault;
pub use state::{OrderTable, ReadTable, Service};
