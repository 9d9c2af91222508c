// Order rows and read rows: what each writer and each reader has open, and which calls a row admits. Nothing here allocates.

#![tactic(auto)]

mod asks;
mod fault;
mod order;
mod order_calls;
mod order_changes;
mod places;
mod read;
mod read_calls;
mod read_changes;
mod reasons;

pub use fault::{AtItem, Fault, about};
pub use order::{OpenOrder, OrderPlace, OrderRow};
pub use order_calls::{OrderCall, Stage};
pub use order_changes::Placed;
pub use places::at_or;
pub use read::{OpenRead, ReadPlace, ReadRow};
pub use read_calls::ReadCall;
