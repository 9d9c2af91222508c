// Rules by which a version's mark names the items of its order. A rule has functions and no value, and nothing here allocates.

#![tactic(auto)]

mod filter;
mod list;
mod rule;
mod stamp;
mod worked;

pub use filter::FilterRule;
pub use list::ListRule;
pub use rule::Naming;
pub use stamp::StampRule;
pub use worked::marks_as_worked;
