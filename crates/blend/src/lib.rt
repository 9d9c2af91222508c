// The vocabulary of blend orders: items and their kinds, stamps and their order, bodies and their codes. Nothing here allocates.

#![tactic(auto)]

mod body;
mod card;
mod item;
mod line_up;
mod list;
mod quantity;
mod refusal;
mod stamp;

pub use body::{Body, fits_item, is_code_of, is_some_body};
pub use card::TankCard;
pub use item::{Kind, is_of_kind, kind_of};
pub use line_up::LineUp;
pub use list::has_item;
pub use quantity::Quantity;
pub use refusal::Refusal;
pub use stamp::{is_later, later_stamp, sequence_of, stamp_of, writer_of};
