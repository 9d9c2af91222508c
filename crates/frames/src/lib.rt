// Requests to a store and its replies as frames of bytes, and serving them. Nothing here allocates.

#![tactic(auto)]

mod fault;
mod framed;
mod place;
mod reply;
mod request;
mod server;
mod stamps;
mod words;

pub use fault::FrameFault;
pub use framed::Framed;
pub use reply::{Reply, read_reply, write_reply};
pub use request::{Request, read_request, write_request};
pub use server::{frames_stand, question_reply_frame, reply_frame, serve, serve_question};
pub use stamps::{stamp_bytes, stamps_of};
pub use words::refusal_reason;
