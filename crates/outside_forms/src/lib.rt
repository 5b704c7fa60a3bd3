//! Forms of the outside that tests use: a shelf that gives only a head of what it states, a shelf and a sink that take little at a
//! time, and a link that changes one message. They are the project's own, over the forms in memory of `shelf_io`.
#![tactic(auto)]

mod biting_shelf;
mod biting_sink;
mod hollow_shelf;
mod sent_messages;
mod twist;
mod twist_link;

pub use crate::biting_shelf::BitingShelf;
pub use crate::biting_sink::BitingSink;
pub use crate::hollow_shelf::HollowShelf;
pub use crate::twist::Twist;
pub use crate::twist_link::TwistLink;
