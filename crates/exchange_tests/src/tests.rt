//! Tests of frontiers, of the messages of two servers and of the one-thread walk.
//! By topic.

mod frontiers;
mod messages;
mod walks;
