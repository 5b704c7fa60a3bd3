//! Tests of shelves, sinks and links in memory, of the forms that only tests use, and of gates.
//! By topic.

mod drills;
mod forms;
mod shelves;
