//! What a drawer's seat at the claim word knows.
//! It is known to proofs alone: no value of these types is made.
use std::collections::LinkedList;

/// A drawer's number, and the numbers that it drew, in order.
pub struct DrawerList {
    pub drawer: u64,
    pub numbers: LinkedList<u64>,
}

/// How many drawers were made (0 where another seat keeps this count), and the lists of the seat's own
/// drawer and of those that were joined into it.
pub struct View {
    pub made: u64,
    pub lists: LinkedList<DrawerList>,
}
