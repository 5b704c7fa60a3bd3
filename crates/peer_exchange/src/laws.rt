//! What holds of messages and of receives, each law the contract of a function that does nothing.
//! Those who exchange several messages rest on these.

ghost use Rattle.peer_exchange.specs.Laws.{ExpectedLaw, FrontLaw, TwiceLaw, WaitingLaw, ElementsLaw};

/// Where the expected message waits first for a side, its elements are read: no take answers `PeerMessage` there.
pub fn the_expected_message_is_read()
    ensures expected { ExpectedLaw }
{}

/// What is read of a message does not depend on the bytes behind it.
pub fn bytes_behind_a_message_do_not_matter()
    ensures front { FrontLaw }
{}

/// Two receives are one of both numbers of bytes, and a receive of more bytes than wait is one of those that wait.
pub fn receives_add_up()
    ensures twice { TwiceLaw }
    ensures waiting { WaitingLaw }
{}

/// The elements of sums give the sums back, so that what a take of sums answers is told by the elements.
pub fn elements_give_the_sums_back()
    ensures elements { ElementsLaw }
{}
