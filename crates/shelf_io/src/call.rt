//! The kinds of call of the outside.
//! A form in memory is told by kind and number which of its calls are to fail.

/// A kind of call: four of a shelf, one of a sink, two of a link.
#[derive(Clone, Copy, Debug, PartialEq, Eq)]
pub enum Call {
    /// `Shelf::length`.
    Length,
    /// `Shelf::read`.
    Read,
    /// `Shelf::begin`.
    Begin,
    /// `Shelf::append`.
    Append,
    /// `Sink::write`.
    Write,
    /// `Link::send`.
    Send,
    /// `Link::receive`.
    Receive,
}
