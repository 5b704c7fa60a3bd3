//! The three kinds of message.
//! A message begins with the number of its kind.

ghost use Rattle.std.specs.Prelude.{◌≡◌};
ghost use Rattle.peer_exchange.specs.Kinds.{kind_number};

/// A kind of message.
#[derive(Clone, Copy)]
pub enum Kind {
    /// Three elements for each report.
    Sums,
    /// One for each report.
    Sigmas,
    /// One for each candidate.
    Totals,
}

impl Kind {
    /// The number that the message begins with.
    pub fn number(self) -> u8
        ensures number { result ≡ kind_number self }
    {
        match self {
            Kind::Sums => 1,
            Kind::Sigmas => 2,
            Kind::Totals => 3,
        }
    }
}
