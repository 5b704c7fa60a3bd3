//! A counter of expansions, over any ledger of the standard library.
//! Outside this crate nothing but `extend` can raise it, so that a bound on it is a bound on work.

ghost use Rattle.std.specs.Prelude.{◌≡◌, ◌+◌, ◌<◌};

use std::marker::Model;
use std::sync::ledger::{Blank, Book, Ledger, Share};

/// How many expansions were made, seen as their number. It takes no bytes when the program runs.
#[derive(Drop)]
pub struct Steps<L: Ledger> {
    book: Book<L>,
    share: Share<L>,
}

impl<L: Ledger> Model for Steps<L> {
    ghost use Rattle.std.specs.Prelude.{ℕ, ◌<◌};

    ghost Value = { ℕ };

    ghost view = { λ s. s.book.total };

    ghost invariant = { λ s. 0 < s.share.parts };
}

impl<L: Ledger> Steps<L> {
    /// No step so far, from a blank of this ledger. A caller that counts nothing else gives `Blank::new(1)`.
    pub fn open(blank: Blank) -> Steps<L>
        requires name { blank.name ≡ L.name }
        requires parts { blank.parts ≡ L.parts }
        requires some { 0 < blank.parts }
        ensures none { result ≡ 0 }
    {
        let (book, share) = blank.open::<L>();
        Steps { book, share }
    }

    /// One more step.
    pub(crate) fn tick(&mut self)
        ensures more { self.new ≡ self.old + 1 }
    {
        self.book.add(&mut self.share, 1);
    }
}
