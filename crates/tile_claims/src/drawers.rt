//! A drawer: the token by which one worker draws the numbers of tiles.
//! It is a seat at the claim word, which knows, for proofs alone, what it drew.
ghost use Rattle.std.specs.Prelude.{◌≡◌, ◌≤◌, ◌<◌, [], ◌∷◌, false, cond};
ghost use Rattle.tile_claims.specs.Drawers.{DrawerSeen, IsClaim, fresh_drawer};
ghost use Rattle.tile_claims.specs.Lists.{large};
ghost use Rattle.tile_claims.specs.Views.{view_of, drawer_list, first_numbers};

use crate::rule::{ClaimRule, Draw};
use crate::views::View;
use atomic_table::{Seat, Shared};
use std::marker::Model;

/// The claim word, with the steps that a drawer can make on it.
pub type Word = Shared<u8, View, u32, ClaimRule>;

/// The right to draw numbers from one claims object. It can be handed to another thread.
/// Contracts see that object, the drawer's number in it, the numbers that it drew, in order,
/// and whether it had a None.
#[derive(Drop)]
pub struct Drawer {
    seat: Seat<u8, View>,
    number: u32,
    had_none: bool,
}

impl Model for Drawer {
    ghost use Rattle.std.specs.Prelude.{◌≡◌, ◌≤◌, [], ◌∷◌, cond};
    ghost use Rattle.tile_claims.specs.Drawers.{DrawerSeen};
    ghost use Rattle.tile_claims.specs.Lists.{large};
    ghost use Rattle.tile_claims.specs.Views.{view_of, drawer_list, first_numbers};

    ghost Value = { DrawerSeen };

    ghost view = { λ a. record {
      claims = a.seat.table_id;
      number = a.number;
      drawn = first_numbers a.seat.me.0.lists;
      had_none = a.had_none;
    } };

    // It has its own list alone, and no number of 2^32 or more before its None.
    ghost invariant = { λ a. (a.seat.me ≡ (
      view_of a.seat.me.0.made
          (drawer_list a.number (first_numbers a.seat.me.0.lists) ∷ []),
      [],
    ))
        × (large (first_numbers a.seat.me.0.lists) ≤ cond a.had_none 1 0) };
}

impl Drawer {
    /// The drawer's number in its claims object, counted from 0.
    pub fn number(&self) -> u32
        ensures { result ≡ self.now.number }
    {
        self.number
    }

    /// A drawer of that number on a seat that has drawn nothing.
    pub(crate) fn at(seat: Seat<u8, View>, number: u32) -> Drawer
        requires { seat.me ≡ (view_of seat.me.0.made (drawer_list number [] ∷ []), []) }
        ensures { result ≡ fresh_drawer seat.table_id number }
    {
        Drawer {
            seat,
            number,
            had_none: false,
        }
    }

    /// The seat alone.
    pub(crate) fn into_seat(self) -> Seat<u8, View>
        ensures table { result.table_id ≡ self.claims }
        ensures me { result.me ≡ (view_of result.me.0.made (drawer_list self.number self.drawn ∷ []), []) }
    {
        let Drawer {
            seat,
            number: _,
            had_none: _,
        } = self;
        seat
    }

    /// Draws the next number of the word. It is the answer where it is below `tiles`.
    pub(crate) fn draw(&mut self, word: &Word, tiles: u32) -> Option<u32>
        requires mine { (self.old.claims ≡ word.now.table_id) × (0 < word.now.table_id.words) }
        requires more { self.old.had_none ≡ false }
        ensures { IsClaim tiles self.old self.new result }
    {
        let number = word.fetch_add::<Draw>(&mut self.seat, 0, 1);
        if number < u64::from(tiles) {
            Some(number as u32)
        } else {
            self.had_none = true;
            None
        }
    }
}
