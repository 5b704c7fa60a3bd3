//! The claims of one phase: many workers draw the numbers of the tiles from one word.
//! A claim is one atomic add. It takes no lock and no memory, and waits for nobody.
ghost use Rattle.std.specs.Prelude.{◌≡◌, ◌+◌, ◌≤◌, ◌<◌, false, [], ◌∷◌, length, IfOk, vec_len};
ghost use Rattle.std.specs.List.{AllByRecursion};
ghost use Rattle.tile_claims.specs.Drawers.{IsClaim, fresh_drawer, fresh_drawers, all_drawn, list_of};
ghost use Rattle.tile_claims.specs.Lists.{Ascends, AreNumberedOnce, HasEachBelowOnce};
ghost use Rattle.tile_claims.specs.Views.{view_of, drawer_list, IsWhole};

use crate::drawers::{Drawer, Word};
use crate::rule::{ClaimRule, Deal, Gather};
use crate::views::View;
use atomic_table::{Seat, Table};
use std::alloc::{AllocError, Global};
use std::marker::Model;

/// The table that owns the claim word.
type WordTable = Table<u8, View, u32, ClaimRule, Global>;

/// The numbers of `tiles` tiles, to be drawn by several drawers at once. It is shared by `&` between threads.
/// Contracts see which object it is, the number of tiles, and the number of drawers.
#[derive(Drop)]
pub struct Claims {
    table: WordTable,
    tiles: u32,
}

impl Model for Claims {
    ghost use Rattle.std.specs.Prelude.{◌≡◌, ◌<◌};
    ghost use Rattle.tile_claims.specs.Drawers.{ClaimsSeen};

    ghost Value = { ClaimsSeen };

    ghost view = { λ a. record {
      id = a.table.shared.table_id;
      tiles = a.tiles;
      drawers = a.table.shared.key;
    } };

    ghost invariant = { λ a. (a.table.shared.table_id.words ≡ 1)
        × (a.table.shared.table_id.slots ≡ 0) × (0 < a.table.shared.key) };
}

impl Claims {
    /// A claims object over `tiles` tiles, with its `drawers` drawers, 1 to 4096. Nothing is drawn yet:
    /// drawer `k` of the list, counted from 0, has the number `k`, an empty list and no None.
    /// `AllocError` is want of memory; then nothing stands.
    pub fn new(alloc: Global, tiles: u32, drawers: u32) -> Result<(Claims, Vec<Drawer>), AllocError>
        requires { (1 ≤ drawers) × (drawers ≤ 4096) }
        ensures tiles { IfOk result (λ made. made.0.tiles ≡ tiles) }
        ensures count { IfOk result (λ made. made.0.drawers ≡ drawers) }
        ensures length { IfOk result (λ made. vec_len made.1 ≡ drawers) }
        ensures drawers { IfOk result (λ made. made.1.items ≡ fresh_drawers made.0.id drawers) }
    {
        let mut made = Vec::with_capacity(alloc, drawers as usize)?;
        let (table, mut keeper) = WordTable::of_words(alloc, &[0], &drawers)?;
        for number in 1..drawers {
            made.push_reserved(deal(&table.shared, &mut keeper, number));
        }
        let Ok(()) = made.insert(0, Drawer::at(keeper, 0)) else {
            unreachable!()
        };
        Ok((Claims { table, tiles }, made))
    }

    /// Draws the next number for `drawer`, by one atomic add. The number is greater than all that the drawer
    /// has drawn, and is added to its list. It is the answer where it is below the number of tiles.
    /// `None` comes exactly where it is not; then the drawer has had its None and may draw no more.
    pub fn claim(&self, drawer: &mut Drawer) -> Option<u32>
        requires mine { drawer.old.claims ≡ self.now.id }
        requires more { drawer.old.had_none ≡ false }
        ensures { IsClaim self.now.tiles drawer.old drawer.new result }
    {
        drawer.draw(&self.table.shared, self.tiles)
    }

    /// Ends the claims. All drawers are handed in, in any order.
    /// The answer is how often was claimed, n: the numbers from 0 to n - 1 stand in the drawers' lists,
    /// each once, and no others do.
    pub fn close(self, mut drawers: Vec<Drawer>) -> u64
        requires mine { AllByRecursion (λ drawer. drawer.claims ≡ self.id) drawers.items }
        requires all { vec_len drawers ≡ self.drawers }
        ensures once { HasEachBelowOnce result (all_drawn drawers.items) }
        ensures ascend { AllByRecursion (λ drawer. Ascends drawer.drawn) drawers.items }
        ensures numbers { AreNumberedOnce (λ drawer. drawer.number) drawers.items }
    {
        let Claims { table, tiles: _ } = self;
        let Some(first) = drawers.pop() else {
            unreachable!()
        };
        let mut keeper = first.into_seat();
        while let Some(drawer) = drawers.pop() {
            take_in(&table.shared, &mut keeper, drawer);
        }
        finish(table, keeper)
    }
}

/// The drawer of that number, made by the seat that keeps the count.
fn deal(word: &Word, keeper: &mut Seat<u8, View>, number: u32) -> Drawer
    requires mine { (keeper.old.table_id ≡ word.now.table_id) × (0 < word.now.table_id.words) }
    requires first { keeper.old.me ≡ (view_of number (drawer_list 0 [] ∷ []), []) }
    requires room { (0 < number) × (number < word.now.key) }
    ensures same { keeper.new.table_id ≡ keeper.old.table_id }
    ensures left { keeper.new.me ≡ (view_of (number + 1) (drawer_list 0 [] ∷ []), []) }
    ensures dealt { result ≡ fresh_drawer word.now.table_id number }
{
    let seat = word.split_seat::<Deal>(keeper);
    Drawer::at(seat, number)
}

/// The drawer's list goes before those of the seat that collects them.
fn take_in(word: &Word, keeper: &mut Seat<u8, View>, drawer: Drawer)
    requires keeper { keeper.old.table_id ≡ word.now.table_id }
    requires mine { (drawer.claims ≡ word.now.table_id) × (0 < word.now.table_id.words) }
    requires out { keeper.old.me ≡ (view_of keeper.old.me.0.made keeper.old.me.0.lists, []) }
    ensures same { keeper.new.table_id ≡ keeper.old.table_id }
    ensures both { keeper.new.me ≡ (
      view_of keeper.new.me.0.made
          (list_of drawer ∷ keeper.old.me.0.lists),
      [],
    ) }
{
    let seat = drawer.into_seat();
    word.join_seat::<Gather>(keeper, seat);
}

/// The word's value, by the seat that has every list.
fn finish(table: WordTable, keeper: Seat<u8, View>) -> u64
    requires mine { keeper.table_id ≡ table.shared.table_id }
    requires word { (table.shared.table_id.words ≡ 1) × (table.shared.table_id.slots ≡ 0) }
    requires all { (keeper.me.1 ≡ []) × (length keeper.me.0.lists ≡ table.shared.key) }
    ensures { IsWhole table.shared.key result keeper.me.0.lists }
{
    let closed = table.close_with(keeper);
    let word = closed.word(0);
    closed.free();
    word
}
