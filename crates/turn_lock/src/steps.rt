//! What the lock does step by step over its words, its slot and its seats.
//! Each function makes one kind of step, or ends the table.
ghost use Rattle.std.specs.Prelude.{◌≡◌, ℕ, ◌+◌, ◌<◌, ◌%◌, ◌^◌, List, [], ◌∷◌, length, map, vec_len, None, Some};
ghost use Rattle.std.specs.List.{AllByRecursion};
ghost use Rattle.turn_lock.specs.declared.views.Mine.{Mine};
ghost use Rattle.turn_lock.specs.Seen.{LockId, fresh_pass};
ghost use Rattle.turn_lock.specs.Kept.{IsWhole};
ghost use Rattle.turn_lock.specs.Seats.{Knows, resting, waiting, inside, new_pass, mine_of};

use crate::passes::Pass;
use crate::rule::{Board, Deal, Gather, LockSeat, Owner, Watch};
use crate::value::Held;
use std::sync::Wait;
use std::thread::yield_now;

/// How often a seat reads the word of serving before it yields its processor after each further read.
const READS_BEFORE_YIELDING: u32 = 128;

/// Reads the word of serving until it shows the seat's ticket: the seat is then in turn, with the value in its slot.
/// After [`READS_BEFORE_YIELDING`] reads it lets other threads run between two of them.
pub(crate) fn wait_for_turn<S: Held, R: Wait>(
    rt: &R,
    shared: &Board<S>,
    seat: &mut LockSeat<S>,
    ticket: u64,
)
    requires mine { (seat.old.table_id ≡ shared.now.table_id) × (shared.now.table_id.words ≡ 2) }
    requires waits { (made : ℕ) × (mine : List (Mine S.Plan S.Entry)) × (t : ℕ) × (t % 2 ^ 64 ≡ ticket)
        × (seat.old.me ≡ (waiting made mine t, [])) }
    ensures mine { seat.new.table_id ≡ seat.old.table_id }
    ensures served { (t : ℕ) × (x : S)
        × (seat.new.me ≡ (inside seat.old.me.0.made seat.old.me.0.mine t (S.log x), (0, Some x) ∷ []))
        × AllByRecursion (Knows S.by (S.plan x) (S.log x)) seat.old.me.0.mine }
{
    let mut quick = READS_BEFORE_YIELDING;
    for _ in rt.forever() {
        if shared.load::<Watch>(seat, 1) == ticket {
            return;
        }
        if quick > 0 {
            quick -= 1;
        } else {
            yield_now();
        }
    }
    unreachable!()
}

/// Makes the pass of the next number from the seat that keeps the count.
pub(crate) fn deal<S: Held>(shared: &Board<S>, keeper: &mut LockSeat<S>, number: u32) -> Pass<S>
    requires mine { (keeper.old.table_id ≡ shared.now.table_id) × (0 < shared.now.table_id.words) }
    requires first { keeper.old.me
        ≡ (resting number (new_pass 0 (S.plan shared.now.key.first.value) [] ∷ []), []) }
    requires room { (0 < number) × (number < shared.now.key.passes) }
    ensures same { keeper.new.table_id ≡ keeper.old.table_id }
    ensures left { keeper.new.me
        ≡ (resting (number + 1) (new_pass 0 (S.plan shared.now.key.first.value) [] ∷ []), []) }
    ensures dealt { result
        ≡ fresh_pass (record { table = shared.now.table_id; plan = S.plan shared.now.key.first.value }) number }
{
    let seat = shared.split_seat::<Deal>(keeper);
    Pass::from_seat(seat, number)
}

/// Hands the pass in to the keeper's seat.
pub(crate) fn take_in<S: Held>(shared: &Board<S>, keeper: &mut LockSeat<S>, pass: Pass<S>)
    requires mine { (keeper.old.table_id ≡ shared.now.table_id)
        × (pass.lock.table ≡ shared.now.table_id) × (0 < shared.now.table_id.words) }
    requires out { keeper.old.me ≡ (resting keeper.old.me.0.made keeper.old.me.0.mine, []) }
    ensures same { keeper.new.table_id ≡ keeper.old.table_id }
    ensures both { keeper.new.me ≡ (resting keeper.new.me.0.made (mine_of pass ∷ keeper.old.me.0.mine), []) }
{
    let (seat, _) = pass.into_seat();
    shared.join_seat::<Gather>(keeper, seat);
}

/// Hands all passes in to one seat.
pub(crate) fn gather<S: Held + Drop>(shared: &Board<S>, mut passes: Vec<Pass<S>>) -> LockSeat<S>
    requires some { 0 < vec_len passes }
    requires mine { AllByRecursion (λ pass. pass.lock.table ≡ shared.now.table_id) passes.items }
    requires words { 0 < shared.now.table_id.words }
    ensures same { result.table_id ≡ shared.now.table_id }
    ensures all { result.me ≡ (resting result.me.0.made (map mine_of passes.items), []) }
{
    let Some(last) = passes.pop() else {
        unreachable!()
    };
    let (mut keeper, _) = last.into_seat();
    while let Some(pass) = passes.pop() {
        take_in(shared, &mut keeper, pass);
    }
    keeper
}

/// Ends the table with a seat that has every pass, and gives the value back.
pub(crate) fn finish<S: Held>(table: Owner<S>, keeper: LockSeat<S>) -> S
    requires mine { (keeper.table_id ≡ table.shared.table_id) × (table.shared.table_id.slots ≡ 1) }
    requires out { keeper.me ≡ (resting keeper.me.0.made keeper.me.0.mine, []) }
    requires all { length keeper.me.0.mine ≡ table.shared.key.passes }
    ensures { IsWhole S.plan S.log S.by
        (S.plan table.shared.key.first.value) table.shared.key.passes keeper.me.0.mine result }
{
    let mut closed = table.close_with(keeper);
    let Some(value) = closed.take(0) else {
        unreachable!()
    };
    closed.free();
    value
}
