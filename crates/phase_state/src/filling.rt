//! Makes the parts of a tile from the reports' shares, each node from the root.
//! The coins of a tile's candidates are those of their places in the whole list.

ghost use Rattle.std.specs.Prelude.{◌≡◌, ◌+◌, ◌<◌, ◌≤◌, ◌^◌, map, length, vec_capacity};
ghost use Rattle.std.specs.List.{All};
ghost use Rattle.definitions.specs.Field.{total_by};
ghost use Rattle.definitions.specs.Sketch.{partial_sums_from};
ghost use Rattle.phase_state.specs.Sums.{coins_of, nodes_of, share_at};

use crate::phase_plan::PhasePlan;
use field64::Fe;
use idpf_eval::{Share, eval_uncounted};
use prefix_bits::Prefix;
use sketch_check::{CoinKey, Sums};

/// A share's sums over candidates of which the first stands at the place `first` of the whole list. `drawn` has a place for
/// each candidate, and begins with their coins afterwards.
fn share_sums(
    plan: &PhasePlan<'_>,
    share: &Share,
    first: u32,
    candidates: &[Prefix],
    drawn: &mut [Fe],
) -> Sums
    requires few { first + length candidates.now ≤ 2 ^ 20 }
    requires level { plan.now.level ≤ length share.now.levels }
    requires bits { All (λ q. length q ≡ plan.now.level) candidates.now }
    requires room { length candidates.now ≤ length drawn.old }
    ensures room { length drawn.new ≡ length drawn.old }
    ensures value { result ≡ partial_sums_from (coins_of plan.now.verify plan.now.level share.now) first
        (map (λ q. (nodes_of plan.now.side share.now q).d) candidates.now) (map (λ q. (nodes_of plan.now.side share.now q).e) candidates.now) }
{
    let drawn = &mut drawn[..candidates.len()];
    CoinKey::of(&plan.verify, &share.id).coins(plan.level, first, drawn);
    let mut sums = Sums::zero();
    for (place, prefix) in candidates.iter().enumerate() {
        let node = eval_uncounted(share, plan.side, prefix);
        sums = sums.with(drawn[place], node.d, node.e);
    }
    sums
}

/// The total of live reports at a prefix.
fn total_at(plan: &PhasePlan<'_>, live: &[u32], prefix: &Prefix) -> Fe
    requires levels { All (λ s. plan.now.level ≤ length s.levels) plan.now.shares }
    requires bits { length prefix.now ≡ plan.now.level }
    requires places { All (λ i. i < length plan.now.shares) live.now }
    ensures value { result ≡ total_by (λ s. (nodes_of plan.now.side s prefix.now).d) (map (share_at plan.now.shares) live.now) }
{
    let mut sum = Fe::zero();
    for place in live {
        let share = &plan.shares[*place as usize];
        sum = sum.add(eval_uncounted(share, plan.side, prefix).d);
    }
    sum
}

/// The sums of live reports over candidates of which the first stands at the place `first` of the whole list.
pub fn fill_sums(
    plan: &PhasePlan<'_>,
    live: &[u32],
    first: u32,
    candidates: &[Prefix],
    drawn: &mut [Fe],
    sums: &mut Vec<Sums>,
)
    requires few { first + length candidates.now ≤ 2 ^ 20 }
    requires levels { All (λ s. plan.now.level ≤ length s.levels) plan.now.shares }
    requires bits { All (λ q. length q ≡ plan.now.level) candidates.now }
    requires places { All (λ i. i < length plan.now.shares) live.now }
    requires drawn { length candidates.now ≤ length drawn.old }
    requires room { length live.now ≤ vec_capacity sums.old }
    ensures drawn { length drawn.new ≡ length drawn.old }
    ensures room { vec_capacity sums.new ≡ vec_capacity sums.old }
    ensures sums { sums.new.items ≡ map (λ s. partial_sums_from (coins_of plan.now.verify plan.now.level s) first
        (map (λ q. (nodes_of plan.now.side s q).d) candidates.now) (map (λ q. (nodes_of plan.now.side s q).e) candidates.now))
        (map (share_at plan.now.shares) live.now) }
{
    sums.clear();
    for place in live {
        let share = &plan.shares[*place as usize];
        sums.push_reserved(share_sums(plan, share, first, candidates, drawn));
    }
}

/// The totals of candidates over live reports.
pub fn fill_totals(plan: &PhasePlan<'_>, live: &[u32], candidates: &[Prefix], totals: &mut Vec<Fe>)
    requires levels { All (λ s. plan.now.level ≤ length s.levels) plan.now.shares }
    requires bits { All (λ q. length q ≡ plan.now.level) candidates.now }
    requires places { All (λ i. i < length plan.now.shares) live.now }
    requires room { length candidates.now ≤ vec_capacity totals.old }
    ensures room { vec_capacity totals.new ≡ vec_capacity totals.old }
    ensures totals { totals.new.items
        ≡ map (λ q. total_by (λ s. (nodes_of plan.now.side s q).d) (map (share_at plan.now.shares) live.now)) candidates.now }
{
    totals.clear();
    for prefix in candidates {
        totals.push_reserved(total_at(plan, live, prefix));
    }
}
