//! What a report's nodes add to the part of a tile.
//! The coins of a tile's candidates are those of their places in the whole list.

ghost use Rattle.std.specs.Prelude.{◌≡◌, ◌+◌, ◌≤◌, ◌^◌, map, length};
ghost use Rattle.definitions.specs.Field.{add};
ghost use Rattle.definitions.specs.Sketch.{coin_at, coin_key, partial_sums_from};
ghost use Rattle.walk_definitions.specs.Heard.{paired};

use field64::Fe;
use idpf_eval::Node;
use sketch_check::{CoinKey, Sums};

/// The sums of nodes, of which the first is at the place `first` of the whole list. `drawn` has the coins afterwards.
pub(crate) fn sums_of(
    key: &CoinKey,
    level: u16,
    first: u32,
    nodes: &[Node],
    drawn: &mut [Fe],
) -> Sums
    requires few { first + length nodes.now ≤ 2 ^ 20 }
    requires room { length drawn.old ≡ length nodes.now }
    ensures room { length drawn.new ≡ length nodes.now }
    ensures value { result ≡ partial_sums_from (coin_at key.now level) first (map (λ n. n.d) nodes.now) (map (λ n. n.e) nodes.now) }
{
    key.coins(level, first, drawn);
    let mut sums = Sums::zero();
    for (place, node) in nodes.iter().enumerate() {
        sums = sums.with(drawn[place], node.d, node.e);
    }
    sums
}

/// Adds the values of nodes to totals, place by place.
pub(crate) fn add_values(totals: &mut [Fe], nodes: &[Node])
    requires { length totals.old ≡ length nodes.now }
    ensures { totals.new ≡ paired add totals.old (map (λ n. n.d) nodes.now) }
{
    for place in 0..totals.len() {
        let node = &nodes[place];
        totals[place] = totals[place].add(node.d);
    }
}
