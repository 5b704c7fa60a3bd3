//! What no clause says: that the calls succeed. Nodes are compared with the evaluation from the root.
//! That steps are counted is a clause, since the counter takes no bytes when it runs.

ghost use Rattle.std.specs.Prelude.{◌≡◌, ◌+◌, ◌<◌, length, IfOk};

use definitions::Sequence;
use eval_cache::{CacheState, node_through};
use field64::Fe;
use idpf_eval::{LevelWord, Node, Share, eval_uncounted};
use prefix_bits::{Prefix, ReportId, Side};
use seed_expand::{Seed, Steps};
use std::alloc::{AllocError, Global};
use std::marker::Brand;
use std::sync::ledger::{Blank, Ledger};
use std::test::Fail;

/// A share of 8 levels, by its root.
pub(crate) fn share_of(alloc: Global, root: u8) -> Result<Share, AllocError>
    ensures levels { IfOk result (λ s. length s.levels ≡ 8) }
{
    let word = LevelWord {
        seed: Seed([7; 32]),
        left: true,
        right: false,
        u: Fe::one(),
        v: Fe::one(),
        a: Fe::zero(),
        b: Fe::zero(),
    };
    Ok(Share {
        id: ReportId([root; 16]),
        root: Seed([root; 32]),
        corr: Seed([0; 32]),
        levels: Sequence::from_vec(vec![in alloc; word; 8]?),
    })
}

// 01101
fn five_bits() -> Prefix
    ensures { length result ≡ 5 }
{
    Prefix::empty()
        .child(false)
        .child(true)
        .child(true)
        .child(false)
        .child(true)
}

// The node from the root and from its parent's node, by five steps and one.
fn both_ways<L: Ledger>(share: &Share, steps: &mut Steps<L>) -> (Node, Node)
    requires { length share.now.levels ≡ 8 }
    ensures { steps.new ≡ steps.old + 6 }
{
    let prefix = five_bits();
    let parent = eval_uncounted(share, Side::One, &prefix.parent());
    let far = node_through(share, Side::One, None, &prefix, steps);
    let near = node_through(share, Side::One, Some(&parent), &prefix, steps);
    (far, near)
}

fn both_ways_on<L: Ledger>(share: &Share, blank: Blank) -> (Node, Node)
    requires levels { length share.now.levels ≡ 8 }
    requires name { blank.name ≡ L.name }
    requires parts { blank.parts ≡ L.parts }
    requires some { 0 < blank.parts }
{
    both_ways(share, &mut Steps::<L>::open(blank))
}

fn both_ways_uncounted(share: &Share) -> (Node, Node)
    requires { length share.now.levels ≡ 8 }
{
    both_ways_on::<Brand>(share, Blank::new(1))
}

#[test]
fn a_node_from_its_parent_is_the_one_from_the_root(rt: HostRuntime) -> Result<(), Fail> {
    let share = share_of(rt.alloc(), 3)?;
    let (far, near) = both_ways_uncounted(&share);
    assert_eq!(rt; far, near);
    assert_eq!(rt; far, eval_uncounted(&share, Side::One, &five_bits()));
    Ok(())
}

#[test]
fn the_least_used_entry_goes(rt: HostRuntime) -> Result<(), Fail> {
    let share = share_of(rt.alloc(), 5)?;
    let shares = [share];
    let one = &shares[0];
    let mut cache = CacheState::new(rt.alloc(), &shares, Side::Zero, 2)?;
    let p = Prefix::empty().child(false);
    let q = Prefix::empty().child(true);
    let r = q.child(true);
    let at_p = eval_uncounted(one, Side::Zero, &p);
    let at_q = eval_uncounted(one, Side::Zero, &q);
    let at_r = eval_uncounted(one, Side::Zero, &r);
    assert!(rt; cache.keep(0, &p, &at_p));
    assert!(rt; cache.keep(0, &q, &at_q));
    assert!(rt; cache.look(0, &p) == Some(at_p));
    assert!(rt; cache.keep(0, &r, &at_r));
    assert_eq!(rt; cache.len(), 2);
    assert!(rt; cache.look(0, &q).is_none());
    assert!(rt; cache.look(0, &p) == Some(at_p));
    assert!(rt; cache.look(0, &r) == Some(at_r));
    assert!(rt; cache.look(1, &r).is_none());
    Ok(())
}
