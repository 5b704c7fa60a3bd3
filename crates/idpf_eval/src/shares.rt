//! What one side holds of a report: an id, two seeds and the corrections of each level.
//! Both types are seen as the definitions' records of their names.

ghost use Rattle.std.specs.Prelude.{◌≡◌, ◌↔◌, IsTrue, IfOk};

use definitions::Sequence;
use field64::Fe;
use prefix_bits::ReportId;
use seed_expand::Seed;
use std::alloc::{AllocError, Global};
use std::marker::Model;

/// The corrections of one level, and side's numbers A and B of the check.
#[derive(Clone, Copy, Debug, PartialEq, Eq)]
pub struct LevelWord {
    /// The seed word, which corrects the children's seeds.
    pub seed: Seed,
    /// The left bit word, which corrects the left child's bit.
    pub left: bool,
    /// The right bit word, which corrects the right child's bit.
    pub right: bool,
    /// The first element of the value word.
    pub u: Fe,
    /// The second element of the value word.
    pub v: Fe,
    /// The number A of the check.
    pub a: Fe,
    /// The number B of the check.
    pub b: Fe,
}

impl Model for LevelWord {
    ghost use Rattle.definitions.specs.Evaluation.{LevelWord as Corrections};

    ghost Value = { Corrections };

    ghost view = { λ w. record { seed = w.seed; left = w.left; right = w.right; u = w.u; v = w.v; a = w.a; b = w.b } };

    ghost inverse = { λ w. record { seed = w.seed; left = w.left; right = w.right; u = w.u; v = w.v; a = w.a; b = w.b } };
}

/// What one side holds of a report. There are 8 to `MOST_BITS` levels, a multiple of 8.
#[derive(Debug, Drop, PartialEq, Eq)]
pub struct Share {
    /// The report's id, the same on both sides.
    pub id: ReportId,
    /// The seed of the root.
    pub root: Seed,
    /// The seed of this side's part of the correlation.
    pub corr: Seed,
    /// The words of the levels 1, 2, .. in order.
    pub levels: Sequence<LevelWord>,
}

impl Model for Share {
    ghost use Rattle.std.specs.Prelude.{◌≤◌, ◌%◌, ◌≡◌, length};
    ghost use Rattle.definitions.specs.Evaluation.{Share as Held};
    ghost use Rattle.prefix_bits.specs.declared.TheConstants.{MOST_BITS};

    ghost Value = { Held };

    ghost view = { λ s. record { id = s.id; root = s.root; corr = s.corr; levels = s.levels } };

    ghost invariant = { λ s. (8 ≤ length s.levels) × (length s.levels ≤ MOST_BITS) × (length s.levels % 8 ≡ 0) };

    ghost inverse = { λ s. record { id = s.id; root = s.root; corr = s.corr; levels = s.levels } };
}

impl Share {
    /// An equal share. `AllocError` is want of memory for the levels.
    pub fn copy(&self, alloc: Global) -> Result<Share, AllocError>
        ensures equal { IfOk result (λ s. s ≡ self.now) }
    {
        let mut levels = Vec::with_capacity(alloc, self.levels.len())?;
        levels.extend_from_slice(self.levels.as_slice())?;
        Ok(Share {
            id: self.id,
            root: self.root,
            corr: self.corr,
            levels: Sequence::from_vec(levels),
        })
    }
}

/// Whether the two are equal: id, both seeds and every word.
pub fn same_share(left: &Share, right: &Share) -> bool
    ensures equal { IsTrue result ↔ (left.now ≡ right.now) }
{
    left == right
}
