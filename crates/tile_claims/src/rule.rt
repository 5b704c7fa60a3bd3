//! The rule over the claim word and the views of its seats, and the three kinds of step that keep it:
//! a claim by a drawer, a split where drawers are made, and a join where they are handed in.
ghost use Rattle.std.specs.Prelude.{ℕ, ◌<◌, ◌≤◌, List, [], ◌∷◌};
ghost use Rattle.tile_claims.specs.declared.views.View.{View};
ghost use Rattle.tile_claims.specs.Rule.{Rule, KeptByClaims, KeptBySplits, KeptByJoins};
ghost use Rattle.tile_claims.specs.Views.{view_of, drawer_list, Kept, Claimed, Claims, counts_on, newcomer, both, spent};

use crate::views::View;
use atomic_table::{Join, Play, Split, TableRule};

/// The rule. Its key is how many drawers there are to be.
pub struct ClaimRule;

impl TableRule<u8, View, u32> for ClaimRule {
    ghost holds = { Claimed };

    ghost first = { λ _. view_of 1 (drawer_list 0 [] ∷ []) };
}

/// One add on the word: the drawer's list gets the number found.
pub struct Draw;

impl Play<u8, View> for Draw {
    ghost then = { λ _. Claims };
}

/// The seat that keeps the count makes a drawer.
pub struct Deal;

impl Split<View> for Deal {
    ghost left = { counts_on };

    ghost right = { newcomer };
}

/// A drawer is handed in at the close.
pub struct Gather;

impl Join<View> for Gather {
    ghost both = { both };

    ghost spent = { spent };
}

/// The rule of the claims, in plain words; the function does nothing, and its clauses are what matters.
/// What the claim word and the views of its seats keep, `Kept`, holds at the start, and the three kinds of
/// step keep it. Wherever it holds, `Rule` does: each drawer that was made has one list, each number below
/// the word stands in one list once, the numbers of a list ascend, and the word stays far below 2^64.
pub fn rule_of_claims()
    ensures start { (drawers : ℕ) → 0 < drawers → drawers ≤ 4096
        → Kept drawers 0 (view_of 1 (drawer_list 0 [] ∷ []) ∷ []) }
    ensures claim { (drawers : ℕ) → KeptByClaims (Kept drawers) }
    ensures split { (drawers : ℕ) → KeptBySplits drawers (Kept drawers) }
    ensures join { (drawers : ℕ) → KeptByJoins (Kept drawers) }
    ensures rule { (drawers n : ℕ) (views : List View) → Kept drawers n views → Rule n views }
{}
