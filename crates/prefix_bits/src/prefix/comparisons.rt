//! Equality, order and hash of prefixes, which are those of the lists of bits.
//! The words stand in the order of the lists, since the first bit is the highest and the bits past the end are 0.

ghost use Rattle.std.specs.Prelude.{length, ◌++◌, refl};
ghost use Rattle.std.proofs.Common.{ap};
ghost use Rattle.std.specs.Hash as fed;
ghost use Rattle.std.specs.Ordering.{as_partial_cmp};
ghost use Rattle.prefix_bits.specs.Bits.{bits_eq, bits_cmp};
ghost use Rattle.prefix_bits.specs.Orders.{bits_equivalence, bits_partial_equivalence, bits_decide, bits_total, bits_ties, bits_partial_order};
ghost use Rattle.prefix_bits.specs.Stored.{words_of};
ghost use Rattle.prefix_bits.specs.declared.prefix.TheConstants.{WORDS};

use super::Prefix;
use std::cmp::Ordering;
use std::hash::{Hash, Hasher};

impl PartialEq for Prefix {
    ghost eq = { bits_eq };

    ghost laws = { bits_partial_equivalence };

    fn eq(&self, other: &Prefix) -> bool {
        self.words == other.words && self.len == other.len
    }
}

impl Eq for Prefix {
    ghost laws = { bits_equivalence };
}

impl PartialOrd for Prefix {
    ghost partial_cmp = { as_partial_cmp bits_cmp };

    ghost laws = { bits_partial_order };

    fn partial_cmp(&self, other: &Prefix) -> Option<Ordering> {
        Some(self.cmp(other))
    }
}

impl Ord for Prefix {
    ghost cmp = { bits_cmp };

    ghost total = { bits_total };

    ghost matches_partial_cmp = { λ _ _. refl };

    ghost matches_eq = { bits_ties };

    fn cmp(&self, other: &Prefix) -> Ordering {
        self.words.cmp(&other.words).then(self.len.cmp(&other.len))
    }
}

impl Hash for Prefix {
    ghost hash_input = { λ bits. fed.slice fed.u64 (words_of WORDS bits) ++ fed.u16 (length bits) };

    ghost respects_eq = { λ p q same. ap (λ bits. fed.slice fed.u64 (words_of WORDS bits) ++ fed.u16 (length bits)) ((bits_decide p q).0 same) };

    fn hash<H: Hasher>(&self, state: &mut H) {
        self.words.hash(state);
        self.len.hash(state);
    }
}
