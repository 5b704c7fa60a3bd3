//! Shares of strings of two bytes: three lines, or the workload whose letters come with falling counts.
//! All are made by key generation with one master.

ghost use Rattle.std.specs.Prelude.{◌≡◌, ◌≤◌, true, length};
ghost use Rattle.std.specs.List.{All};

use idpf_eval::Share;
use idpf_gen::gen_;
use prefix_bits::Prefix;
use seed_expand::Seed;
use std::alloc::{AllocError, Global};

/// The seed of all coins of the shares.
const MASTER: Seed = Seed([5; 32]);

/// Both sides' shares of some strings.
#[derive(Drop)]
pub struct Pairs {
    pub zero: Vec<Share>,
    pub one: Vec<Share>,
}

impl Pairs {
    /// The shares of no string.
    pub fn new(alloc: Global) -> Pairs {
        Pairs {
            zero: Vec::new(alloc),
            one: Vec::new(alloc),
        }
    }

    /// Adds the shares of a string of 16 bits as those of a line.
    fn add(&mut self, alloc: Global, line: u32, string: &Prefix) -> Result<(), AllocError> {
        if string.len() != 16 {
            return Ok(());
        }
        let (zero, one) = gen_(alloc, &MASTER, line, 258, string)?;
        self.zero.push(zero)?;
        self.one.push(one)?;
        Ok(())
    }

    /// The shares of `ab`, `ab` and `ac`.
    pub fn three(alloc: Global) -> Result<Pairs, AllocError> {
        let mut pairs = Pairs::new(alloc);
        pairs.add(alloc, 0, &Prefix::of_bytes(b"ab"))?;
        pairs.add(alloc, 1, &Prefix::of_bytes(b"ab"))?;
        pairs.add(alloc, 2, &Prefix::of_bytes(b"ac"))?;
        Ok(pairs)
    }

    /// The shares of the workload of so many reports: string i is, twice, the letter that is as far behind `a` as i + 1 has
    /// zero bits at its low end.
    pub fn workload(alloc: Global, reports: u32) -> Result<Pairs, AllocError> {
        let mut pairs = Pairs::new(alloc);
        for line in 0..reports {
            let zeros = u64::from(line + 1).trailing_zeros().min(15);
            let letter = b'a' + zeros as u8;
            pairs.add(alloc, line, &Prefix::of_bytes(&[letter, letter]))?;
        }
        Ok(pairs)
    }
}

/// Whether each share has 16 levels.
pub fn are_whole(shares: &[Share]) -> bool
    ensures { result ≡ true → All (λ s. length s.levels ≡ 16) shares.now }
{
    for share in shares {
        if share.levels.as_slice().len() != 16 {
            return false;
        }
    }
    true
}
