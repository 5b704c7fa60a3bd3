//! One level further down for many lines at once, over slices of one length: expand, correct, convert, read the numbers, take.

ghost use Rattle.std.specs.Prelude.{◌≡◌, length, map};
ghost use Rattle.std.specs.List.{All};
ghost use Rattle.definitions.specs.Words.{extend, convert};
ghost use Rattle.idpf_gen.specs.LevelWords.{kept_seed0, kept_seed1};
ghost use Rattle.seed_lanes.specs.Blocks.{numbers_of};
ghost use Rattle.generation_lanes.specs.Growing.{bit_next, one_level, turn_of, IsReady};
ghost use Rattle.generation_lanes.specs.Seeds.{seed_at};

use crate::growing_pair::GrowingPair;
use crate::line_seed::LineSeed;
use crate::turn::Turn;
use seed_expand::{Children, Converted, Seed};
use seed_lanes::{Numbers, convert_many, extend_many, numbers_many};

/// One seed of each line.
fn gather(lines: &[GrowingPair], which: LineSeed, seeds: &mut [Seed])
    requires same { length seeds.old ≡ length lines.now }
    ensures seeds { seeds.new ≡ map (seed_at which) lines.now }
{
    for k in 0..lines.len() {
        let line = &lines[k];
        seeds[k] = line.seed(which);
    }
}

/// The children of one seed of each line.
fn expand(lines: &[GrowingPair], which: LineSeed, seeds: &mut [Seed], children: &mut [Children])
    requires seeds { length seeds.old ≡ length lines.now }
    requires children { length children.old ≡ length lines.now }
    ensures same { length seeds.new ≡ length lines.now }
    ensures children { children.new ≡ map (λ p. extend (seed_at which p)) lines.now }
{
    gather(lines, which, seeds);
    extend_many(seeds, children);
}

/// The numbers at a level of one seed of each line.
fn read(
    lines: &[GrowingPair],
    which: LineSeed,
    level: u16,
    seeds: &mut [Seed],
    numbers: &mut [Numbers],
)
    requires seeds { length seeds.old ≡ length lines.now }
    requires numbers { length numbers.old ≡ length lines.now }
    ensures same { length seeds.new ≡ length lines.now }
    ensures numbers { numbers.new ≡ map (λ p. numbers_of level (seed_at which p)) lines.now }
{
    gather(lines, which, seeds);
    numbers_many(seeds, u32::from(level), numbers);
}

/// The corrected seeds of both sides' children along each line's next bit.
fn correct(
    lines: &[GrowingPair],
    level: u16,
    from0: &[Children],
    from1: &[Children],
    seeds0: &mut [Seed],
    seeds1: &mut [Seed],
)
    requires ready { All (IsReady level) lines.now }
    requires from0 { from0.now ≡ map (λ p. extend p.path.seed0) lines.now }
    requires from1 { from1.now ≡ map (λ p. extend p.path.seed1) lines.now }
    requires seeds0 { length seeds0.old ≡ length lines.now }
    requires seeds1 { length seeds1.old ≡ length lines.now }
    ensures zero { seeds0.new ≡ map (λ p. kept_seed0 p.path (bit_next p)) lines.now }
    ensures one { seeds1.new ≡ map (λ p. kept_seed1 p.path (bit_next p)) lines.now }
{
    for k in 0..lines.len() {
        let line = &lines[k];
        let (seed0, seed1) = line.kept_seeds(level, &from0[k], &from1[k]);
        seeds0[k] = seed0;
        seeds1[k] = seed1;
    }
}

/// What the next level gives each line.
fn turn_all(
    lines: &[GrowingPair],
    level: u16,
    from0: &[Children],
    from1: &[Children],
    to0: &[Converted],
    to1: &[Converted],
    coins: &[Numbers],
    corr0: &[Numbers],
    corr1: &[Numbers],
    turns: &mut [Turn],
)
    requires ready { All (IsReady level) lines.now }
    requires from0 { from0.now ≡ map (λ p. extend p.path.seed0) lines.now }
    requires from1 { from1.now ≡ map (λ p. extend p.path.seed1) lines.now }
    requires to0 { to0.now ≡ map (λ p. convert (kept_seed0 p.path (bit_next p))) lines.now }
    requires to1 { to1.now ≡ map (λ p. convert (kept_seed1 p.path (bit_next p))) lines.now }
    requires coins { coins.now ≡ map (λ p. numbers_of level (seed_at LineSeed.Coins p)) lines.now }
    requires corr0 { corr0.now ≡ map (λ p. numbers_of level (seed_at LineSeed.CorrZero p)) lines.now }
    requires corr1 { corr1.now ≡ map (λ p. numbers_of level (seed_at LineSeed.CorrOne p)) lines.now }
    requires same { length turns.old ≡ length lines.now }
    ensures turns { turns.new ≡ map turn_of lines.now }
{
    for k in 0..lines.len() {
        let line = &lines[k];
        turns[k] = line.turn(
            level, &from0[k], &from1[k], &to0[k], &to1[k], &coins[k], &corr0[k], &corr1[k],
        );
    }
}

/// Lets each line take what the level gives it.
fn take_all(lines: &mut [GrowingPair], level: u16, turns: &[Turn])
    requires ready { All (IsReady level) lines.old }
    requires turns { turns.now ≡ map turn_of lines.old }
    ensures lines { lines.new ≡ map one_level lines.old }
{
    for k in 0..lines.len() {
        let line = &mut lines[k];
        line.take(level, &turns[k]);
    }
}

/// Takes each line one level further down. What the other slices held is lost.
pub(crate) fn level_over(
    lines: &mut [GrowingPair],
    level: u16,
    seeds0: &mut [Seed],
    seeds1: &mut [Seed],
    from0: &mut [Children],
    from1: &mut [Children],
    to0: &mut [Converted],
    to1: &mut [Converted],
    coins: &mut [Numbers],
    corr0: &mut [Numbers],
    corr1: &mut [Numbers],
    turns: &mut [Turn],
)
    requires ready { All (IsReady level) lines.old }
    requires seeds0 { length seeds0.old ≡ length lines.old }
    requires seeds1 { length seeds1.old ≡ length lines.old }
    requires from0 { length from0.old ≡ length lines.old }
    requires from1 { length from1.old ≡ length lines.old }
    requires to0 { length to0.old ≡ length lines.old }
    requires to1 { length to1.old ≡ length lines.old }
    requires coins { length coins.old ≡ length lines.old }
    requires corr0 { length corr0.old ≡ length lines.old }
    requires corr1 { length corr1.old ≡ length lines.old }
    requires turns { length turns.old ≡ length lines.old }
    ensures lines { lines.new ≡ map one_level lines.old }
{
    read(lines, LineSeed::Coins, level, seeds0, coins);
    read(lines, LineSeed::CorrZero, level, seeds0, corr0);
    read(lines, LineSeed::CorrOne, level, seeds0, corr1);
    expand(lines, LineSeed::Zero, seeds0, from0);
    expand(lines, LineSeed::One, seeds1, from1);
    correct(lines, level, from0, from1, seeds0, seeds1);
    convert_many(seeds0, to0);
    convert_many(seeds1, to1);
    turn_all(
        lines, level, from0, from1, to0, to1, coins, corr0, corr1, turns,
    );
    take_all(lines, level, turns);
}
