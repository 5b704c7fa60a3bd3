//! A plan of one step down for a list of prefixes: which children are made, and which of them is whose.

ghost use Rattle.std.specs.Prelude.{◌≡◌, ◌≢◌, ℕ, ◌+◌, ◌-◌, ◌≤◌, ◌<◌, length, slice_index_or};
ghost use Rattle.node_growth.specs.Steps.{no_step};
ghost use Rattle.node_growth.specs.Plans.{AreLonger, AreBelow, IsPlanned};

use crate::step::Step;
use prefix_bits::Prefix;

/// Puts a step at the end of the first `made` steps, unless it is the last of them. How many they are then is the result.
fn add_step(steps: &mut [Step], made: usize, step: Step) -> usize
    requires { made < length steps.old }
    ensures same { length steps.new ≡ length steps.old }
    ensures low { made ≤ result }
    ensures high { result ≤ made + 1 }
    ensures some { 0 < result }
    ensures kept { (i : ℕ) → i < made → slice_index_or steps.new i no_step ≡ slice_index_or steps.old i no_step }
    ensures own { slice_index_or steps.new (result - 1) no_step ≡ step }
    ensures apart { made < result → 0 < made → slice_index_or steps.new (made - 1) no_step ≢ slice_index_or steps.new made no_step }
{
    if made > 0 && steps[made - 1] == step {
        return made;
    }
    steps[made] = step;
    made + 1
}

/// The steps from the prefixes' fronts of `depth` bits to those that are one bit longer, into the first places of `steps`. The fronts'
/// nodes are `parents` in number; `places` has for each prefix the place of its front's node, and gets that of its own step. A prefix
/// whose step is that of the one before shares it. How many steps there are is the result.
pub fn plan_steps(
    prefixes: &[Prefix],
    depth: u16,
    parents: usize,
    places: &mut [usize],
    steps: &mut [Step],
) -> usize
    requires places { length places.old ≡ length prefixes.now }
    requires steps { length prefixes.now ≤ length steps.old }
    requires longer { AreLonger depth prefixes.now }
    requires below { AreBelow parents places.old }
    ensures same { length steps.new ≡ length steps.old }
    ensures planned { IsPlanned prefixes.now depth parents places.old places.new steps.new result (length prefixes.now) }
{
    let mut made = 0;
    for k in 0..prefixes.len() {
        let prefix = &prefixes[k];
        let step = Step {
            from: places[k],
            bit: prefix.bit(depth),
        };
        made = add_step(steps, made, step);
        places[k] = made - 1;
    }
    made
}
