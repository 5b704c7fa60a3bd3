//! Which calls are to fail, and how many were made and have failed.
//! The forms in memory ask it before each call.

ghost use Rattle.std.specs.Prelude.{◌≡◌, ◌↔◌, ◌≤◌, IsTrue};
ghost use Rattle.shelf_io.specs.Faults.{Rose};
ghost use Rattle.shelf_io.specs.Plans.{fresh, place_of_call, IsDue, WasMade};

use crate::call::Call;
use std::marker::Model;

/// The calls that are to fail, how many of each kind were made, and how many have failed.
#[derive(Drop)]
pub struct Plan {
    fail: Vec<(Call, u64)>,
    made: [u64; 7],
    faults: u64,
}

impl Model for Plan {
    ghost use Rattle.shelf_io.specs.Plans.{Planned};

    ghost Value = { Planned };

    ghost view = { λ a. record { fail = a.fail.items; made = a.made; faults = a.faults } };
}

impl Plan {
    /// No call was made.
    pub fn new(fail: Vec<(Call, u64)>) -> Plan
        ensures planned { result ≡ fresh fail.items }
    {
        Plan {
            fail,
            made: [0; 7],
            faults: 0,
        }
    }

    /// Counts a call, and tells whether it is to fail, which counts as a fault.
    pub fn fails(&mut self, call: Call) -> bool
        ensures due { IsTrue result ↔ IsDue call self.old }
        ensures made { WasMade call self.old self.new }
        ensures later { self.old.faults ≤ self.new.faults }
        ensures rose { IsTrue result → Rose self.old.faults self.new.faults }
    {
        let place = place_of(call);
        let number = self.made[place].saturating_add(1);
        self.made[place] = number;
        let fails = self.fail.contains(&(call, number));
        if fails {
            self.faults = self.faults.saturating_add(1);
        }
        fails
    }
}

/// The place of a kind of call among the counts.
fn place_of(call: Call) -> usize
    ensures place { result ≡ place_of_call call }
{
    match call {
        Call::Length => 0,
        Call::Read => 1,
        Call::Begin => 2,
        Call::Append => 3,
        Call::Write => 4,
        Call::Send => 5,
        Call::Receive => 6,
    }
}
