//! The events to come, taken one by one.
//! Contracts see them as a list, the next one first.

ghost use Rattle.std.specs.Prelude.{◌≡◌, [], ◌∷◌, IfSome, IfNone};

use crate::events::Event;
use std::marker::Model;

/// The events to come.
#[derive(Drop)]
pub struct EventQueue {
    // the next one last
    reversed: Vec<Event>,
}

impl Model for EventQueue {
    ghost use Rattle.std.specs.Prelude.{List};
    ghost use Rattle.std.specs.Prelude.{reverse};
    ghost use Rattle.interleaving_core.specs.declared.events.Event.{Event as Kind};

    ghost Value = { List Kind };

    ghost view = { λ q. reverse q.reversed.items };
}

impl EventQueue {
    /// All of these, in their order.
    pub fn of(events: Vec<Event>) -> EventQueue
        ensures { result ≡ events.items }
    {
        let mut reversed = events;
        reversed.reverse();
        EventQueue { reversed }
    }
    /// Takes the next event, where there is one.
    pub fn next(&mut self) -> Option<Event>
        ensures some { IfSome result (λ event. self.old ≡ event ∷ self.new) }
        ensures none { IfNone result ((self.old ≡ []) × (self.new ≡ [])) }
    {
        self.reversed.pop()
    }
}
