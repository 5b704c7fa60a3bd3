//! Marks of the tiles of a plan, one for each tile.
//! Where two states join, their marks do, place by place.

ghost use Rattle.std.specs.Prelude.{◌≡◌, ◌||◌, length};
ghost use Rattle.walk_definitions.specs.Heard.{paired};

/// Whether one of the two is marked.
fn either(one: bool, other: bool) -> bool
    ensures { result ≡ one || other }
{
    one || other
}

/// Marks each place that is marked in `more`.
pub fn mark_all(into: &mut [bool], more: &[bool])
    requires same { length into.old ≡ length more.now }
    ensures { into.new ≡ paired (λ a b. a || b) into.old more.now }
{
    for place in 0..into.len() {
        into[place] = either(into[place], more[place]);
    }
}
