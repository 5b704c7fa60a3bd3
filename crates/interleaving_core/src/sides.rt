//! Both sides of a phase.

use half_events::Half;

/// The two sides of one phase.
#[derive(Drop)]
pub struct Sides<'a> {
    /// Side 0.
    pub zero: Half<'a>,
    /// Side 1.
    pub one: Half<'a>,
}
