//! What the overlays of a store keep without a name, in a world: the invariant of it, and what a permit leaves of overlays
//! through which it changes nothing. Each public function is a law, and does nothing.
#![tactic(auto)]

pub mod leaving;
