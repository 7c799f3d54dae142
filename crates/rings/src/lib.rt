// What is asked of the rings of a polygon before and after a cut: their rectangle, coordinates that an overlay can't take, edges along a
// bound, and, of rings lent one behind the other, the room that they need.
#![tactic(auto)]

pub mod bridge;
pub mod lent;
pub mod lent_rings;
pub mod rectangle;
pub mod representable;
