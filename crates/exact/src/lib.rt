// Whether two segments share a point, exactly: `grid` takes doubles on the grid of 1/2^48 for whole numbers, `segments` tests segments
// between points of such, `wide` has their products.
#![tactic(auto)]

pub mod grid;
pub mod segments;
pub mod wide;
