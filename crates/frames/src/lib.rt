// The frame call: a polygon or the parts of a multipolygon, read from bytes, routed, cut and answered in bytes.
#![tactic(auto)]

pub mod entry;
pub mod parts;
