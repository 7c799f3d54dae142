// Routing of one polygon: what becomes of it at a tile. Its exterior decides; its rings are cut one by one.
#![tactic(auto)]

pub mod polygon;
