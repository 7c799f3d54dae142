// Frames and answers as bytes: a frame is read, checked and measured as it stands, and counts, coordinates, rings and headers of an answer
// are written.
#![tactic(auto)]

pub mod accepted;
pub mod encode;
pub mod head;
pub mod measure;
pub mod reader;
pub mod ring;
pub mod room;
pub mod simple;
