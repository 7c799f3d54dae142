// Lines of hexadecimal digits: what they stand for, read in blocks of any sizes, and answers as lines.
#![tactic(auto)]

pub mod answer;
pub mod digits;
pub mod feed;
pub mod line;
