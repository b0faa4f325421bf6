// The exact reader, which takes every message and decides alone: judge, then walk. In front of it `reader` has the quick path.
#![tactic(auto)]

mod rows;
mod table;

pub use table::read_exactly;
