// Reading a message into a lent table, and the part of a row: by the quick path where that has an answer, by the exact reader elsewhere.
#![tactic(auto)]

mod parts;
mod quick;
mod table;

pub use parts::{part, stretch_of};
pub use table::read;
