// The quick path: a good message is judged and its rows are noted in one sweep. These files add speed, no meaning: what the sweep doesn't
// know at once it gives up, and the exact reader decides; so it does with format 02, anything odd, and more rows than were asked for. What
// it says of a message is what the exact reader would say (`SweptSo` of `sweeps`' specs/Quick).
mod counted;
mod elements;
mod message;
mod notes;
mod piecewise;
mod runs;
mod segments;
mod sweep;
mod text;
mod transport;

pub(crate) use message::{framed, sweep};
pub(crate) use notes::Notes;
