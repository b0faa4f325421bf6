// What the quick path keeps while it sweeps a message: which rows are wanted, how far it is, and what it says of the message. The
// definitions are in specs/Quick and its neighbours, the laws in proofs; the code that sweeps is `reader`'s. They stand apart so that no
// edit of that code is tried with their proofs.
#![tactic(auto)]

use leaves::Class;
use walk::Stage;

// Which rows are noted, those from a number on as far as the notes reach; and how many rows are gone over at most.
#[derive(Clone, Copy)]
pub struct Wanted {
    pub from: usize,
    pub most: usize,
}

// What a header value of 09 or 15 has to be: its format and the stage of its row, its bytes' class, its least and its greatest length.
#[derive(Clone, Copy)]
pub struct Value {
    pub format: u32,
    pub stage: Stage,
    pub class: Class,
    pub least: usize,
    pub most: usize,
}

// Why a message is left to the exact reader, which says what it is: it may have more rows than were asked for, or isn't known at once.
#[derive(Clone, Copy)]
pub enum Unswept {
    Full,
    Left,
}
