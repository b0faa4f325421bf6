// The one walk over the rows of a good message: to its first row, and from a row to the one behind it. Nothing is tested again: `first` and
// `next` take every input, and on a message that is read they go over exactly its rows (`walked` of walk's proofs/Promises).
#![tactic(auto)]

mod indicator;
mod place;

ghost use Rattle.std.specs.Prelude.{◌≡◌};
ghost use Rattle.walk.specs.Cursors.{first_cursor, next_cursor};

use indicator::indicator_at;
use label::HEADER_LENGTH;
use place::Place;
use walk::{Cursor, Stage, count_from};

// The first row of a message: the indicator behind its header. It takes every message.
#[tactic(auto, unfolding(walk::specs::Cursors::first_cursor))]
pub fn first(m: &[u8]) -> Cursor
    ensures { result ≡ first_cursor m.now }
{
    indicator_at(m, HEADER_LENGTH)
}

// The row behind a row, on a good message. It takes every message and every cursor.
#[tactic(auto, unfolding(walk::specs::Cursors::next_cursor, walk::specs::Cursors::following))]
pub fn next(m: &[u8], c: Cursor) -> Cursor
    ensures { result ≡ next_cursor m.now c }
{
    let row = Place {
        message: m,
        format: c.format,
        at: c.start,
    };
    let end = row.ahead(c.length);
    let behind = end.ahead(1);
    match c.stage {
        Stage::Indicator => end.opening(),
        Stage::VersionValue => end.plain(Stage::Piece),
        Stage::ReleaseValue => end.ahead(3).plain(Stage::Tag),
        Stage::TypeValue => behind.plain(Stage::CompressionValue),
        Stage::CompressionValue => behind.plain(Stage::CountValue),
        Stage::CountValue => behind.row(Stage::Body, count_from(m, c.start)),
        Stage::Piece => end.after_piece(),
        Stage::Tag | Stage::LaterElement | Stage::FurtherSubElement => end.after_sub_element(),
        Stage::Body => indicator_at(m, behind.at),
    }
}
