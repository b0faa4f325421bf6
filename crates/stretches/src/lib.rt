// How many rows are read in a message, and where a row's part lies, by the exact reader's passes: judge, then walk.
#![tactic(auto)]

ghost use Rattle.std.specs.Prelude.{◌≡◌, length};
ghost use Rattle.label.specs.ReadMessage.{reading};
ghost use Rattle.label.specs.Answer.{rows_read};
ghost use Rattle.stretches.specs.Stretches.{Lies, SomeHasRow, LiesWhere};

use label::{Edition, Reading, Stretch};
use steps::{first, next};
use walk::Cursor;

// How many rows are read in a message in an edition, in a refused one none.
pub fn rows_of(edition: Edition, m: &[u8]) -> usize
    ensures { result ≡ length (rows_read (reading edition m.now)) }
{
    judge::judge(edition, m).map_or(0, |counts| counts.rows)
}

// The walk to a row that the message has.
fn cursor_at(m: &[u8], row: usize) -> Cursor
    requires { SomeHasRow m.now row }
    ensures { LiesWhere m.now row result.start result.length }
{
    let mut c = first(m);
    for _step in 0..row {
        c = next(m, c);
    }
    c
}

// The empty start. It is no Option: `part_of` of document 01 has it so, and zielorad.h hands it on.
fn nowhere() -> Stretch
    ensures { result ≡ record { start = 0; length = 0 } }
{
    Stretch {
        start: 0,
        length: 0,
    }
}

// Where a row's part lies, by the exact reader; the empty start where there is no such row.
pub fn stretch_exactly(edition: Edition, m: &[u8], row: usize) -> Stretch
    ensures { Lies edition m.now row result.start result.length }
{
    if row < rows_of(edition, m) {
        let c = cursor_at(m, row);
        return Stretch {
            start: c.start,
            length: c.length,
        };
    }
    nowhere()
}
