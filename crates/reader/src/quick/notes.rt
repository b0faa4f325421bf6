// Notes: the rows that the sweep has gone over, as four numbers each: kind, format, start and length.
ghost use Rattle.std.specs.Prelude.{◌≡◌, ◌+◌, ◌≤◌, ◌<◌, length, set, IfOk};
ghost use Rattle.label.specs.Limits.{longest};
ghost use Rattle.noted.specs.Noted.{note_width};
ghost use Rattle.walk.specs.Cursors.{kind_of};
ghost use Rattle.sweeps.specs.Quick.{Notable, NotedOne, CountedOne};

use noted::NOTE;
use sweeps::{Unswept, Wanted};
use walk::{Cursor, kind_of};

// So many rows gone over, and the numbers of those that are wanted, as far as there is room.
// They are its own and not lent, so that no contract has to say that a borrow is the same one.
#[derive(Drop)]
pub(crate) struct Notes<const N: usize> {
    pub(crate) rows: usize,
    pub(crate) numbers: [u16; N],
}

// Puts a row's numbers into the notes, from an index on.
// By index: with an array and `copy_from_slice` a reading of 1,023 rows takes 58,000 instructions more and misses its bar (case b).
fn put_note(notes: &mut [u16], at: usize, c: Cursor)
    requires { (at + note_width ≤ length notes.old) × ((c.start + c.length ≤ longest) × (c.format ≤ 99)) }
    ensures { notes.new ≡ set (set (set (set notes.old at (kind_of c.stage)) (at + 1) c.format) (at + 2) c.start) (at + 3) c.length }
{
    let stage = c.stage;
    notes[at] = kind_of(stage) as u16;
    notes[at + 1] = c.format as u16;
    notes[at + 2] = c.start as u16;
    notes[at + 3] = c.length as u16;
}

// Notes a row if it is wanted and there is room.
fn note(notes: &mut [u16], from: usize, row: usize, c: Cursor)
    requires { Notable row c }
    ensures { NotedOne from notes.old notes.new row c }
{
    if from <= row {
        let at = NOTE * (row - from);
        if at + NOTE <= notes.len() {
            put_note(notes, at, c);
        }
    }
}

impl<const N: usize> Notes<N> {
    // Whether a row more is asked for. It is asked before a row of any length is looked at: else a message of more rows than were asked for
    // has one of them gone over in vain, and that row may be most of the message.
    pub(crate) fn asked(&self, w: Wanted) -> Result<(), Unswept>
        ensures { IfOk result (λ u. self.now.rows < w.most) }
    {
        if w.most <= self.rows {
            return Err(Unswept::Full);
        }
        Ok(())
    }

    // Goes over a row that is asked for.
    pub(crate) fn put(&mut self, w: Wanted, c: Cursor)
        requires { Notable w.most c × (self.old.rows < w.most) }
        ensures { CountedOne w self.old.rows self.old.numbers self.new.rows self.new.numbers c }
    {
        let row = self.rows;
        note(&mut self.numbers, w.from, row, c);
        self.rows = row + 1;
    }

    // Goes over a row, if there are not yet as many as were asked for.
    pub(crate) fn count(&mut self, w: Wanted, c: Cursor) -> Result<(), Unswept>
        requires { Notable w.most c }
        ensures { IfOk result (λ u. CountedOne w self.old.rows self.old.numbers self.new.rows self.new.numbers c) }
    {
        self.asked(w)?;
        self.put(w, c);
        Ok(())
    }
}
