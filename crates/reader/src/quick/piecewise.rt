// The quick path over a body of pieces, elements or fields, up to an RS.
ghost use Rattle.std.specs.Prelude.{◌<◌, length, IfSome, IfOk};
ghost use Rattle.label.specs.Fields.{most_fields};
ghost use Rattle.pieces.specs.PieceTests.{piece_test};
ghost use Rattle.walk.specs.Cursors.{plain_row};
ghost use Rattle.sweeps.specs.Quick.{PassesTo, IfSo, BodySwept, StandsAt};
ghost use Rattle.sweeps.specs.Transport.{PiecesOf, LastOf, LastRight};

use crate::quick::notes::Notes;
use crate::quick::sweep::Sweep;
use label::{LEAST_FIELDS, Version};
use leaves::{GS, RS};
use pieces::Kind;
use sweeps::Unswept;
use walk::{Stage, standing_at};

// Whether there are enough fields and not too many, and past the fifth the last is not empty.
fn fields_right(version: Version, count: usize, size: usize) -> bool
    ensures { IfSo result (LastRight (most_fields version) count size) }
{
    (LEAST_FIELDS <= count)
        & (count <= limits::most_fields(version))
        & ((count == LEAST_FIELDS) | (size != 0))
}

// Whether so many pieces may end with one of a size. Of elements nothing is asked.
fn last_right(k: Kind, count: usize, size: usize) -> bool
    ensures { IfSo result (LastOf k count size) }
{
    match k {
        Kind::Fields(version) => fields_right(version, count, size),
        _ => true,
    }
}

impl Sweep<'_> {
    // The end of the piece of a kind, with an index.
    fn end_of(&self, k: Kind, i: usize, at: usize) -> Option<usize>
        requires { at < length self.now.message.now }
        ensures { IfSome result (PassesTo (piece_test k i) self.now.message.now at) }
    {
        match k {
            Kind::Fields(version) => self.field_end(version, i, at),
            Kind::Elements06 => self.end_of_06(at),
            _ => self.piece_end(k, i, at),
        }
    }

    // Pieces from an offset on, up to an RS: a turn takes a piece and the byte behind it, which is looked at before the piece is noted, as
    // the sweep still has it in hand.
    pub(crate) fn pieces<const N: usize>(
        &self,
        k: Kind,
        f: u32,
        start: usize,
        notes: &mut Notes<N>,
    ) -> Result<usize, Unswept>
        requires { PiecesOf k f × StandsAt self.now.message.now self.now.wanted start notes.old.rows notes.old.numbers (plain_row self.now.message.now Stage.Piece f start) }
        ensures { IfOk result (λ next. BodySwept self.now.message.now self.now.wanted.from k start notes.old.rows (record { next = next; rows = notes.new.rows }) notes.new.numbers) }
    {
        let m = self.message;
        let before = notes.rows;
        let mut at = start;
        notes.asked(self.wanted)?;
        loop {
            let end = self
                .end_of(k, notes.rows - before, at)
                .ok_or(Unswept::Left)?;
            let b = m[end];
            let size = end - at;
            notes.put(self.wanted, standing_at(Stage::Piece, f, at, size));
            if b == RS && last_right(k, notes.rows - before, size) {
                return Ok(end + 1);
            }
            if b != GS {
                return Err(Unswept::Left);
            }
            notes.asked(self.wanted)?;
            at = end + 1;
        }
    }
}
