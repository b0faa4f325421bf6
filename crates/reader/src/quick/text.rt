// The quick path over format 07: text up to an RS.
ghost use Rattle.std.specs.Prelude.{IfOk};
ghost use Rattle.label.specs.Formats.{widest, rule_of};
ghost use Rattle.walk.specs.Cursors.{opening};
ghost use Rattle.sweeps.specs.Quick.{FormatSwept, StandsAt};

use crate::quick::notes::Notes;
use crate::quick::sweep::Sweep;
use leaves::{Class, RS};
use sweeps::Unswept;
use walk::{Stage, standing_at};

impl Sweep<'_> {
    // 07: text up to an RS.
    pub(crate) fn text<const N: usize>(
        &self,
        at: usize,
        notes: &mut Notes<N>,
    ) -> Result<usize, Unswept>
        requires { StandsAt self.now.message.now self.now.wanted at notes.old.rows notes.old.numbers (opening self.now.message.now 7 at (rule_of widest 7)) }
        ensures { IfOk result (λ next. FormatSwept self.now.message.now self.now.wanted.from 7 at notes.old.rows (record { next = next; rows = notes.new.rows }) notes.new.numbers) }
    {
        notes.asked(self.wanted)?;
        let m = self.message;
        let end = leaves::find_far(m, at, RS);
        if m.len() <= end {
            return Err(Unswept::Left);
        }
        if !leaves::all_in(Class::TextByte, &m[at..end]) {
            return Err(Unswept::Left);
        }
        notes.put(self.wanted, standing_at(Stage::Body, 7, at, end - at));
        Ok(end + 1)
    }
}
