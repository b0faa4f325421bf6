// The quick path over a whole message: its frame, then an envelope a turn, each by its format.
ghost use Rattle.std.specs.Prelude.{◌≡◌, ◌+◌, ◌≤◌, ◌<◌, length, IfSome, IfOk};
ghost use Rattle.label.specs.Limits.{most_rows};
ghost use Rattle.label.specs.Formats.{widest, rule_of};
ghost use Rattle.walk.specs.Cursors.{indicator_at, opening};
ghost use Rattle.sweeps.specs.Quick.{Indicates, KnownSwept, EnvelopeSwept, IfSo, Headed, EndsSo, SweptSo, StandsAt};

use crate::quick::notes::Notes;
use crate::quick::sweep::Sweep;
use formats::{Shape, shape_in};
use label::{Counts, Edition, HEADER_LENGTH, LONGEST};
use leaves::EOT;
use pieces::Kind;
use sweeps::{Unswept, Wanted};
use walk::{Stage, standing_at};

impl Sweep<'_> {
    // The number of an indicator of a format that is swept, 00 to 19, if one stands there. Behind a digit there is more, as the message
    // ends with EOT.
    fn format_at(&self, at: usize) -> Option<u32>
        requires { at + 1 < length self.now.message.now }
        ensures { IfSome result (Indicates self.now.message.now at) }
    {
        let m = self.message;
        let tens = m[at];
        let units = m[at + 1];
        let unit = u32::from(leaves::digit(units)?);
        match tens {
            b'0' => Some(unit),
            b'1' => Some(10 + unit),
            _ => None,
        }
    }

    // The format with a number, behind its indicator, by the shape that its edition gives it.
    fn format<const N: usize>(
        &self,
        f: u32,
        at: usize,
        notes: &mut Notes<N>,
    ) -> Result<usize, Unswept>
        requires { StandsAt self.now.message.now self.now.wanted at notes.old.rows notes.old.numbers (opening self.now.message.now f at (rule_of widest f)) }
        ensures { IfOk result (λ next. KnownSwept self.now.edition self.now.message.now self.now.wanted.from f at notes.old.rows (record { next = next; rows = notes.new.rows }) notes.new.numbers) }
    {
        let shape = shape_in(self.edition, f as usize);
        match shape {
            Shape::Fields => self.transport(at, notes),
            Shape::Segments03 => self.segments(3, at, notes),
            Shape::Segments04 => self.segments(4, at, notes),
            Shape::Elements05 => self.elements(Kind::Elements05, 5, at, notes),
            Shape::Elements06 => self.elements(Kind::Elements06, 6, at, notes),
            Shape::Text => self.text(at, notes),
            Shape::Counted => self.counted(at, notes),
            Shape::Elements12 => self.elements(Kind::Elements12, 12, at, notes),
            Shape::CountOnly => self.count_only(at, notes),
            _ => Err(Unswept::Left),
        }
    }

    // An envelope: its indicator and its format.
    fn envelope<const N: usize>(&self, at: usize, notes: &mut Notes<N>) -> Result<usize, Unswept>
        requires { StandsAt self.now.message.now self.now.wanted at notes.old.rows notes.old.numbers (indicator_at self.now.message.now at) × (at + 1 < length self.now.message.now) }
        ensures { IfOk result (λ next. EnvelopeSwept self.now.edition self.now.message.now self.now.wanted.from at notes.old.rows (record { next = next; rows = notes.new.rows }) notes.new.numbers) }
    {
        let f = self.format_at(at).ok_or(Unswept::Left)?;
        notes.count(self.wanted, standing_at(Stage::Indicator, f, at, 2))?;
        self.format(f, at + 2, notes)
    }

    // At an EOT behind the last envelope: good if it is the message's last byte.
    fn ended(&self, at: usize, counts: Counts) -> Result<Counts, Unswept>
        requires { at < length self.now.message.now }
        ensures { EndsSo self.now.message.now at counts self.now.wanted.most result }
    {
        if (self.wanted.most < counts.rows) | (self.message.len() - at != 1) {
            return Err(Unswept::Left);
        }
        Ok(counts)
    }

    // The whole message, an envelope a turn.
    fn envelopes<const N: usize>(&self, notes: &mut Notes<N>) -> Result<Counts, Unswept>
        requires { ((self.now.wanted.most ≤ most_rows) × (notes.old.rows ≡ 0)) × Headed self.now.message.now }
        ensures { SweptSo self.now.edition self.now.message.now self.now.wanted notes.new.numbers result }
    {
        let m = self.message;
        let mut at = HEADER_LENGTH;
        let mut envelopes = 0;
        loop {
            at = self.envelope(at, notes)?;
            envelopes += 1;
            if m[at] == EOT {
                let rows = notes.rows;
                return self.ended(at, Counts { envelopes, rows });
            }
        }
    }
}

// Whether a message is short enough, begins with its header and ends with EOT, with a byte between them at least. Others aren't swept.
pub(crate) fn framed(m: &[u8]) -> bool
    ensures { IfSo result (Headed m.now) }
{
    if m.len() <= HEADER_LENGTH + 1 {
        return false;
    }
    if LONGEST < m.len() {
        return false;
    }
    tallies::is_headed(m) & (m[m.len() - 1] == EOT)
}

// Sweeps a whole message that is framed, in an edition. The rows that are wanted are in the notes where it is swept.
pub(crate) fn sweep<const N: usize>(
    edition: Edition,
    message: &[u8],
    wanted: Wanted,
    notes: &mut Notes<N>,
) -> Result<Counts, Unswept>
    requires { ((wanted.most ≤ most_rows) × (notes.old.rows ≡ 0)) × Headed message.now }
    ensures { SweptSo edition message.now wanted notes.new.numbers result }
{
    let swept = Sweep {
        edition,
        message,
        wanted,
    };
    swept.envelopes(notes)
}
