// The quick path over formats 09 and 15: header values, each with its GS, then the payload and its RS. What it doesn't know at
// once it leaves, as all of the quick path does.
ghost use Rattle.std.specs.Prelude.{◌≡◌, ◌+◌, IfOk};
ghost use Rattle.label.specs.Formats.{widest, rule_of};
ghost use Rattle.envelope.specs.Formats.{compression_found};
ghost use Rattle.walk.specs.Cursors.{opening};
ghost use Rattle.sweeps.specs.Quick.{FormatSwept, StandsAt};
ghost use Rattle.sweeps.specs.Counted.{ValueDue, PlainBytes, ValueSwept, PartSwept, CountSwept};

use crate::quick::notes::Notes;
use crate::quick::sweep::Sweep;
use label::{LEAST_COMPRESSION, LEAST_COUNT, LEAST_TYPE, MOST_COMPRESSION, MOST_COUNT, MOST_TYPE};
use leaves::{Class, GS, RS};
use sweeps::{Unswept, Value};
use walk::{Stage, count_from, standing_at};

impl Sweep<'_> {
    // Goes over the row of a header value and answers the offset behind its GS. The compiler writes it and `payload` out where they are
    // called, as a call answers through memory: a reading of format 09 takes a fifth fewer instructions so (docs/PERFORMANCE.md, case d).
    #[inline(always)]
    fn value<const N: usize>(
        &self,
        v: Value,
        at: usize,
        notes: &mut Notes<N>,
    ) -> Result<usize, Unswept>
        requires { ValueDue self.now.message.now self.now.wanted v.format v.stage at notes.old.rows notes.old.numbers × PlainBytes v }
        ensures { IfOk result (λ next. (notes.new.rows ≡ notes.old.rows + 1) × ValueSwept self.now.message.now self.now.wanted.from v at notes.old.rows next notes.new.numbers) }
    {
        let m = self.message;
        let class = v.class;
        let stage = v.stage;
        let end = self.run_end(class, at);
        let size = end - at;
        if (size < v.least) | (v.most < size) {
            return Err(Unswept::Left);
        }
        if m[end] != GS {
            return Err(Unswept::Left);
        }
        notes.count(self.wanted, standing_at(stage, v.format, at, size))?;
        Ok(end + 1)
    }

    // The count and the payload of a format.
    #[inline(always)]
    fn payload<const N: usize>(
        &self,
        f: u32,
        count: usize,
        notes: &mut Notes<N>,
    ) -> Result<usize, Unswept>
        requires { ValueDue self.now.message.now self.now.wanted f Stage.CountValue count notes.old.rows notes.old.numbers }
        ensures { IfOk result (λ next. CountSwept self.now.message.now self.now.wanted.from count notes.old.rows (record { next = next; rows = notes.new.rows }) notes.new.numbers) }
    {
        let m = self.message;
        let v = Value {
            format: f,
            stage: Stage::CountValue,
            class: Class::Digit,
            least: LEAST_COUNT,
            most: MOST_COUNT,
        };
        let at = self.value(v, count, notes)?;
        let n = count_from(m, count);
        if m.len() - at <= n {
            return Err(Unswept::Left);
        }
        if m[at + n] != RS {
            return Err(Unswept::Left);
        }
        notes.count(self.wanted, standing_at(Stage::Body, f, at, n))?;
        Ok(at + n + 1)
    }

    // The compression, and what follows it.
    fn compression<const N: usize>(&self, at: usize, notes: &mut Notes<N>) -> Result<usize, Unswept>
        requires { ValueDue self.now.message.now self.now.wanted 9 Stage.CompressionValue at notes.old.rows notes.old.numbers }
        ensures { IfOk result (λ next. PartSwept self.now.message.now self.now.wanted.from (compression_found self.now.message.now at) 5 (notes.old.rows + 3) (record { next = next; rows = notes.new.rows }) notes.new.numbers) }
    {
        let v = Value {
            format: 9,
            stage: Stage::CompressionValue,
            class: Class::Plain,
            least: LEAST_COMPRESSION,
            most: MOST_COMPRESSION,
        };
        let count = self.value(v, at, notes)?;
        self.payload(9, count, notes)
    }

    // 09: GS, the type, and what follows it. There are four rows.
    pub(crate) fn counted<const N: usize>(
        &self,
        at: usize,
        notes: &mut Notes<N>,
    ) -> Result<usize, Unswept>
        requires { StandsAt self.now.message.now self.now.wanted at notes.old.rows notes.old.numbers (opening self.now.message.now 9 at (rule_of widest 9)) }
        ensures { IfOk result (λ next. FormatSwept self.now.message.now self.now.wanted.from 9 at notes.old.rows (record { next = next; rows = notes.new.rows }) notes.new.numbers) }
    {
        if self.message[at] != GS {
            return Err(Unswept::Left);
        }
        let v = Value {
            format: 9,
            stage: Stage::TypeValue,
            class: Class::Plain,
            least: LEAST_TYPE,
            most: MOST_TYPE,
        };
        let next = self.value(v, at + 1, notes)?;
        self.compression(next, notes)
    }

    // 15: the count right behind the indicator, and the payload. There are two rows.
    pub(crate) fn count_only<const N: usize>(
        &self,
        at: usize,
        notes: &mut Notes<N>,
    ) -> Result<usize, Unswept>
        requires { StandsAt self.now.message.now self.now.wanted at notes.old.rows notes.old.numbers (opening self.now.message.now 15 at (rule_of widest 15)) }
        ensures { IfOk result (λ next. FormatSwept self.now.message.now self.now.wanted.from 15 at notes.old.rows (record { next = next; rows = notes.new.rows }) notes.new.numbers) }
    {
        self.payload(15, at, notes)
    }
}
