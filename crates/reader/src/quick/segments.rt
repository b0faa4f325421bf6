// The quick path over formats 03 and 04: six bytes, FS GS US, then segments up to an RS. What it doesn't know at once it leaves,
// as all of the quick path does. So it leaves `BIN`, which only 04 takes as a tag, and asks the same of the tags of both.
ghost use Rattle.std.specs.Prelude.{◌≡◌, ◌≤◌, ◌<◌, length, IfSome, IfOk};
ghost use Rattle.label.specs.Formats.{widest, rule_of};
ghost use Rattle.walk.specs.Cursors.{plain_row, opening, after_sub_element};
ghost use Rattle.sweeps.specs.Quick.{BodySwept, FormatSwept, StandsAt};
ghost use Rattle.sweeps.specs.Segments.{stage_behind, segments_kind, TagTo, SegmentsDue, LaterSwept, SegmentSwept};

use crate::quick::notes::Notes;
use crate::quick::sweep::Sweep;
use label::RELEASE_LENGTH;
use leaves::{Class, FS, GS, RS, US};
use pieces::Kind;
use sweeps::Unswept;
use walk::{Stage, standing_at};

// What the row behind a GS or a US is.
fn stage_behind(b: u8) -> Stage
    ensures { result ≡ stage_behind b }
{
    if b == US {
        Stage::FurtherSubElement
    } else {
        Stage::LaterElement
    }
}

impl Sweep<'_> {
    // The end of a tag that has GS or FS behind it.
    fn tag_end(&self, at: usize) -> Option<usize>
        requires { at < length self.now.message.now }
        ensures { IfSome result (TagTo self.now.message.now at) }
    {
        let end = self.piece_end(Kind::Segments03, 0, at)?;
        let b = self.message[end];
        if (b != GS) & (b != FS) {
            return None;
        }
        Some(end)
    }

    // The rows behind a tag, from its end up to the segment's FS: a turn takes a GS or a US and the plain bytes behind it.
    fn later<const N: usize>(
        &self,
        f: u32,
        start: usize,
        notes: &mut Notes<N>,
    ) -> Result<usize, Unswept>
        requires { SegmentsDue self.now.message.now self.now.wanted f start notes.old.rows notes.old.numbers (after_sub_element self.now.message.now f start) }
        ensures { IfOk result (λ next. LaterSwept self.now.message.now self.now.wanted.from f start notes.old.rows (record { next = next; rows = notes.new.rows }) notes.new.numbers) }
    {
        let m = self.message;
        let mut end = start;
        let mut b = m[end];
        loop {
            if b == FS {
                return Ok(end + 1);
            }
            if (b != GS) & (b != US) {
                return Err(Unswept::Left);
            }
            notes.asked(self.wanted)?;
            let at = end + 1;
            end = self.run_end(Class::Plain, at);
            let behind = m[end];
            notes.put(self.wanted, standing_at(stage_behind(b), f, at, end - at));
            b = behind;
        }
    }

    // A segment: its tag, and the rows behind it.
    fn segment<const N: usize>(
        &self,
        f: u32,
        at: usize,
        notes: &mut Notes<N>,
    ) -> Result<usize, Unswept>
        requires { SegmentsDue self.now.message.now self.now.wanted f at notes.old.rows notes.old.numbers (plain_row self.now.message.now Stage.Tag f at) }
        ensures { IfOk result (λ next. SegmentSwept self.now.message.now self.now.wanted.from f at notes.old.rows (record { next = next; rows = notes.new.rows }) notes.new.numbers) }
    {
        notes.asked(self.wanted)?;
        let end = self.tag_end(at).ok_or(Unswept::Left)?;
        notes.put(self.wanted, standing_at(Stage::Tag, f, at, end - at));
        self.later(f, end, notes)
    }

    // Segments from an offset on, up to an RS: a turn takes a segment.
    fn body<const N: usize>(
        &self,
        f: u32,
        start: usize,
        notes: &mut Notes<N>,
    ) -> Result<usize, Unswept>
        requires { SegmentsDue self.now.message.now self.now.wanted f start notes.old.rows notes.old.numbers (plain_row self.now.message.now Stage.Tag f start) }
        ensures { IfOk result (λ next. BodySwept self.now.message.now self.now.wanted.from (segments_kind f) start notes.old.rows (record { next = next; rows = notes.new.rows }) notes.new.numbers) }
    {
        let mut at = start;
        loop {
            at = self.segment(f, at, notes)?;
            if self.message[at] == RS {
                return Ok(at + 1);
            }
        }
    }

    // 03, 04: six bytes, FS GS US, then segments.
    pub(crate) fn segments<const N: usize>(
        &self,
        f: u32,
        at: usize,
        notes: &mut Notes<N>,
    ) -> Result<usize, Unswept>
        requires { ((3 ≤ f) × (f ≤ 4)) × StandsAt self.now.message.now self.now.wanted at notes.old.rows notes.old.numbers (opening self.now.message.now f at (rule_of widest f)) }
        ensures { IfOk result (λ next. FormatSwept self.now.message.now self.now.wanted.from f at notes.old.rows (record { next = next; rows = notes.new.rows }) notes.new.numbers) }
    {
        let m = self.message;
        if m.len() - at < RELEASE_LENGTH + 4 {
            return Err(Unswept::Left);
        }
        let after = at + RELEASE_LENGTH;
        if !leaves::all_in(Class::CapitalOrDigit, &m[at..after]) {
            return Err(Unswept::Left);
        }
        if tallies::agree(m, after, b"\x1C\x1D\x1F") != 3 {
            return Err(Unswept::Left);
        }
        notes.count(
            self.wanted,
            standing_at(Stage::ReleaseValue, f, at, RELEASE_LENGTH),
        )?;
        self.body(f, after + 3, notes)
    }
}
