// Where in a message a row is to stand, and the row that stands there. Every method takes every place, past the message's end too.
ghost use Rattle.std.specs.Prelude.{◌≡◌, drop, get_or};
ghost use Rattle.label.specs.Formats.{widest, rule_of};
ghost use Rattle.walk.specs.Cursors.{ahead, plain_run, standing, plain_row, text_row, rest_row, opening, after_piece, after_segment, after_sub_element};

use crate::indicator::{byte_at, indicator_at};
use formats::{Shape, shape_of};
use label::RELEASE_LENGTH;
use leaves::{Class, GS, RS, US};
use walk::{Cursor, Stage, standing_at};

// An offset of a message, in an envelope of a format.
#[derive(Clone, Copy)]
pub(crate) struct Place<'a> {
    pub message: &'a [u8],
    pub format: u32,
    pub at: usize,
}

impl<'a> Place<'a> {
    // The place so many bytes further, or the message's end where that comes first.
    pub(crate) fn ahead(self, n: usize) -> Place<'a>
        ensures message { result.message.now ≡ self.entry.message.now }
        ensures format { result.format ≡ self.entry.format }
        ensures at { result.at ≡ ahead self.entry.message.now self.entry.at n }
    {
        Place {
            at: self.at + n.min(self.message.len().saturating_sub(self.at)),
            ..self
        }
    }

    // The byte there; 0 where there is none.
    fn byte(self) -> u8
        ensures { result ≡ get_or self.entry.message.now self.entry.at 0 }
    {
        byte_at(self.message, self.at)
    }

    // How many plain bytes stand from there on.
    fn plain_run(self) -> usize
        ensures { result ≡ plain_run (drop self.entry.at self.entry.message.now) }
    {
        self.message
            .get(self.at..)
            .unwrap_or(&[])
            .iter()
            .take_while(|b| leaves::in_class(Class::Plain, **b))
            .count()
    }

    // A row of a length.
    pub(crate) fn row(self, stage: Stage, n: usize) -> Cursor
        ensures { result ≡ standing stage self.entry.format self.entry.at n }
    {
        standing_at(stage, self.format, self.at, n)
    }

    // A row of plain bytes.
    #[tactic(auto, unfolding(walk::specs::Cursors::plain_row))]
    pub(crate) fn plain(self, stage: Stage) -> Cursor
        ensures { result ≡ plain_row self.entry.message.now stage self.entry.format self.entry.at }
    {
        self.row(stage, self.plain_run())
    }

    // The body of format 07, to the next RS.
    fn text(self) -> Cursor
        ensures { result ≡ text_row self.entry.message.now self.entry.format self.entry.at }
    {
        let end = leaves::find_far(self.message, self.at, RS);
        self.row(Stage::Body, end - self.at)
    }

    // The body of format 02, to the message's end.
    fn rest(self) -> Cursor
        ensures { result ≡ rest_row self.entry.message.now self.entry.format self.entry.at }
    {
        self.row(Stage::Body, self.message.len().saturating_sub(self.at))
    }

    // The first row behind an indicator.
    #[tactic(auto, unfolding(walk::specs::Cursors::opening))]
    pub(crate) fn opening(self) -> Cursor
        ensures { result ≡ opening self.entry.message.now self.entry.format self.entry.at (rule_of widest self.entry.format) }
    {
        let behind = self.ahead(1);
        match shape_of(self.format as usize) {
            Shape::Fields => behind.row(Stage::VersionValue, 2),
            Shape::Rest => self.rest(),
            Shape::Segments03 | Shape::Segments04 => self.row(Stage::ReleaseValue, RELEASE_LENGTH),
            Shape::Elements05 | Shape::Elements06 | Shape::Elements12 => behind.plain(Stage::Piece),
            Shape::Text => self.text(),
            Shape::Counted => behind.plain(Stage::TypeValue),
            Shape::CountOnly => self.plain(Stage::CountValue),
            Shape::Unknown => self.row(Stage::Body, 0),
        }
    }

    // The row behind a field of 01 or an element of 05, 06 or 12.
    #[tactic(auto, unfolding(walk::specs::Cursors::after_piece))]
    pub(crate) fn after_piece(self) -> Cursor
        ensures { result ≡ after_piece self.entry.message.now self.entry.format self.entry.at }
    {
        let behind = self.ahead(1);
        if self.byte() == GS {
            return behind.plain(Stage::Piece);
        }
        indicator_at(behind.message, behind.at)
    }

    // The row behind a segment.
    #[tactic(auto, unfolding(walk::specs::Cursors::after_segment))]
    fn after_segment(self) -> Cursor
        ensures { result ≡ after_segment self.entry.message.now self.entry.format self.entry.at }
    {
        if self.byte() == RS {
            let behind = self.ahead(1);
            return indicator_at(behind.message, behind.at);
        }
        self.plain(Stage::Tag)
    }

    // The row behind a tag or a sub-element.
    #[tactic(auto, unfolding(walk::specs::Cursors::after_sub_element))]
    pub(crate) fn after_sub_element(self) -> Cursor
        ensures { result ≡ after_sub_element self.entry.message.now self.entry.format self.entry.at }
    {
        let behind = self.ahead(1);
        match self.byte() {
            US => behind.plain(Stage::FurtherSubElement),
            GS => behind.plain(Stage::LaterElement),
            _ => behind.after_segment(),
        }
    }
}
