// The quick path over formats 05, 06 and 12: GS, then elements up to an RS.
ghost use Rattle.std.specs.Prelude.{◌≡◌, ◌+◌, ◌<◌, length, drop, IfSome, IfOk};
ghost use Rattle.label.specs.Elements.{element06};
ghost use Rattle.label.specs.Formats.{widest, rule_of};
ghost use Rattle.walk.specs.Cursors.{opening};
ghost use Rattle.sweeps.specs.Quick.{PassesTo, digit_run, ElementsOf, FormatSwept, StandsAt};

use crate::quick::notes::Notes;
use crate::quick::sweep::Sweep;
use leaves::{Class, GS};
use pieces::{Kind, MOST_DIGITS};
use sweeps::Unswept;

impl Sweep<'_> {
    // Behind at most three digits.
    fn behind_digits(&self, at: usize) -> usize
        requires { at < length self.now.message.now }
        ensures { (result ≡ at + digit_run 3 (drop at self.now.message.now)) × (result < length self.now.message.now) }
    {
        let digits = self.message[at..]
            .iter()
            .take(MOST_DIGITS)
            .take_while(|b| leaves::in_class(Class::Digit, **b))
            .count();
        at + digits
    }

    // The end of an element of 06: each byte is looked at once.
    pub(crate) fn end_of_06(&self, at: usize) -> Option<usize>
        requires { at < length self.now.message.now }
        ensures { IfSome result (PassesTo element06 self.now.message.now at) }
    {
        let capital = self.behind_digits(at);
        let b = self.message[capital];
        if !b.is_ascii_uppercase() {
            return None;
        }
        let end = self.run_end(Class::Plain, capital + 1);
        if end < capital + 2 {
            return None;
        }
        Some(end)
    }

    // 05, 06, 12: GS, then elements. The kind tells the format, as `ElementsOf` has it: to look it up is no plainer than to be given it.
    pub(crate) fn elements<const N: usize>(
        &self,
        k: Kind,
        f: u32,
        at: usize,
        notes: &mut Notes<N>,
    ) -> Result<usize, Unswept>
        requires { ElementsOf k f × StandsAt self.now.message.now self.now.wanted at notes.old.rows notes.old.numbers (opening self.now.message.now f at (rule_of widest f)) }
        ensures { IfOk result (λ next. FormatSwept self.now.message.now self.now.wanted.from f at notes.old.rows (record { next = next; rows = notes.new.rows }) notes.new.numbers) }
    {
        if self.message[at] != GS {
            return Err(Unswept::Left);
        }
        self.pieces(k, f, at + 1, notes)
    }
}
