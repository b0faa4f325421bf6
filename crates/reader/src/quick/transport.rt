// The quick path over format 01: GS, the version, then fields, each by its number. What it doesn't know at once it leaves, as
// all of the quick path does.
ghost use Rattle.std.specs.Prelude.{◌≡◌, true, ◌<◌, length, IfSome, IfOk};
ghost use Rattle.label.specs.Formats.{widest, rule_of};
ghost use Rattle.label.specs.Fields.{field};
ghost use Rattle.walk.specs.Cursors.{opening};
ghost use Rattle.sweeps.specs.Quick.{PassesTo, FormatSwept, StandsAt};
ghost use Rattle.sweeps.specs.Transport.{fits_in};

use crate::quick::notes::Notes;
use crate::quick::sweep::Sweep;
use label::{HEADER_LENGTH, LEAST_FIELDS, Version};
use leaves::{Class, GS};
use pieces::Kind;
use sweeps::Unswept;
use walk::{Stage, standing_at};

// Where the format's indicator ends: 01 is allowed only as the first envelope.
const FIRST: usize = HEADER_LENGTH + 2;

// Behind it stand GS, the version and a byte at least.
const SHORTEST: usize = FIRST + 4;

// Whether so many bytes are a field's length in a version; a later one may have none.
fn in_limits(version: Version, i: usize, size: usize) -> bool
    ensures { result ≡ fits_in version i size }
{
    limits::fits(version, i, size) | ((LEAST_FIELDS <= i) & (size == 0))
}

impl Sweep<'_> {
    // The end of the field with an index. Five fields have a rule for their bytes, which `pieces` knows; of the others only the length is
    // asked, as their bytes are plain.
    pub(crate) fn field_end(&self, version: Version, i: usize, at: usize) -> Option<usize>
        requires { at < length self.now.message.now }
        ensures { IfSome result (PassesTo (field version i) self.now.message.now at) }
    {
        if (i == 8) | (i == 9) | (i == 10) | (i == 1) | (i == 6) {
            return self.piece_end(Kind::Fields(version), i, at);
        }
        let end = self.run_end(Class::Plain, at);
        if in_limits(version, i, end - at) {
            return Some(end);
        }
        None
    }

    // 01: GS, the version, then fields.
    pub(crate) fn transport<const N: usize>(
        &self,
        at: usize,
        notes: &mut Notes<N>,
    ) -> Result<usize, Unswept>
        requires { StandsAt self.now.message.now self.now.wanted at notes.old.rows notes.old.numbers (opening self.now.message.now 1 at (rule_of widest 1)) }
        ensures { IfOk result (λ next. FormatSwept self.now.message.now self.now.wanted.from 1 at notes.old.rows (record { next = next; rows = notes.new.rows }) notes.new.numbers) }
    {
        let m = self.message;
        if (at != FIRST) | (m.len() < SHORTEST) {
            return Err(Unswept::Left);
        }
        if m[at] != GS {
            return Err(Unswept::Left);
        }
        let version = match (m[at + 1], m[at + 2]) {
            (b'0', b'2') => Version::Version02,
            (b'9', b'6') => Version::Version96,
            _ => return Err(Unswept::Left),
        };
        notes.count(self.wanted, standing_at(Stage::VersionValue, 1, at + 1, 2))?;
        self.pieces(Kind::Fields(version), 1, at + 3, notes)
    }
}
