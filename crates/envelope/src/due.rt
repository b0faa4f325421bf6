// Where in a message something is due.
ghost use Rattle.std.specs.Prelude.{◌≡◌, ◌+◌, ◌-◌, ◌<◌, ◌≤◌, length, take, drop, IsTrue};
ghost use Rattle.envelope.specs.Formats.{begins_at};

// A place in a message, or its end.
#[derive(Clone, Copy)]
pub(crate) struct Due<'a> {
    pub message: &'a [u8],
    pub at: usize,
    ghost inside: { at ≤ length message.now },
}

impl<'a> Due<'a> {
    // What the message has from there on.
    pub(crate) fn rest(self) -> &'a [u8]
        ensures { result.now ≡ drop self.entry.at self.entry.message.now }
    {
        &self.message[self.at..]
    }

    // What it has up to an offset.
    pub(crate) fn to(self, end: usize) -> &'a [u8]
        requires { (self.at ≤ end) × (end ≤ length self.message.now) }
        ensures { result.now ≡ take (end - self.entry.at) (drop self.entry.at self.entry.message.now) }
    {
        &self.message[self.at..end]
    }

    // Whether a text stands there.
    #[tactic(auto, using(crate::proofs::ValueLaws::begins_text))]
    pub(crate) fn begins(self, text: &[u8]) -> bool
        ensures tells { result ≡ begins_at text.now self.entry.message.now self.entry.at }
        ensures fits { IsTrue result → self.entry.at + length text.now ≤ length self.entry.message.now }
    {
        self.rest().starts_with(text)
    }

    // The place some bytes further on.
    pub(crate) fn ahead(self, n: usize) -> Due<'a>
        requires { self.at + n ≤ length self.message.now }
        ensures same { result.message.now ≡ self.entry.message.now }
        ensures further { result.at ≡ self.entry.at + n }
    {
        Due {
            message: self.message,
            at: self.at + n,
        }
    }

    // The place behind the byte at an offset.
    pub(crate) fn behind(self, end: usize) -> Due<'a>
        requires { end < length self.message.now }
        ensures same { result.message.now ≡ self.entry.message.now }
        ensures next { result.at ≡ end + 1 }
    {
        Due {
            message: self.message,
            at: end + 1,
        }
    }
}
