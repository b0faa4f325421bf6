// Where a run of bytes of a class ends, and where a piece does that `pieces` takes.
ghost use Rattle.std.specs.Prelude.{◌≡◌, false, ◌<◌, length, IfSome};
ghost use Rattle.label.specs.Bytes.{EOT as endByte};
ghost use Rattle.leaves.specs.Classes.{class_of};
ghost use Rattle.pieces.specs.PieceTests.{piece_test};
ghost use Rattle.sweeps.specs.Quick.{RunsTo, PassesTo};

use crate::quick::sweep::Sweep;
use leaves::Class;
use pieces::Kind;

impl Sweep<'_> {
    // Where a run of bytes of a class ends. The message's EOT is of no such class, so that no end is asked for. By `take_while`
    // and `count` case e of the benchmark misses its bar (docs/PERFORMANCE.md); `position` and `for` have an end that can't be reached, and
    // so are no plainer.
    pub(crate) fn run_end(&self, k: Class, at: usize) -> usize
        requires { (class_of k endByte ≡ false) × (at < length self.now.message.now) }
        ensures { RunsTo (class_of k) self.now.message.now at result }
    {
        let m = self.message;
        let mut i = at;
        while leaves::in_class(k, m[i]) {
            i += 1;
        }
        i
    }

    // The end of the piece of a kind, with an index: the plain bytes from an offset on, if they are as `pieces` asks.
    pub(crate) fn piece_end(&self, k: Kind, i: usize, at: usize) -> Option<usize>
        requires { at < length self.now.message.now }
        ensures { IfSome result (PassesTo (piece_test k i) self.now.message.now at) }
    {
        let end = self.run_end(Class::Plain, at);
        if pieces::piece_holds(k, i, &self.message[at..end]) {
            Some(end)
        } else {
            None
        }
    }
}
