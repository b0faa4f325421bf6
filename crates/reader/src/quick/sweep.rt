// What is swept.
ghost use Rattle.sweeps.specs.Quick.{Framed};

use label::Edition;
use sweeps::Wanted;

// A message that ends with EOT, the edition that it is read in, and which of its rows are wanted. Each method goes on from an offset: it
// answers where what it looks for ends, or notes the rows that it goes over and answers the offset behind them.
// The notes are no field: by `&mut self` each method would have to promise that it leaves the message alone. Nor is an offset, though eight
// methods ask that it lie in the message: most hand it on with no test, and a type for it would be made anew at each, which is no plainer.
#[derive(Clone, Copy)]
pub(crate) struct Sweep<'a> {
    pub(crate) edition: Edition,
    pub(crate) message: &'a [u8],
    pub(crate) wanted: Wanted,
    ghost framed: { Framed message.now },
}
