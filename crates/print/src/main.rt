// Prints the reading of the message on standard input, as document 01 has it under 'Cartons to try', in the edition of 2005
// (02, No. 3). One byte more than a message may have is enough to see that it is too long.
#![tactic(auto)]

use label::{Edition, LONGEST, TABLE};
use std::io;

const TOO_LONG: usize = LONGEST + 1;

fn main(rt: HostRuntime) -> io::Result<()> {
    let mut message = [0u8; TOO_LONG];
    let length = report::read_full(&mut rt.stdin(), &mut message)?;
    let mut table = [0u32; TABLE];
    let reading = reader::read(Edition::Edition2005, &message[..length], &mut table);
    report::print_reading(&mut rt.stdout(), reading, &table)
}
