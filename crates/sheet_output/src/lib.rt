// Reads a slip from standard input and writes its sheet to standard output.
#![tactic(auto)]

ghost use Rattle.std.specs.Io.{ReadsAtMost};

use std::io;
use std::io::{Input, Print, Read};
use text::SHEET_BYTES;

// More than any slip that is accepted has: 60,060 bytes are the most. Of a longer input the sheet depends on the bytes
// that are read alone: one of 13 and 1 to 4 refuses both, or 14 does (`cut_alike` in the printer's proofs).
pub const SLIP_BYTES: usize = 65536;

// The next bytes to the front of the slip, until it is full or they end: how many there are. A pipe may give fewer at
// a time than there is room for, though more come.
fn fill(reader: &mut impl Read, slip: &mut [u8]) -> io::Result<usize>
    ensures { ReadsAtMost result slip.new }
{
    // No `for`: a turn goes on by as many bytes as the reader gives.
    let mut length = 0;
    while length < slip.len() {
        let count = reader.read(&mut slip[length..])?;
        if count == 0 {
            break;
        }
        length += count;
    }
    Ok(length)
}

// The sheet of the slip that the next bytes of standard input are, so many or as many as there are. The buffer is here
// and nowhere else, for the kiosk and for the program of the stored slips alike. Nothing can be said of what is read
// and printed.
pub fn print_sheet(rt: &(impl Input + Print), most: usize) -> io::Result<()> {
    let mut slip = [0u8; SLIP_BYTES];
    let mut sheet = [0u8; SHEET_BYTES];
    let length = fill(&mut rt.reader(), &mut slip[..most.min(SLIP_BYTES)])?;
    let written = printer::print(&slip[..length], &mut sheet);
    rt.write_all(&sheet[..written])
}
