// Reads a slip from standard input and prints its sheet.
#![tactic(auto)]

use sheet_output::{SLIP_BYTES, print_sheet};
use std::io;

fn main(rt: HostRuntime) -> io::Result<()> {
    print_sheet(&rt, SLIP_BYTES)
}
