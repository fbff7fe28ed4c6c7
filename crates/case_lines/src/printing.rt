// The lines that are printed.
use std::fmt::Display;
use std::io;
use std::io::Print;

// A list of more bytes is shown by its CRC-32.
const MOST_SHOWN: usize = 2000;

// A text and numbers, on a line.
pub fn show_numbers<T: Copy + Display>(rt: &impl Print, text: &str, list: &[T]) -> io::Result<()> {
    print!(rt; "{text}")?;
    for number in list {
        print!(rt; " {number}")?;
    }
    println!(rt; "")
}

// A text and numbers as runs of equal ones, on a line: 3x0 stands for three times 0.
pub fn show_runs<T: Copy + Display + PartialEq>(
    rt: &impl Print,
    text: &str,
    list: &[T],
) -> io::Result<()> {
    print!(rt; "{text}")?;
    for run in list.chunk_by(|a, b| a == b) {
        print!(rt; " {}x{}", run.len(), run[0])?;
    }
    println!(rt; "")
}

// One bit of a CRC-32.
fn shifted(x: u32) -> u32 {
    if x & 1 == 1 {
        (x >> 1) ^ 0xedb8_8320
    } else {
        x >> 1
    }
}

fn with_byte(remainder: u32, byte: u8) -> u32 {
    (0..8).fold(remainder ^ u32::from(byte), |x, _| shifted(x))
}

fn checksum(list: &[u8]) -> u32 {
    !list
        .iter()
        .fold(u32::MAX, |remainder, byte| with_byte(remainder, *byte))
}

// A text and bytes, as runs of equal ones, or by their CRC-32 where there are many, on a line.
pub fn show_bytes(rt: &impl Print, text: &str, list: &[u8]) -> io::Result<()> {
    if MOST_SHOWN < list.len() {
        return println!(rt; "{text} crc32 {}", checksum(list));
    }
    show_runs(rt, text, list)
}
