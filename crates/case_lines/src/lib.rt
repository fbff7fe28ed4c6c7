// What the programs of the stored cases read from standard input, and the lines that they print. A number has 64 bits,
// little-endian; a list is its length and then its bytes, or its numbers of 16 bits. No contract can speak of what is
// read or printed, so those here say of a count that it lies within its list, and the functions that print say nothing.
#![tactic(auto)]

ghost use Rattle.std.specs.Prelude.{◌≡◌, ◌≤◌, length, take, IfOk};
ghost use Rattle.std.specs.Io.{ReadsAtMost};
ghost use Rattle.std.specs.Counts.{IsPrefixLen};

mod printing;

pub use printing::{show_bytes, show_numbers, show_runs};
use std::io;
use std::io::{ErrorKind, Input, Print, Read};

// The next bytes, as many as the list has. Where the input ends before, the rest of the list is what the reader left.
fn fill(rt: &impl Input, list: &mut [u8]) -> io::Result<()> {
    match rt.reader().read_exact(list) {
        Err(error) if error.kind() == ErrorKind::UnexpectedEof => Ok(()),
        read => read,
    }
}

// The next number.
pub fn number(rt: &impl Input) -> io::Result<u64> {
    let mut eight = [0u8; 8];
    fill(rt, &mut eight)?;
    Ok(u64::from_le_bytes(eight))
}

// A length, or the list's where that is less.
pub fn within(length: usize, list: &[u8]) -> usize
    ensures { IsPrefixLen result list.now }
{
    length.min(list.len())
}

// The next number as a length within the list. An error leaves nothing but itself, since the list is only looked at.
pub fn room<T>(rt: &impl Input, list: &[T]) -> io::Result<usize>
    ensures { IfOk result (λ n. (n ≤ length list.now) × (n ≡ length (take n list.now))) }
{
    Ok(list.len().min(number(rt)? as usize))
}

// The next list, of bytes, to the front of the one lent: how many it has. After an error the list lent has its length,
// and nothing is said of its bytes.
pub fn bytes(rt: &impl Input, list: &mut [u8]) -> io::Result<usize>
    ensures count { ReadsAtMost result list.new }
    ensures long { length list.new ≡ length list.old }
{
    let count = room(rt, list)?;
    fill(rt, &mut list[..count])?;
    Ok(count)
}

fn word(rt: &impl Input) -> io::Result<u16> {
    let mut pair = [0u8; 2];
    fill(rt, &mut pair)?;
    Ok(u16::from_le_bytes(pair))
}

// The next list, of numbers of 16 bits, with what is said of one of bytes.
pub fn words(rt: &impl Input, list: &mut [u16]) -> io::Result<usize>
    ensures count { ReadsAtMost result list.new }
    ensures long { length list.new ≡ length list.old }
{
    let count = room(rt, list)?;
    for entry in &mut list[..count] {
        *entry = word(rt)?;
    }
    Ok(count)
}

// The line that names a case: the next list, printed.
pub fn name(rt: &(impl Input + Print)) -> io::Result<()> {
    let mut text = [0u8; 128];
    let length = bytes(rt, &mut text)?;
    rt.write_all(&text[..length])
}
