// Bytes, decimal numbers and lines of a word and a number. Only the sheet calls these functions: each writes into the
// lent buffer from a position on, for which there is room, and returns the position behind what it wrote.
#![tactic(auto)]

ghost use Rattle.std.specs.Prelude.{◌≡◌, [], ◌∷◌, ◌+◌, ◌≤◌, ◌<◌, length};
ghost use Rattle.text.specs.Decimal.{decimal as decimal_of};
ghost use Rattle.text.specs.Part.{Part};
ghost use Rattle.text.specs.Line.{line, spaced as spaced_of};

// The room that a sheet is lent; none has more bytes.
pub const SHEET_BYTES: usize = 4096;

// One byte.
pub fn byte(out: &mut [u8; SHEET_BYTES], at: usize, b: u8) -> usize
    requires { at < 4096 }
    ensures { Part (b ∷ []) out.old out.new at result }
{
    out[at] = b;
    at + 1
}

// The bytes of a word. It takes a slice because lending the array as one tells the caller the array's length.
pub fn text(out: &mut [u8], at: usize, bytes: &[u8]) -> usize
    requires { at + length bytes.now ≤ length out.old }
    ensures { Part bytes.now out.old out.new at result }
{
    out[at..at + bytes.len()].copy_from_slice(bytes);
    at + bytes.len()
}

// The digits of a number. It calls itself for those before the last, so it is at most 20 deep.
pub fn decimal(out: &mut [u8; SHEET_BYTES], at: usize, n: u64) -> usize
    requires { at ≤ 4050 }
    ensures { Part (decimal_of n) out.old out.new at result × (result ≤ at + 20) }
{
    let digit = 48 + (n % 10) as u8;
    if n < 10 {
        byte(out, at, digit)
    } else {
        let next = decimal(out, at, n / 10);
        byte(out, next, digit)
    }
}

// A number behind a blank.
pub fn spaced(out: &mut [u8; SHEET_BYTES], at: usize, n: u64) -> usize
    requires { at ≤ 4000 }
    ensures { Part (spaced_of n) out.old out.new at result × (result ≤ at + 21) }
{
    let next = byte(out, at, b' ');
    decimal(out, next, n)
}

// A line of a word and a number.
pub fn labelled(out: &mut [u8; SHEET_BYTES], at: usize, word: &[u8], n: u64) -> usize
    requires { (at ≤ 3500) × (length word.now ≤ 16) }
    ensures { Part (line word.now n) out.old out.new at result
        × (result ≤ at + 38) × (length out.old ≡ 4096) }
{
    let next = text(out, at, word);
    let next = spaced(out, next, n);
    byte(out, next, b'\n')
}
