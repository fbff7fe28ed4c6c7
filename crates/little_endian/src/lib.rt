// Numbers of two and of eight bytes, low byte first.
#![tactic(auto)]

ghost use Rattle.std.specs.Prelude.{◌≡◌, ◌+◌, ◌*◌, ◌≤◌, length};
ghost use Rattle.little_endian.specs.Numbers.{number, words};

// The 16-bit number at a position.
fn word(bytes: &[u8], at: usize) -> u16
    requires { at + 2 ≤ length bytes.now }
    ensures { result ≡ number 2 bytes.now at }
{
    u16::from_le_bytes([bytes[at], bytes[at + 1]])
}

// The 64-bit number at a position.
pub fn number64(bytes: &[u8], at: usize) -> u64
    requires { at + 8 ≤ length bytes.now }
    ensures { result ≡ number 8 bytes.now at }
{
    let mut eight = [0u8; 8];
    eight.copy_from_slice(&bytes[at..at + 8]);
    u64::from_le_bytes(eight)
}

// As many 16-bit numbers as there is room for, from a position on.
pub fn words(bytes: &[u8], from: usize, room: &mut [u16])
    requires { from + 2 * length room.old ≤ length bytes.now }
    ensures { room.new ≡ words (length room.old) bytes.now from }
{
    for (i, x) in room.iter_mut().enumerate() {
        *x = word(bytes, from + 2 * i);
    }
}
