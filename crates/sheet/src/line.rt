// The lines of the sheet but the centre's. Only this crate calls these functions: each writes into the buffer from a
// position on, for which there is room, and returns the
// position behind what it wrote.
ghost use mathlib.Core.List.{flat_map};
ghost use Rattle.std.specs.Prelude.{◌+◌, ◌*◌, ◌≤◌, ◌<◌, length};
ghost use Rattle.sheet_lines.specs.Answer.{rows};
ghost use Rattle.text.specs.Part.{Part};
ghost use Rattle.text.specs.Line.{spaced as spaced_of};
ghost use Rattle.sheet_lines.specs.Sheet.{vertex_line};

use text::{SHEET_BYTES, byte, decimal, spaced};

// The numbers of `row`, each behind a blank.
fn all_spaced(out: &mut [u8; SHEET_BYTES], at: usize, row: &[u16]) -> usize
    requires { (at ≤ 3600) × (length row.now ≤ 16) }
    ensures { Part (flat_map spaced_of row.now) out.old out.new at result
        × (result ≤ at + 96) }
{
    let mut next = at;
    for number in row {
        next = spaced(out, next, u64::from(*number));
    }
    next
}

// The line of one vertex.
fn vertex_line(out: &mut [u8; SHEET_BYTES], at: usize, row: &[u16]) -> usize
    requires { (at ≤ 3500) × (1 ≤ length row.now) × (length row.now ≤ 16) }
    ensures { Part (vertex_line row.now) out.old out.new at result × (result ≤ at + 117) }
{
    let mut next = decimal(out, at, u64::from(row[0]));
    next = all_spaced(out, next, &row[1..]);
    byte(out, next, b'\n')
}

// A line for each of the `count` vertices.
pub fn vertex_lines(
    out: &mut [u8; SHEET_BYTES],
    at: usize,
    count: usize,
    vertices: &[u16],
    m: usize,
) -> usize
    requires at_bound { (at ≤ 1500) × (1 ≤ m) × (m ≤ 16) }
    requires count_bound { (count ≤ 16) × (count * m ≤ length vertices.now) }
    ensures { Part (flat_map vertex_line (rows count m vertices.now))
        out.old out.new at result
        × (result ≤ at + 117 * count) }
{
    let mut next = at;
    for k in 0..count {
        let start = k * m;
        next = vertex_line(out, next, &vertices[start..start + m]);
    }
    next
}
