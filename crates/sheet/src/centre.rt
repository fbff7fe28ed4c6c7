// The centre of the vertices: at each index their mean in ten-thousandths. Only this crate calls these functions.
ghost use Rattle.std.specs.Prelude.{◌≡◌, ◌*◌, ◌≤◌, ◌<◌, length};
ghost use Rattle.sheet_lines.specs.Answer.{rows, Printable};
ghost use Rattle.text.specs.Part.{Part};
ghost use Rattle.sheet_lines.specs.Sheet.{centre_line, total as total_of};

use rounding::centre;
use text::{SHEET_BYTES, byte, spaced, text};

// The coordinate sum of the vertices at the index h.
fn coordinate_sum(count: usize, vertices: &[u16], m: usize, h: usize) -> u64
    requires h_lt_m { (h < m) × (m ≤ 16) }
    requires count_bound { (count ≤ 16) × (count * m ≤ length vertices.now) }
    ensures { (result ≡ total_of (rows count m vertices.now) h) × (result ≤ 65535 * count) }
{
    let mut sum: u64 = 0;
    for k in 0..count {
        sum += u64::from(vertices[k * m + h]);
    }
    sum
}

// The line of the centre.
pub fn centre_line(
    out: &mut [u8; SHEET_BYTES],
    at: usize,
    count: usize,
    vertices: &[u16],
    divisions: &[u16],
) -> usize
    requires { (at ≤ 3500) × Printable count vertices.now divisions.now }
    ensures { (let simplex = rows count (length divisions.now) vertices.now in
        Part (centre_line simplex divisions.now) out.old out.new at result) × (result ≤ 4096) }
{
    let m = divisions.len();
    let mut next = text(out, at, b"centre");
    for (h, division) in divisions.iter().enumerate() {
        let sum = coordinate_sum(count, vertices, m, h);
        next = spaced(out, next, centre(sum, count, *division));
    }
    byte(out, next, b'\n')
}
