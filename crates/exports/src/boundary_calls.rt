// The older boundary rule for programs in C and Rust.
ghost use Rattle.std.specs.Prelude.{◌≡◌};
ghost use Rattle.boundary.specs.Call.{boundary_answer, boundary_buffer};
ghost use Rattle.exports.specs.Numbers.{label_number, label_count};

use crate::put_count;

// The boundary table of an old one: 0 where it is written, with the count of its bytes, else the refusal's number.
pub fn leveretplate_boundary(
    sizes: &[u8],
    divisions: &[u16],
    old: &[u8],
    labels: &mut [u8],
    count: &mut u64,
) -> u8
    ensures number { result ≡ label_number (boundary_answer
        sizes.now divisions.now old.now labels.old) }
    ensures count { count.new ≡ label_count (boundary_answer
        sizes.now divisions.now old.now labels.old)
        count.old }
    ensures buffer { labels.new ≡ boundary_buffer
        sizes.now divisions.now old.now labels.old }
{
    let found = boundary::boundary(sizes, divisions, old, labels);
    put_count(found, count)
}
