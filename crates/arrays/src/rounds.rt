// Ways round a block, from an index to the neighbours that an array names.
ghost use Rattle.std.specs.Prelude.{not, ◌&&◌, ◌≡◌, ◌≤◌, ◌<◌, ℕ, Bool};
ghost use Rattle.grid_points.specs.Grid.{at};
ghost use Rattle.rules.specs.Mask.{bit};
ghost use Rattle.rules.specs.Ready.{IndicesBelow};
ghost use Rattle.rules.specs.Moves.{first_met, first_outside, first_outside_or_zero, is_filled};

use crate::mask::has;
use rules::Round;

// The first index met from the one that the way has behind h at which the test holds, after at most as many steps as
// the block of h has.
fn first_met<F: Fn(usize) -> bool>(way: &[u8; 16], sizes: &[u8; 16], h: usize, test: F) -> usize
    requires way_below { (h < 16) × IndicesBelow way.now }
    requires can_test { (k : ℕ) → k < 16 → F.pre test k }
    ensures { (result < 16)
        × ((q : ℕ → Bool) → ((k : ℕ) (b : Bool) → F.post test k b → b ≡ q k)
        → result ≡ first_met way.now q (at sizes.now h) (at way.now h)) }
{
    // No `for`: the index is what the loop breaks with, and the number of indices left falls, as the papers name it.
    let mut at = usize::from(way[h]);
    let mut left = sizes[h];
    loop {
        if left == 0 || test(at) {
            break at;
        }
        at = usize::from(way[at]);
        left -= 1;
    }
}

// The first index met going from h that is not in the set, by a loop round the block: going back and with U, document
// 01's b.
pub fn first_outside(way: &[u8; 16], sizes: &[u8; 16], mask: u16, h: usize) -> usize
    requires { (h < 16) × IndicesBelow way.now }
    ensures { (result ≡ first_outside way.now sizes.now mask h) × (result < 16) }
{
    first_met(way, sizes, h, |k| !has(mask, k))
}

// The first index met going back from h that is not in U or has coefficient 0.
pub fn first_outside_or_zero(round: &Round, u: u16, c: &[u16; 16], h: usize) -> usize
    requires { (h < 16) × IndicesBelow round.now.previous }
    ensures { (result ≡ first_outside_or_zero round.now u c.now h) × (result < 16) }
{
    first_met(
        &round.previous,
        &round.sizes,
        h,
        |k| !has(u, k) || c[k] == 0,
    )
}

// The index is in neither of the two sets.
pub fn in_neither(t: u16, u: u16, h: usize) -> bool
    requires { h < 16 }
    ensures { result ≡ (not (bit t h) && not (bit u h)) }
{
    !has(t, h) && !has(u, h)
}

// Every index of the block of h but h is in one of the two sets: the first index met going on from h that is h again or
// is in neither is h.
pub fn is_filled(round: &Round, t: u16, u: u16, h: usize) -> bool
    requires { (h < 16) × IndicesBelow round.now.next }
    ensures { result ≡ is_filled round.now t u h }
{
    first_met(
        &round.next,
        &round.sizes,
        h,
        |k| k == h || in_neither(t, u, k),
    ) == h
}
