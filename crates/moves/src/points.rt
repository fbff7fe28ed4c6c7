// The points of a place, by the steps of its order, and in a lent buffer.
ghost use Rattle.std.specs.Prelude.{◌≡◌, suc, ◌+◌, ◌-◌, ◌≤◌, length, take};
ghost use Rattle.std.proofs.Math.Seq.{paste};
ghost use Rattle.combinatorics.specs.Front.{front};
ghost use Rattle.moves.specs.Held.{state_of};
ghost use Rattle.moves.specs.Room.{CanPut};
ghost use Rattle.rules.specs.Read.{point_after, numbers_from, ReadyPoint};
ghost use Rattle.rules.specs.Ready.{IndicesBelow};
ghost use Rattle.rules.specs.Moves.{source};

use crate::Status;
use arrays::{Held, first_outside, shift};
use rules::Round;

// The first i steps of the order: on a point, or on counts of its steps.
pub fn advance(y: &mut [u16; 16], round: &Round, u: u16, order: &[u32; 16], i: usize)
    requires indices_below { IndicesBelow round.now.previous }
    requires ready_point { ReadyPoint (source round.now u) (take i order.now) y.old i }
    ensures { y.new ≡ point_after (source round.now u) (take i order.now) y.old i }
{
    for k in 0..i {
        let h = order[k] as usize;
        let b = first_outside(&round.previous, &round.sizes, u, h);
        shift(y, h, b);
    }
}

// The first m numbers of y, stored from a position of the buffer on.
fn put_row(buf: &mut [u16], position: usize, y: &[u16; 16], m: usize)
    requires { (position + m ≤ length buf.old) × (m ≤ 16) }
    ensures { buf.new ≡ paste buf.old position y.now m }
{
    buf[position..position + m].copy_from_slice(&y[..m]);
}

// The points of the place from number from on, m numbers each, at the front of the buffer. The result is how many
// points these are.
pub fn put_points(
    held: &Held,
    round: &Round,
    s: Status,
    m: usize,
    from: usize,
    buf: &mut [u16],
) -> usize
    requires { let a = state_of round.now held.now s in
        CanPut a m from (length buf.old) × (length a.order ≡ s.count) }
    ensures value { result ≡ suc (length (state_of round.now held.now s).order) - from }
    ensures buf_after { buf.new ≡ front (numbers_from m (state_of round.now held.now s) from) buf.old }
{
    let mut position: usize = 0;
    for i in from..s.count + 1 {
        let mut z = held.first;
        advance(&mut z, round, s.u, &held.order, i);
        put_row(buf, position, &z, m);
        position += m;
    }
    s.count + 1 - from
}
