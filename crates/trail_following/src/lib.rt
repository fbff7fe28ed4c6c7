// The records of a trail behind the first, one after another. What is public here is for the reader, which shows what
// it asks.
#![tactic(auto)]

ghost use Rattle.std.specs.Prelude.{◌≡◌, ◌%◌, ◌≤◌, ◌<◌, get_or, length};
ghost use Rattle.moves.specs.Held.{state_of};
ghost use Rattle.trail_steps.specs.Reading.{CanGoOn};
ghost use Rattle.trail_following.specs.Reached.{ReachesFrom};

use arrays::Held;
use grid::Grid;
use moves::{Outcome, Status};
use positions::ENTRIES;
use rules::Round;
use trail_records::IndexSets;
use trail_steps::{arrive, way_on};
use ways::{gone_by, moved_by};

// The place that the records lead to, with the number of them that bring a point in.
#[derive(Clone, Copy)]
pub struct Reached {
    pub status: Status,
    pub came: u64,
}

// Bit 0 of the byte at a position, which stands in a record's map byte if the record brings a point in.
fn low_bit(trail: &[u8], at: usize) -> u64
    requires { at < length trail.now }
    ensures { (result ≡ get_or trail.now at 0 % 2) × (result ≤ 1) }
{
    u64::from(trail[at] % 2)
}

// The place to which the next records lead from the place that is held, if they lead to one.
pub fn follow(
    g: Grid,
    binomials: &[u16; ENTRIES],
    tails: &[u32; 16],
    round: &Round,
    held: &mut Held,
    begun: Status,
    trail: &[u8],
    from: usize,
    number: u64,
) -> Option<Reached>
    requires { CanGoOn g binomials.now tails.now (state_of round.now held.old begun) (length trail.now) from }
    ensures { ReachesFrom g tails.now trail.now from (state_of round.now held.old begun) number
        (state_of round.now held.new) result }
{
    let mut s = begun;
    let mut at = from;
    let mut came = 0u64;
    for _record in 0..number {
        let way = way_on(trail, at, &held.marks, s, g.indices);
        let gone = gone_by(way, &held.marks, s);
        let before = IndexSets { t: s.t, u: s.u };
        let outcome = moved_by(held, round, s, way);
        let Outcome::Moved(status) = outcome else {
            return None;
        };
        let bytes = arrive(
            g, binomials, tails, round, held, before, status, gone, trail, at,
        );
        if bytes == 0 {
            return None;
        }
        s = status;
        came += low_bit(trail, at);
        at += bytes;
    }
    Some(Reached { status: s, came })
}
