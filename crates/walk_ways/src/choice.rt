// Which of the two moves from a place leads back to the one before it, and which on.
ghost use Rattle.std.specs.Prelude.{◌≡◌, ◌≤◌, length};
ghost use Rattle.walk_ways.specs.Standing.{IsRoundOf, leads_back, next_in, Standing};

use crate::ending::{refused, told};
use crate::one_way::way;
use crate::{Leads, Move, Next};
use arrays::Held;
use grid::Grid;
use moves::Status;
use rules::Round;
use walk_places::{Place, Walk, none, same_place};

// Whether a way leads to the place before.
fn leads_back(way: Move, before: Place) -> bool
    ensures { (result ≡ leads_back way before) × (length before.order ≡ 16) }
{
    match way.leads {
        Leads::Onto(_) => same_place(way.place, before),
        Leads::PlaceEnd(_) | Leads::FacetEnd(_) => false,
    }
}

// From {v}, which has none before it: its label joins T.
pub fn from_start(
    g: Grid,
    round: &Round,
    held: &Held,
    labels: &[u8],
    w: Walk,
    here: Status,
    unknown: bool,
) -> Next
    requires standing { Standing g w labels.now held.now here unknown × (here.count ≡ 0) }
    requires round_of { IsRoundOf g round.now }
    ensures { result ≡ next_in g w labels.now }
{
    if !same_place(w.before, none()) {
        return refused(20);
    }
    if unknown {
        return refused(16);
    }
    let on = way(round, held, g.indices, here);
    told(g, round, held, here, on)
}

// From any other place: the point leaves, or its label joins T or the other point with that label leaves. One of the
// two must lead back.
pub fn from_other(
    g: Grid,
    round: &Round,
    held: &Held,
    labels: &[u8],
    w: Walk,
    here: Status,
    unknown: bool,
) -> Next
    requires standing { Standing g w labels.now held.now here unknown × (1 ≤ here.count) }
    requires round_of { IsRoundOf g round.now }
    ensures { result ≡ next_in g w labels.now }
{
    let leaving = Status { rule: 6, ..here };
    let a = way(round, held, g.indices, leaving);
    if leads_back(a, w.before) {
        if unknown {
            return refused(16);
        }
        let on = way(round, held, g.indices, here);
        return told(g, round, held, here, on);
    }
    if unknown {
        return refused(20);
    }
    let b = way(round, held, g.indices, here);
    if leads_back(b, w.before) {
        return told(g, round, held, leaving, a);
    }
    refused(20)
}
