// What comes next from a place that is recognised, by its spare point.
ghost use Rattle.std.specs.Prelude.{◌≡◌};
ghost use Rattle.walk_next.specs.Choosing.{CanChoose, CanFill, MarksFilledBy};
ghost use Rattle.walk_ways.specs.Standing.{IsRoundOf, next_in};

use arrays::{Held, label_in};
use grid::Grid;
use moves::Status;
use rules::Round;
use walk_places::Walk;
use walk_ways::{Next, from_other, from_start};

// What is held, with index 1 for the label of this point where it is not yet known.
fn filled(held: &Held, point: usize, unknown: bool) -> Held
    requires { CanFill held.now point unknown }
    ensures { MarksFilledBy held.now point unknown result }
{
    let mut own = *held;
    if unknown {
        own.marks[point] += 1;
    }
    own
}

// What comes next from a place, by the point whose label the others do not need.
pub fn chosen(g: Grid, round: &Round, held: &Held, labels: &[u8], w: Walk, here: Status) -> Next
    requires can_choose { CanChoose g w labels.now held.now here }
    requires round_of { IsRoundOf g round.now }
    ensures { result ≡ next_in g w labels.now }
{
    let unknown = label_in(held.marks[here.active]) == 0;
    let own = filled(held, here.active, unknown);
    if here.count == 0 {
        return from_start(g, round, &own, labels, w, here, unknown);
    }
    from_other(g, round, &own, labels, w, here, unknown)
}
