// The pass of a run that notes the vertices of its places, each where it comes in for the first time.
#![tactic(auto)]

ghost use Rattle.std.specs.Prelude.{None, ◌≡◌};
ghost use Rattle.path_pass.specs.Finish.{CanPass, Finished, problem_in};
ghost use Rattle.nearest_pass.specs.Survey.{CanNote, Surveys, none_met, some_vertex};

use arrays::Held;
use end_kinds::Kind;
use grid::Grid;
use moves::Outcome;
use nearest_met::{Tally, came_in, meet};
use path_pass::{Finish, asked, begun, ended, look_up, on};
use positions::ENTRIES;
use rules::Round;
use ways::make_move;

// The nearest visited vertex, by its position, and how many positions are listed.
#[derive(Clone, Copy)]
pub struct Vertex {
    pub position: usize,
    pub listed: usize,
}

// How a pass ended, and what is reported of the vertices that it has met: nothing where it reached no end.
#[derive(Clone, Copy)]
pub struct NotingPass {
    pub finish: Finish,
    pub nearest: Option<Vertex>,
}

// Nothing is met yet.
fn none_met() -> Tally
    ensures { result ≡ none_met }
{
    Tally {
        nearest: 0,
        least: 18446744073709551615,
        listed: 0,
    }
}

// A pass that reached no end reports no vertex.
fn unreported(finish: Finish) -> NotingPass
    ensures { (result.finish ≡ finish) × (result.nearest ≡ None) }
{
    NotingPass {
        finish,
        nearest: None,
    }
}

// A pass whose move has led to an end.
fn reported(finish: Finish, t: Tally) -> NotingPass
    ensures { (result.finish ≡ finish) × (result.nearest ≡ some_vertex t.nearest t.listed) }
{
    NotingPass {
        finish,
        nearest: Some(Vertex {
            position: t.nearest,
            listed: t.listed,
        }),
    }
}

// From {v} to the path's end, or until the budget is spent, of which the places are counted down as by a run: each
// vertex is noted where it comes in for the first time. The list is the pass's own, since a run that reaches no end
// writes none.
pub fn pass_noting(
    g: Grid,
    binomials: &[u16; ENTRIES],
    table: &[u8],
    round: &Round,
    held: &mut Held,
    weights: &[usize; 16],
    w: &[u16],
    given: u64,
    list: &mut [u16],
    budget: u64,
) -> NotingPass
    requires can_pass { CanPass g round.now binomials.now held.old table.now }
    requires can_note { CanNote g weights.now w.now list.old }
    ensures finished { Finished (problem_in g held.old.first table.now) budget round.now held.new result.finish }
    ensures surveys { Surveys (problem_in g held.old.first table.now)
        w.now given budget list.old list.new result.nearest result.finish }
{
    let mut seen = [0u8; 60000];
    let tails = positions::tails(&held.first, g.indices);
    let mut t = none_met();
    let mut at = begun(held, g.indices);
    for left in (0..budget).rev() {
        let visited = budget - left - 1;
        let s = at.status;
        if let Err(unknown) = look_up(g, binomials, &tails, table, round, held, s) {
            return unreported(asked(unknown, visited));
        }
        let came = came_in(held, s);
        t = meet(
            round, held, s, weights, w, g.indices, came, given, &mut seen, list, t,
        );
        match make_move(held, round, s) {
            Outcome::Moved(status) => at = on(at, status),
            Outcome::PlaceEnd(index) => return reported(ended(at, Kind::Place, index, visited), t),
            Outcome::FacetEnd(index) => return reported(ended(at, Kind::Facet, index, visited), t),
        }
    }
    unreported(Finish::Spent)
}
