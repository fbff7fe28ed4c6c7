// The pass from {v} along the path, place by place. What is public is also for the passes that write a trail and that
// report where the path came nearest.
#![tactic(auto)]

ghost use Rattle.std.specs.Prelude.{◌≡◌, ◌+◌, ◌^◌, ◌≤◌, ◌<◌};
ghost use Rattle.marks.specs.Reading.{CanFind, Readable, table_problem};
ghost use Rattle.moves.specs.Held.{state_of};
ghost use Rattle.path_pass.specs.Finish.{CanPass, Finished, HasBegun, IsBegun};
ghost use Rattle.path_pass.specs.Finish.{asked_of, ended_of, labels_at, on_of, problem_in};
ghost use Rattle.path_pass.specs.Looking.{LooksUp};

use arrays::{Held, zeros};
use end_kinds::Kind;
use grid::Grid;
use marks::{Unknown, mark_in};
use moves::{Outcome, Status};
use positions::ENTRIES;
use rules::Round;
use ways::make_move;

// How a pass ended: at the path's end, after so many places, with an index of the block for which the simplex is
// complete, the status at the last place and the labels read; at a place that needs a label not yet known, after so
// many places before it, with the label's position; or with the budget spent.
#[derive(Clone, Copy)]
pub enum Finish {
    Ended {
        kind: Kind,
        places: u64,
        index: usize,
        status: Status,
        labels_read: u64,
    },
    Unknown {
        places: u64,
        position: usize,
    },
    Spent,
}

// Where a pass stands: the status, and the labels read up to the place, its own included.
#[derive(Clone, Copy)]
pub struct Stand {
    pub status: Status,
    pub labels: u64,
}

// The mark of the point that has just come in is read and stored, if one has.
pub fn look_up(
    g: Grid,
    binomials: &[u16; ENTRIES],
    tails: &[u32; 16],
    table: &[u8],
    round: &Round,
    held: &mut Held,
    s: Status,
) -> Result<(), Unknown>
    requires readable { Readable g binomials.now table.now }
    requires can_find { s.rule < 6 → CanFind g tails.now (state_of round.now held.old s) s }
    ensures { LooksUp (table_problem g table.now) round.now held.old held.new s result }
{
    if s.rule < 6 {
        let mark = mark_in(g, binomials, tails, table, round, held, s)?;
        held.marks[s.active] = mark;
    }
    Ok(())
}

// {v}, before the mark of its one point is read.
pub fn begin(first: &[u16; 16], m: usize) -> Status
    requires { m ≤ 16 }
    ensures { IsBegun first.now m result }
{
    Status {
        rule: 1,
        count: 0,
        t: 0,
        u: zeros(first, m),
        active: 0,
    }
}

// A pass that stands at {v}: no coefficient and no mark is held yet, and its one label is counted.
pub fn begun(held: &mut Held, m: usize) -> Stand
    requires { m ≤ 16 }
    ensures { HasBegun held.old held.new m result }
{
    let no_coefficients = [0u16; 16];
    let no_marks = [0u32; 16];
    held.coefficients = no_coefficients;
    held.marks = no_marks;
    Stand {
        status: begin(&held.first, m),
        labels: 1,
    }
}

// How a pass ended at place number `visited`, from 0, which needs a label that is not yet known.
pub fn asked(unknown: Unknown, visited: u64) -> Finish
    ensures { result ≡ asked_of unknown.position visited }
{
    Finish::Unknown {
        places: visited,
        position: unknown.position,
    }
}

// The labels that are read at a place: that of the point which has come in, if one has.
pub fn labels_at(s: Status) -> u64
    ensures { result ≡ labels_at s.rule }
{
    if s.rule < 6 { 1 } else { 0 }
}

// The pass has moved on. A place's label is counted where the move to it is made, whose rule the compiler then knows.
pub fn on(at: Stand, status: Status) -> Stand
    requires { at.labels + labels_at status.rule < 2 ^ 64 }
    ensures { result ≡ on_of at status }
{
    Stand {
        status,
        labels: at.labels + labels_at(status),
    }
}

// How a pass ended whose move from place number `visited`, from 0, has led to an end of this kind, for the block of an
// index.
pub fn ended(at: Stand, kind: Kind, index: usize, visited: u64) -> Finish
    requires { visited + 1 < 2 ^ 64 }
    ensures { result ≡ ended_of at kind index visited }
{
    Finish::Ended {
        kind,
        places: visited + 1,
        index,
        status: at.status,
        labels_read: at.labels,
    }
}

// From {v} to the path's end, or until the budget is spent, of which the places are counted down.
pub fn pass(
    g: Grid,
    binomials: &[u16; ENTRIES],
    table: &[u8],
    round: &Round,
    held: &mut Held,
    budget: u64,
) -> Finish
    requires { CanPass g round.now binomials.now held.old table.now }
    ensures { Finished (problem_in g held.old.first table.now) budget round.now held.new result }
{
    let tails = positions::tails(&held.first, g.indices);
    let mut at = begun(held, g.indices);
    for left in (0..budget).rev() {
        let visited = budget - left - 1;
        if let Err(unknown) = look_up(g, binomials, &tails, table, round, held, at.status) {
            return asked(unknown, visited);
        }
        match make_move(held, round, at.status) {
            Outcome::Moved(status) => at = on(at, status),
            Outcome::PlaceEnd(index) => return ended(at, Kind::Place, index, visited),
            Outcome::FacetEnd(index) => return ended(at, Kind::Facet, index, visited),
        }
    }
    Finish::Spent
}
