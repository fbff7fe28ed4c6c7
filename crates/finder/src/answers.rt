// The run on a label table: the customer's call.
ghost use Rattle.std.specs.Prelude.{◌≡◌, suc, ◌<◌, length};
ghost use Rattle.combinatorics.specs.Front.{front};
ghost use Rattle.questions.specs.Questions.{first_no};
ghost use Rattle.grid_points.specs.Grid.{block_of};
ghost use Rattle.grid.specs.Made.{IsMade, shape};
ghost use Rattle.place.specs.Path.{answer as answer_of};
ghost use Rattle.place.specs.Problem.{problem_of};
ghost use Rattle.marks.specs.Reading.{problem_from};
ghost use Rattle.finder.specs.Asked.{CanRun, later_run_questions};
ghost use Rattle.finder.specs.Finishes.{CanAnnounce, case_at, numbers_at};
ghost use Rattle.path_pass.specs.Finish.{first_point_of};
ghost use Rattle.finder.specs.Run.{case_of, numbers_of, run_answer, run_buffer};

use arrays::{Held, round_of};
use end_kinds::Kind;
use grid::Grid;
use label_table::all_at_most;
use moves::put_points;
use path_pass::{Finish, pass};
use positions::ENTRIES;
use rules::Round;

// What a run answers. The block counts from 1. The vertices, m numbers each, stand at the front of the answer buffer.
#[derive(Clone, Copy)]
pub enum RunAnswer {
    // The number of the first of questions 1 to 8 that is answered no.
    Refused(u8),
    // Number 9: the path has not ended within the budget. The places visited equal the budget.
    Spent(u64),
    // Number 16: a place within the budget needs a label that is not yet known. The places visited before it, and
    // the position of the label.
    Unknown {
        places: u64,
        position: usize,
    },
    // The end of the path, and the labels read up to it.
    End {
        places: u64,
        labels_read: u64,
        kind: Kind,
        block: u8,
        vertices: usize,
    },
}

// The number, from 1, of the block of index h.
fn block_number(g: Grid, h: usize) -> u8
    requires { IsMade g × (h < g.indices) }
    ensures { result ≡ suc (block_of (shape g) h) }
{
    g.block_of(h) as u8 + 1
}

// The number of the first point of the complete simplex: a facet end leaves out the first point of its place.
fn first_vertex(kind: Kind) -> usize
    ensures { result ≡ first_point_of kind }
{
    match kind {
        Kind::Place => 0,
        Kind::Facet => 1,
    }
}

// Where a pass finished, announced: the answer, and at an end its vertices at the front of the buffer.
pub fn announce(
    g: Grid,
    round: &Round,
    held: &Held,
    finish: Finish,
    answer: &mut [u16],
    budget: u64,
) -> RunAnswer
    requires { CanAnnounce g round.now held.now (length answer.old) finish }
    ensures value { result ≡ case_at g budget finish }
    ensures answer_after { answer.new ≡ front (numbers_at g.indices round.now held.now finish) answer.old }
{
    match finish {
        Finish::Spent => RunAnswer::Spent(budget),
        Finish::Unknown { places, position } => RunAnswer::Unknown { places, position },
        Finish::Ended {
            kind,
            places,
            index,
            status,
            labels_read,
        } => {
            let from = first_vertex(kind);
            let vertices = put_points(held, round, status, g.indices, from, answer);
            RunAnswer::End {
                places,
                labels_read,
                kind,
                block: block_number(g, index),
                vertices,
            }
        }
    }
}

// The pass along the path of an accepted table, and its answer: the run behind all its questions. A refinement calls it
// too, which has asked them of its levels.
pub fn announced(
    g: Grid,
    binomials: &[u16; ENTRIES],
    start: &[u16],
    labels: &[u8],
    answer: &mut [u16],
    budget: u64,
) -> RunAnswer
    requires { CanRun g binomials.now start.now labels.now answer.old }
    ensures value { let p = answer_of (problem_from g start.now labels.now) budget in result ≡ case_of p }
    ensures answer_after { let p = answer_of (problem_from g start.now labels.now) budget in
        answer.new ≡ front (numbers_of p) answer.old }
{
    let round = round_of(g);
    let mut held = Held::at(start, g.indices);
    let finish = pass(g, binomials, labels, &round, &mut held, budget);
    announce(g, &round, &held, finish, answer, budget)
}

// Questions 5 to 8, on a grid that is accepted: the number of the first that is answered no, or 0.
pub fn first_run_no(g: Grid, start: &[u16], labels: &[u8], room: usize) -> u8
    requires { IsMade g }
    ensures { result ≡ first_no (later_run_questions (problem_from g start.now labels.now) room) }
{
    let m = g.indices;
    if !g.is_grid_point(start) {
        return 5;
    }
    if labels.len() != g.points {
        return 6;
    }
    if !all_at_most(labels, m as u8) {
        return 7;
    }
    if room < (m - g.blocks + 1) * m {
        return 8;
    }
    0
}

// Questions 5 to 9 in document 01's order, on a grid that is made. The printer calls it too: a slip has answered
// questions 1 to 4.
pub fn run_on(g: Grid, start: &[u16], labels: &[u8], answer: &mut [u16], budget: u64) -> RunAnswer
    requires { IsMade g }
    ensures answer { result
        ≡ run_answer (problem_from g start.now labels.now) (length answer.old) budget }
    ensures buffer { answer.new
        ≡ run_buffer (problem_from g start.now labels.now) budget answer.old }
{
    let number = first_run_no(g, start, labels, answer.len());
    if number != 0 {
        return RunAnswer::Refused(number);
    }
    let mut binomials = [0u16; ENTRIES];
    positions::binomials(g, &mut binomials);
    announced(g, &binomials, start, labels, answer, budget)
}

// Questions 1 to 9 in document 01's order, on every input. Refusals write nothing. What is written stands at the front
// of the answer buffer: as many vertices as the answer says, m numbers each.
pub fn run(
    sizes: &[u8],
    divisions: &[u16],
    start: &[u16],
    labels: &[u8],
    answer: &mut [u16],
    budget: u64,
) -> RunAnswer
    ensures answer { result ≡ run_answer
        (problem_of sizes.now divisions.now start.now labels.now)
        (length answer.old) budget }
    ensures buffer { answer.new ≡ run_buffer
        (problem_of sizes.now divisions.now start.now labels.now)
        budget answer.old }
{
    let made = Grid::new(sizes, divisions);
    let code = made.code;
    let g = made.grid;
    if code != 0 {
        return RunAnswer::Refused(code);
    }
    run_on(g, start, labels, answer, budget)
}
