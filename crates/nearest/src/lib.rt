// The customer's call: a run that reports where the path came nearest to a grid point.
#![tactic(auto)]

ghost use Rattle.std.specs.Prelude.{true, ◌≡◌, ◌≤◌, length, take};
ghost use Rattle.combinatorics.specs.Front.{front};
ghost use Rattle.finder.specs.Asked.{CanRun};
ghost use Rattle.finder.specs.Run.{numbers_of};
ghost use Rattle.grid_points.specs.Grid.{is_grid_point, num_points};
ghost use Rattle.questions.specs.Questions.{first_no};
ghost use Rattle.grid.specs.Made.{IsMade, shape};
ghost use Rattle.place.specs.Path.{answer as answer_of};
ghost use Rattle.place.specs.Problem.{problem_of};
ghost use Rattle.marks.specs.Reading.{problem_from};
ghost use Rattle.nearest_visited.specs.Questions.{point_questions};
ghost use Rattle.nearest.specs.Report.{near_answer_buffer, list_buffer, listed_by, report_of, reported};

use arrays::{Held, round_of};
use finder::{RunAnswer, announce};
use grid::Grid;
use nearest_met::weights;
pub use nearest_pass::Vertex;
use nearest_pass::pass_noting;
use positions::ENTRIES;

// What the run answers, and what is reported besides.
#[derive(Clone, Copy)]
pub struct Report {
    pub run: RunAnswer,
    pub nearest: Option<Vertex>,
}

// Questions 5 to 8, on a grid that is accepted: the number of the first that is answered no, or 0. The start's question
// has the number of w's, so that to ask w's before it changes nothing.
fn first_nearest_no(
    g: Grid,
    start: &[u16],
    labels: &[u8],
    room: usize,
    w: &[u16],
    entries: usize,
) -> u8
    requires { IsMade g }
    ensures { result ≡ first_no (point_questions (problem_from g start.now labels.now)
        w.now room entries) }
{
    if !g.is_grid_point(w) {
        return 5;
    }
    let number = finder::first_run_no(g, start, labels, room);
    if number != 0 {
        return number;
    }
    if entries < g.points {
        return 8;
    }
    0
}

// The pass along the path of an accepted table: the run's answer, and what is reported besides. The list that the pass
// finds is lent, and at an end its front is what the call lists.
fn announced(
    g: Grid,
    binomials: &[u16; ENTRIES],
    start: &[u16],
    labels: &[u8],
    answer: &mut [u16],
    budget: u64,
    w: &[u16],
    given: u64,
    found: &mut [u16],
) -> Report
    requires can_run { CanRun g binomials.now start.now labels.now answer.old }
    requires w_value { (is_grid_point (shape g) w.now ≡ true) × (num_points (shape g) ≤ length found.old) }
    ensures value { let p = answer_of (problem_from g start.now labels.now) budget in result
        ≡ reported (problem_from g start.now labels.now) w.now given p }
    ensures answer_after { let p = answer_of (problem_from g start.now labels.now) budget in
        answer.new ≡ front (numbers_of p) answer.old }
    ensures found_after { let p = answer_of (problem_from g start.now labels.now) budget in
        let l = listed_by (problem_from g start.now labels.now) w.now given p in
        take (length l) found.new ≡ l }
{
    let round = round_of(g);
    let weights = weights(g);
    let mut held = Held::at(start, g.indices);
    let passed = pass_noting(
        g, binomials, labels, &round, &mut held, &weights, w, given, found, budget,
    );
    let run = announce(g, &round, &held, passed.finish, answer, budget);
    Report {
        run,
        nearest: passed.nearest,
    }
}

// The first n positions that were found, at the front of the list.
fn put_list(list: &mut [u16], found: &[u16], n: usize)
    requires { (n ≤ length list.old) × (n ≤ length found.now) }
    ensures { list.new ≡ front (take n found.now) list.old }
{
    list[..n].copy_from_slice(&found[..n]);
}

// Behind questions 1 to 4: the others, the pass, and after its end the list.
fn run_on(
    g: Grid,
    start: &[u16],
    labels: &[u8],
    answer: &mut [u16],
    budget: u64,
    w: &[u16],
    given: u64,
    list: &mut [u16],
) -> Report
    requires { IsMade g }
    ensures report { result
        ≡ report_of (problem_from g start.now labels.now) w.now given
        (length answer.old) (length list.old) budget }
    ensures answer { answer.new
        ≡ near_answer_buffer (problem_from g start.now labels.now) w.now
        (length list.old) budget answer.old }
    ensures list { list.new
        ≡ list_buffer (problem_from g start.now labels.now) w.now given
        (length answer.old) budget list.old }
{
    let number = first_nearest_no(g, start, labels, answer.len(), w, list.len());
    if number != 0 {
        return Report {
            run: RunAnswer::Refused(number),
            nearest: None,
        };
    }
    let mut binomials = [0u16; ENTRIES];
    positions::binomials(g, &mut binomials);
    let mut found = [0u16; 60000];
    let report = announced(
        g, &binomials, start, labels, answer, budget, w, given, &mut found,
    );
    if let Some(vertex) = report.nearest {
        put_list(list, &found, vertex.listed);
    }
    report
}

// Questions 1 to 8 in the papers' order, 5 and 8 put twice, and then the run, on every input. After an end the vertices
// stand at the front of the answer buffer, and at the front of the list the positions of the visited vertices within
// the given distance, each once, in order of first visit. After a refusal, 9 and 16 included, both are as before.
pub fn run(
    sizes: &[u8],
    divisions: &[u16],
    start: &[u16],
    labels: &[u8],
    answer: &mut [u16],
    budget: u64,
    w: &[u16],
    given: u64,
    list: &mut [u16],
) -> Report
    ensures report { result ≡ report_of
        (problem_of sizes.now divisions.now start.now labels.now)
        w.now given (length answer.old) (length list.old) budget }
    ensures answer { answer.new ≡ near_answer_buffer
        (problem_of sizes.now divisions.now start.now labels.now)
        w.now (length list.old) budget answer.old }
    ensures list { list.new ≡ list_buffer
        (problem_of sizes.now divisions.now start.now labels.now)
        w.now given (length answer.old) budget list.old }
{
    let made = Grid::new(sizes, divisions);
    let code = made.code;
    let g = made.grid;
    if code != 0 {
        return Report {
            run: RunAnswer::Refused(code),
            nearest: None,
        };
    }
    run_on(g, start, labels, answer, budget, w, given, list)
}
