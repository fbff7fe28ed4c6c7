// The run that writes a trail: the customer's call.
ghost use Rattle.std.specs.Prelude.{cond, true, [], ◌≡◌, length};
ghost use Rattle.combinatorics.specs.Front.{front};
ghost use Rattle.finder.specs.Asked.{CanRun};
ghost use Rattle.finder.specs.Run.{numbers_of};
ghost use Rattle.finder.specs.declared.answers.RunAnswer.TheVariants.{Refused};
ghost use Rattle.marks.specs.Reading.{problem_from};
ghost use Rattle.place.specs.Path.{answer as answer_of};
ghost use Rattle.place.specs.Problem.{problem_of};
ghost use Rattle.trail_writer.specs.Again.{CanWriteTrail, HasCounted, has_room, stored_at};
ghost use Rattle.trail_writer.specs.Writing.{announces, trail_answer_buffer, trail_answer, trail_buffer};
ghost use Rattle.trail_writer.specs.Writing.{trail_case, unwritten, whole_trail};

use arrays::{Held, round_of};
use finder::{RunAnswer, announce, first_run_no};
use grid::Grid;
use path_pass::Finish;
use positions::ENTRIES;
use rules::Round;
use trail_pass::pass_recording;

// What the run answers, which is refused by 17 too: the trail buffer is shorter than the trail; and how many bytes of
// the trail are written, at the front of their buffer: 0 without an end.
#[derive(Clone, Copy)]
pub struct TrailAnswer {
    pub run: RunAnswer,
    pub bytes: usize,
}

// The pass again, which stores the records. The path has an end within the budget, and its trail has room.
fn write_trail(
    g: Grid,
    binomials: &[u16; ENTRIES],
    start: &[u16],
    labels: &[u8],
    round: &Round,
    trail: &mut [u8],
    budget: u64,
)
    requires { CanWriteTrail g round.now binomials.now start.now labels.now (length trail.old) budget }
    ensures { trail.new ≡ front (whole_trail (problem_from g start.now labels.now))
        trail.old }
{
    let mut held = Held::at(start, g.indices);
    pass_recording(g, binomials, labels, round, &mut held, trail, true, budget);
}

// 17, which is put where the first pass came to an end, and then the second pass: whether the trail has room. A run
// without an end stores nothing.
fn stored(
    g: Grid,
    binomials: &[u16; ENTRIES],
    start: &[u16],
    labels: &[u8],
    round: &Round,
    trail: &mut [u8],
    budget: u64,
    finish: Finish,
    bytes: usize,
) -> bool
    requires { HasCounted g round.now binomials.now start.now labels.now budget bytes finish }
    ensures value { result ≡ has_room (problem_from g start.now labels.now)
        (length trail.old) finish }
    ensures trail_after { trail.new ≡ front (stored_at (problem_from g start.now labels.now)
        (length trail.old) finish) trail.old }
{
    match finish {
        Finish::Spent | Finish::Unknown { .. } => true,
        Finish::Ended { .. } => {
            if trail.len() < bytes {
                return false;
            }
            write_trail(g, binomials, start, labels, round, trail, budget);
            true
        }
    }
}

// A run that is refused, which writes nothing.
fn refused(number: u8) -> TrailAnswer
    ensures { result ≡ unwritten (Refused number) }
{
    TrailAnswer {
        run: RunAnswer::Refused(number),
        bytes: 0,
    }
}

// The pass along the path of an accepted table, and its answer. The length of the trail is known only at the end, so a
// first pass counts it and a second one writes.
fn announced(
    g: Grid,
    binomials: &[u16; ENTRIES],
    start: &[u16],
    labels: &[u8],
    answer: &mut [u16],
    trail: &mut [u8],
    budget: u64,
) -> TrailAnswer
    requires { CanRun g binomials.now start.now labels.now answer.old }
    ensures value { let p = answer_of (problem_from g start.now labels.now) budget in
        result ≡ trail_case (problem_from g start.now labels.now)
        (length trail.old) p }
    ensures answer_after { let p = answer_of (problem_from g start.now labels.now) budget in
        answer.new ≡ front (cond (announces result.run) (numbers_of p) []) answer.old }
    ensures trail_after { trail.new ≡ front (cond (announces result.run)
        (whole_trail (problem_from g start.now labels.now)) []) trail.old }
{
    let round = round_of(g);
    let mut held = Held::at(start, g.indices);
    let passed = pass_recording(
        g, binomials, labels, &round, &mut held, trail, false, budget,
    );
    let has_room = stored(
        g,
        binomials,
        start,
        labels,
        &round,
        trail,
        budget,
        passed.finish,
        passed.bytes,
    );
    if !has_room {
        return refused(17);
    }
    let run = announce(g, &round, &held, passed.finish, answer, budget);
    TrailAnswer {
        run,
        bytes: passed.bytes,
    }
}

// Questions 1 to 8, then 9 or 16, then 17, on every input. Refusals write nothing. What is written stands at the front
// of each buffer: as many vertices as the answer says, m numbers each, and as many bytes of the trail.
pub fn run_with_trail(
    sizes: &[u8],
    divisions: &[u16],
    start: &[u16],
    labels: &[u8],
    answer: &mut [u16],
    trail: &mut [u8],
    budget: u64,
) -> TrailAnswer
    ensures answer { result ≡ trail_answer
        (problem_of sizes.now divisions.now start.now labels.now)
        (length answer.old) (length trail.old) budget }
    ensures buffer { answer.new ≡ trail_answer_buffer
        (problem_of sizes.now divisions.now start.now labels.now)
        (length trail.old) budget answer.old }
    ensures trail { trail.new ≡ trail_buffer
        (problem_of sizes.now divisions.now start.now labels.now)
        (length answer.old) budget trail.old }
{
    let made = Grid::new(sizes, divisions);
    let code = made.code;
    let g = made.grid;
    if code != 0 {
        return refused(code);
    }
    let number = first_run_no(g, start, labels, answer.len());
    if number != 0 {
        return refused(number);
    }
    let mut binomials = [0u16; ENTRIES];
    positions::binomials(g, &mut binomials);
    announced(g, &binomials, start, labels, answer, trail, budget)
}
