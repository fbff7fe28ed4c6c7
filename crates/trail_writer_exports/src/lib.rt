// The run that writes a trail, for programs in C and Rust.
#![tactic(auto)]

ghost use Rattle.std.specs.Prelude.{◌≡◌, length};
ghost use Rattle.combinatorics.specs.Front.{front};
ghost use Rattle.place.specs.Problem.{problem_of};
ghost use Rattle.finder.specs.Numbers.{run_facts, run_number};
ghost use Rattle.trail_writer.specs.Writing.{trail_answer_buffer, trail_answer, trail_buffer};
ghost use Rattle.trail_writer_exports.specs.Written.{bytes_written};

use finder::{RunAnswer, put_answer};

// How many bytes of the trail are written; the old number where none are.
fn bytes_written(found: trail_writer::TrailAnswer, old: u64) -> u64
    ensures { result ≡ bytes_written found old }
{
    match found.run {
        RunAnswer::Refused(_) | RunAnswer::Spent(_) | RunAnswer::Unknown { .. } => old,
        RunAnswer::End { .. } => found.bytes as u64,
    }
}

// A run with a trail: 0 at an end, else the refusal's number. The facts are the run's, and `bytes` is how many bytes of
// the trail are written, which only an end sets.
pub fn leveretplate_run_with_trail(
    sizes: &[u8],
    divisions: &[u16],
    start: &[u16],
    labels: &[u8],
    answer: &mut [u16],
    budget: u64,
    trail: &mut [u8],
    facts: &mut [u64; 5],
    bytes: &mut u64,
) -> u8
    ensures number { let p = problem_of
        sizes.now divisions.now start.now labels.now in
        let found = trail_answer p (length answer.old) (length trail.old) budget in
        result ≡ run_number found.run }
    ensures facts { let p = problem_of
        sizes.now divisions.now start.now labels.now in
        let found = trail_answer p (length answer.old) (length trail.old) budget in
        facts.new ≡ front (run_facts found.run) facts.old }
    ensures bytes { let p = problem_of
        sizes.now divisions.now start.now labels.now in
        let found = trail_answer p (length answer.old) (length trail.old) budget in
        bytes.new ≡ bytes_written found bytes.old }
    ensures answer { let p = problem_of
        sizes.now divisions.now start.now labels.now in
        answer.new ≡ trail_answer_buffer p (length trail.old) budget answer.old }
    ensures trail { let p = problem_of
        sizes.now divisions.now start.now labels.now in
        trail.new ≡ trail_buffer p (length answer.old) budget trail.old }
{
    let found = trail_writer::run_with_trail(
        sizes, divisions, start, labels, answer, trail, budget,
    );
    *bytes = bytes_written(found, *bytes);
    put_answer(found.run, facts)
}
