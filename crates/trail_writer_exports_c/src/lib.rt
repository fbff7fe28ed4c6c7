// The call that writes a trail, exported to C under its name, with the promises of the library's own.
#![tactic(auto)]

ghost use Rattle.std.specs.Prelude.{◌≡◌, length};
ghost use Rattle.combinatorics.specs.Front.{front};
ghost use Rattle.place.specs.Problem.{problem_of};
ghost use Rattle.finder.specs.Numbers.{run_facts, run_number};
ghost use Rattle.trail_writer.specs.Writing.{trail_answer_buffer, trail_answer, trail_buffer};
ghost use Rattle.trail_writer_exports.specs.Written.{bytes_written};

// A run with a trail: 0 at an end, else the refusal's number. The facts are the run's, and `bytes` is how many bytes of
// the trail are written, which only an end sets.
#[unsafe(no_mangle)]
pub extern "C" fn leveretplate_run_with_trail(
    sizes: &[u8],
    divisions: &[u16],
    start: &[u16],
    labels: &[u8],
    answer: &mut [u16],
    budget: u64,
    trail: &mut [u8],
    facts: &mut [u64; 5],
    bytes: &mut u64,
) -> u8
    ensures number { let p = problem_of
        sizes.now divisions.now start.now labels.now in
        let found = trail_answer p (length answer.old) (length trail.old) budget in
        result ≡ run_number found.run }
    ensures facts { let p = problem_of
        sizes.now divisions.now start.now labels.now in
        let found = trail_answer p (length answer.old) (length trail.old) budget in
        facts.new ≡ front (run_facts found.run) facts.old }
    ensures bytes { let p = problem_of
        sizes.now divisions.now start.now labels.now in
        let found = trail_answer p (length answer.old) (length trail.old) budget in
        bytes.new ≡ bytes_written found bytes.old }
    ensures answer { let p = problem_of
        sizes.now divisions.now start.now labels.now in
        answer.new ≡ trail_answer_buffer p (length trail.old) budget answer.old }
    ensures trail { let p = problem_of
        sizes.now divisions.now start.now labels.now in
        trail.new ≡ trail_buffer p (length answer.old) budget trail.old }
{
    trail_writer_exports::leveretplate_run_with_trail(
        sizes, divisions, start, labels, answer, budget, trail, facts, bytes,
    )
}
