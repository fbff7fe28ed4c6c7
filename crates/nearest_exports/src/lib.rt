// The run that reports where the path came nearest, for programs in C and Rust.
#![tactic(auto)]

ghost use Rattle.std.specs.Prelude.{◌≡◌, ◌≤◌, length};
ghost use Rattle.combinatorics.specs.Front.{front};
ghost use Rattle.place.specs.Problem.{problem_of};
ghost use Rattle.nearest.specs.Report.{near_answer_buffer, list_buffer, report_of};
ghost use Rattle.nearest_exports.specs.Near.{near_facts};
ghost use Rattle.finder.specs.Numbers.{run_facts, run_number};

use finder::put_answer;
use nearest::Vertex;

// The position and the count to the front of their buffer, where a vertex is reported.
fn put_nearest(found: Option<Vertex>, near: &mut [u64])
    requires { 2 ≤ length near.old }
    ensures { near.new ≡ front (near_facts found) near.old }
{
    if let Some(Vertex { position, listed }) = found {
        near[..2].copy_from_slice(&[position as u64, listed as u64]);
    }
}

// A run with a point w, a distance and a list: 0 at an end, else the refusal's number. The facts are the run's. At an
// end `near` has the position of the nearest visited vertex and the number of positions in the list.
pub fn leveretplate_nearest(
    sizes: &[u8],
    divisions: &[u16],
    start: &[u16],
    labels: &[u8],
    answer: &mut [u16],
    budget: u64,
    w: &[u16],
    distance: u64,
    list: &mut [u16],
    facts: &mut [u64; 5],
    near: &mut [u64; 2],
) -> u8
    ensures number { let p = problem_of
        sizes.now divisions.now start.now labels.now in
        let found = report_of p w.now distance
        (length answer.old) (length list.old) budget in
        result ≡ run_number found.run }
    ensures facts { let p = problem_of
        sizes.now divisions.now start.now labels.now in
        let found = report_of p w.now distance
        (length answer.old) (length list.old) budget in
        facts.new ≡ front (run_facts found.run) facts.old }
    ensures near { let p = problem_of
        sizes.now divisions.now start.now labels.now in
        let found = report_of p w.now distance
        (length answer.old) (length list.old) budget in
        near.new ≡ front (near_facts found.nearest) near.old }
    ensures answer { let p = problem_of
        sizes.now divisions.now start.now labels.now in
        answer.new
        ≡ near_answer_buffer p w.now (length list.old) budget answer.old }
    ensures list { let p = problem_of
        sizes.now divisions.now start.now labels.now in
        list.new
        ≡ list_buffer p w.now distance (length answer.old) budget list.old }
{
    let report = nearest::run(
        sizes, divisions, start, labels, answer, budget, w, distance, list,
    );
    put_nearest(report.nearest, near);
    put_answer(report.run, facts)
}
