// The calls for programs in C and Rust, under the names that the static library defines: the run and what rests on it,
// and the calls that walk no path. Each only names a case of an enum by a number.
#![tactic(auto)]

ghost use Rattle.std.specs.Prelude.{◌≡◌, length};
ghost use Rattle.combinatorics.specs.Front.{front};
ghost use Rattle.place.specs.Problem.{problem_of};
ghost use Rattle.finder.specs.Run.{run_answer, run_buffer};
ghost use Rattle.game_labels.specs.Labelling.{label_answer, label_buffer};
ghost use Rattle.printer.specs.Printed.{sheet_of};
ghost use Rattle.finder.specs.Numbers.{run_facts, run_number};
ghost use Rattle.exports.specs.Numbers.{label_count, label_number};

mod boundary_calls;
mod check_calls;
mod refine_calls;
mod shelf_calls;

pub use boundary_calls::leveretplate_boundary;
pub use check_calls::leveretplate_check;
use finder::put_answer;
use game_labels::Labelled;
pub use refine_calls::leveretplate_refine;
pub use shelf_calls::{leveretplate_current, leveretplate_file};
use text::SHEET_BYTES;

// The run on a label table: 0 at an end, else the refusal's number. The facts are the places, the labels read, the kind
// of end (0 place, 1 facet), the block and the number of vertices; of the refusals 9 writes one, the places, and 16
// two, the places before and the position of the label that is not yet known.
pub fn leveretplate_run(
    sizes: &[u8],
    divisions: &[u16],
    start: &[u16],
    labels: &[u8],
    answer: &mut [u16],
    budget: u64,
    facts: &mut [u64; 5],
) -> u8
    ensures number { let p = problem_of
        sizes.now divisions.now start.now labels.now in
        result ≡ run_number (run_answer p (length answer.old) budget) }
    ensures facts { let p = problem_of
        sizes.now divisions.now start.now labels.now in
        let found = run_answer p (length answer.old) budget in
        facts.new ≡ front (run_facts found) facts.old }
    ensures buffer { let p = problem_of
        sizes.now divisions.now start.now labels.now in
        answer.new ≡ run_buffer p budget answer.old }
{
    let found = finder::run(sizes, divisions, start, labels, answer, budget);
    put_answer(found, facts)
}

// The number of what a labelling answers; the count is stored where labels are written.
fn put_count(found: Labelled, count: &mut u64) -> u8
    ensures { (result ≡ label_number found) × (count.new ≡ label_count found count.old) }
{
    match found {
        Labelled::Refused(number) => number,
        Labelled::Written(written) => {
            *count = written as u64;
            0
        }
    }
}

// The labels of a game: 0 where they are written, with their count, else the refusal's number.
pub fn leveretplate_label(
    sizes: &[u8],
    divisions: &[u16],
    losses: &[u16],
    labels: &mut [u8],
    count: &mut u64,
) -> u8
    ensures number { result ≡ label_number (label_answer
        sizes.now divisions.now losses.now labels.old) }
    ensures count { count.new ≡ label_count (label_answer
        sizes.now divisions.now losses.now labels.old)
        count.old }
    ensures buffer { labels.new ≡ label_buffer
        sizes.now divisions.now losses.now labels.old }
{
    let found = game_labels::label(sizes, divisions, losses, labels);
    put_count(found, count)
}

// The sheet of a slip: its length.
pub fn leveretplate_sheet(slip: &[u8], sheet: &mut [u8; SHEET_BYTES]) -> usize
    ensures { (result ≡ length (sheet_of slip.now))
        × (sheet.new ≡ front (sheet_of slip.now) sheet.old) }
{
    printer::print(slip, sheet)
}
