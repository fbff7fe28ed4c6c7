// The calls of runs, games, refinements, sheets and the shelf, exported to C under their names, each with the promises of
// the library's own.
#![tactic(auto)]

ghost use Rattle.std.specs.Prelude.{◌≡◌, length};
ghost use Rattle.combinatorics.specs.Front.{front};
ghost use Rattle.place.specs.Problem.{problem_of};
ghost use Rattle.finder.specs.Run.{run_answer, run_buffer};
ghost use Rattle.game_labels.specs.Labelling.{label_answer, label_buffer};
ghost use Rattle.printer.specs.Printed.{sheet_of};
ghost use Rattle.finder.specs.Numbers.{run_facts, run_number};
ghost use Rattle.exports.specs.Numbers.{label_count, label_number};
ghost use Rattle.boundary.specs.Call.{boundary_answer, boundary_buffer};
ghost use Rattle.grid_points.specs.Grid.{lent};
ghost use Rattle.checker.specs.Check.{check_answer};
ghost use Rattle.exports.specs.Check.{check_number};
ghost use Rattle.refinement.specs.Answer.{answer_left, labels_left, lent_game, refine_answer};
ghost use Rattle.exports.specs.Refine.{refined_facts};
ghost use Rattle.shelf.specs.Calls.{asking, filing, list_filed};
ghost use Rattle.exports.specs.Shelf.{current_number, current_sheet, filed_count, filed_number};

use text::SHEET_BYTES;

// The run on a label table: 0 at an end, else the refusal's number. The facts are the places, the labels read, the kind
// of end (0 place, 1 facet), the block and the number of vertices; of the refusals 9 writes one, the places, and 16
// two, the places before and the position of the label that is not yet known.
#[unsafe(no_mangle)]
pub extern "C" fn leveretplate_run(
    sizes: &[u8],
    divisions: &[u16],
    start: &[u16],
    labels: &[u8],
    answer: &mut [u16],
    budget: u64,
    facts: &mut [u64; 5],
) -> u8
    ensures number { let p = problem_of
        sizes.now divisions.now start.now labels.now in
        result ≡ run_number (run_answer p (length answer.old) budget) }
    ensures facts { let p = problem_of
        sizes.now divisions.now start.now labels.now in
        let found = run_answer p (length answer.old) budget in
        facts.new ≡ front (run_facts found) facts.old }
    ensures buffer { let p = problem_of
        sizes.now divisions.now start.now labels.now in
        answer.new ≡ run_buffer p budget answer.old }
{
    exports::leveretplate_run(sizes, divisions, start, labels, answer, budget, facts)
}

// The labels of a game: 0 where they are written, with their count, else the refusal's number.
#[unsafe(no_mangle)]
pub extern "C" fn leveretplate_label(
    sizes: &[u8],
    divisions: &[u16],
    losses: &[u16],
    labels: &mut [u8],
    count: &mut u64,
) -> u8
    ensures number { result ≡ label_number (label_answer
        sizes.now divisions.now losses.now labels.old) }
    ensures count { count.new ≡ label_count (label_answer
        sizes.now divisions.now losses.now labels.old)
        count.old }
    ensures buffer { labels.new ≡ label_buffer
        sizes.now divisions.now losses.now labels.old }
{
    exports::leveretplate_label(sizes, divisions, losses, labels, count)
}

// The sheet of a slip: its length.
#[unsafe(no_mangle)]
pub extern "C" fn leveretplate_sheet(slip: &[u8], sheet: &mut [u8; SHEET_BYTES]) -> usize
    ensures { (result ≡ length (sheet_of slip.now))
        × (sheet.new ≡ front (sheet_of slip.now) sheet.old) }
{
    exports::leveretplate_sheet(slip, sheet)
}

// The boundary table of an old one: 0 where it is written, with the count of its bytes, else the refusal's number.
#[unsafe(no_mangle)]
pub extern "C" fn leveretplate_boundary(
    sizes: &[u8],
    divisions: &[u16],
    old: &[u8],
    labels: &mut [u8],
    count: &mut u64,
) -> u8
    ensures number { result ≡ label_number (boundary_answer
        sizes.now divisions.now old.now labels.old) }
    ensures count { count.new ≡ label_count (boundary_answer
        sizes.now divisions.now old.now labels.old)
        count.old }
    ensures buffer { labels.new ≡ boundary_buffer
        sizes.now divisions.now old.now labels.old }
{
    exports::leveretplate_boundary(sizes, divisions, old, labels, count)
}

// What the checker says of the points, m numbers each one after another.
#[unsafe(no_mangle)]
pub extern "C" fn leveretplate_check(
    sizes: &[u8],
    divisions: &[u16],
    labels: &[u8],
    points: &[u16],
) -> u16
    ensures { result ≡ check_number (check_answer (lent sizes.now divisions.now)
        labels.now points.now) }
{
    exports::leveretplate_check(sizes, divisions, labels, points)
}

// A game on finer and finer grids: 0 where all levels were run, else the refusal's number. The facts are five for each
// level: the places, the labels read, the kind of end (0 place, 1 facet), the block and the number of vertices.
#[unsafe(no_mangle)]
pub extern "C" fn leveretplate_refine(
    sizes: &[u8],
    divisions: &[u16],
    start: &[u16],
    losses: &[u16],
    factor: usize,
    levels: usize,
    labels: &mut [u8],
    answer: &mut [u16],
    facts: &mut [u64; 40],
) -> u8
    ensures number { let game = lent_game (lent sizes.now divisions.now)
        start.now losses.now factor in
        result ≡ (refine_answer game levels labels.old answer.old).code }
    ensures labels { let game = lent_game (lent sizes.now divisions.now)
        start.now losses.now factor in
        labels.new ≡ labels_left game levels labels.old answer.old }
    ensures answer { let game = lent_game (lent sizes.now divisions.now)
        start.now losses.now factor in
        answer.new ≡ answer_left game levels labels.old answer.old }
    ensures facts { let game = lent_game (lent sizes.now divisions.now)
        start.now losses.now factor in
        let found = refine_answer game levels labels.old answer.old in
        facts.new ≡ front (refined_facts found) facts.old }
{
    exports::leveretplate_refine(
        sizes, divisions, start, losses, factor, levels, labels, answer, facts,
    )
}

// Files a sheet: 0 and the new count of sheets, else the refusal's number.
#[unsafe(no_mangle)]
pub extern "C" fn leveretplate_file(
    list: &mut [u16],
    count: usize,
    named: usize,
    to: &mut usize,
) -> u8
    ensures number { result ≡ filed_number (filing list.old count named) }
    ensures count { to.new ≡ filed_count (filing list.old count named) to.old }
    ensures list { list.new ≡ list_filed list.old count named }
{
    exports::leveretplate_file(list, count, named, to)
}

// Asks for a sheet: 0 and the current one, else the refusal's number.
#[unsafe(no_mangle)]
pub extern "C" fn leveretplate_current(
    list: &[u16],
    count: usize,
    sheet: usize,
    to: &mut usize,
) -> u8
    ensures number { result ≡ current_number (asking list.now count sheet) }
    ensures sheet { to.new ≡ current_sheet (asking list.now count sheet) to.old }
{
    exports::leveretplate_current(list, count, sheet, to)
}
