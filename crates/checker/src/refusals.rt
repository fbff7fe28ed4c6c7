// Questions 6, 7 and 19.
ghost use Rattle.std.specs.Prelude.{◌≡◌, ◌<◌, ◌/◌, length};
ghost use Rattle.combinatorics.specs.Lists.{all};
ghost use Rattle.questions.specs.Questions.{first_no};
ghost use Rattle.grid_points.specs.Grid.{is_grid_point};
ghost use Rattle.grid.specs.Made.{IsMade, shape};
ghost use Rattle.check_chains.specs.Listed.{listed, HasPoints};
ghost use Rattle.checker.specs.Check.{list_questions, question19};

use grid::Grid;
use label_table::all_at_most;

// Whether the first points are points of the grid.
fn all_on_grid(g: Grid, numbers: &[u16], count: usize) -> bool
    requires { HasPoints g count numbers.now }
    ensures { result ≡ all (is_grid_point (shape g)) (listed g.indices count numbers.now) }
{
    let m = g.indices;
    for k in 0..count {
        let at = k * m;
        if !g.is_grid_point(&numbers[at..at + m]) {
            return false;
        }
    }
    true
}

// How many whole points of m numbers a list of this length has. They are counted, as no `for` can: the checker divides
// nowhere.
pub fn whole_points(length: usize, m: usize) -> usize
    requires { 0 < m }
    ensures { result ≡ length / m }
{
    let mut count: usize = 0;
    let mut left = length;
    while m <= left {
        left -= m;
        count += 1;
    }
    count
}

// Question 19: is the list 1 to n + 1 whole points of the grid?
fn is_list(g: Grid, numbers: &[u16]) -> bool
    requires { IsMade g }
    ensures { result ≡ (question19 (shape g) numbers.now).answered_yes }
{
    let m = g.indices;
    let length = numbers.len();
    if length < 1 {
        return false;
    }
    let count = whole_points(length, m);
    if count * m != length || m - g.blocks + 1 < count {
        return false;
    }
    all_on_grid(g, numbers, count)
}

// The number of the first that is answered no, or 0, on a grid that is accepted.
pub fn first_check_no(g: Grid, labels: &[u8], numbers: &[u16]) -> u8
    requires { IsMade g }
    ensures { result ≡ first_no (list_questions (shape g) labels.now numbers.now) }
{
    let m = g.indices;
    if labels.len() != g.points {
        return 6;
    }
    if !all_at_most(labels, m as u8) {
        return 7;
    }
    if !is_list(g, numbers) {
        return 19;
    }
    0
}
