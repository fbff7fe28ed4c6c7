// The indices that are labels of the points or belong to their U, and the first block that has all of its own.
ghost use Rattle.std.specs.Prelude.{true, ◌≡◌, ◌-◌, ◌≤◌, take};
ghost use Rattle.combinatorics.specs.Lists.{all, up_from};
ghost use Rattle.grid_points.specs.Grid.{is_grid_point};
ghost use Rattle.grid.specs.Made.{IsMade, shape};
ghost use Rattle.rules.specs.Mask.{bit};
ghost use Rattle.place.specs.Problem.{label};
ghost use Rattle.check_simplices.specs.Simplices.{labelled_by};
ghost use Rattle.check_chains.specs.Listed.{listed, Listed};
ghost use Rattle.label_table.specs.Labels.{label_byte, label_of};
ghost use Rattle.positions.specs.Binomials.{HasBinomials};
ghost use Rattle.checker.specs.Check.{check_case};
ghost use Rattle.checker.specs.Covered.{IsCovered, first_whole, Labelled, with_label};

use crate::CheckAnswer;
use arrays::{add, has, padded, zeros};
use grid::Grid;
use label_table::read_at;
use positions::ENTRIES;

// The set with the index that a label names, or as it is where there is no label.
fn with_label(set: u16, label: Option<u8>) -> u16
    requires { (label ≡ label_of (label_byte label)) × (label_byte label ≤ 16) }
    ensures { result ≡ with_label set (label_byte label) }
{
    match label {
        Some(byte) => add(set, usize::from(byte) - 1),
        None => set,
    }
}

// The label of a grid point, which stands at the front; its position is the one to which no steps lead.
fn label_at(g: Grid, binomials: &[u16; ENTRIES], labels: &[u8], y: &[u16; 16]) -> Option<u8>
    requires made { IsMade g × HasBinomials (shape g) binomials.now }
    requires labelled { Labelled g labels.now × (is_grid_point (shape g) (take g.indices y.now) ≡ true) }
    ensures value { (result ≡ label_of (label_byte result)) × (label_byte result ≤ 16) }
    ensures result_value { label_byte result ≡ label (labelled_by (shape g) labels.now)
        (take g.indices y.now) }
{
    let steps = [16u16; 16];
    let position = positions::position(g, binomials, y, &steps);
    read_at(labels, position)
}

// The points are taken from the last to the first.
pub fn covered(
    g: Grid,
    binomials: &[u16; ENTRIES],
    labels: &[u8],
    numbers: &[u16],
    count: usize,
) -> u16
    requires { Listed g count numbers.now × Labelled g labels.now × HasBinomials (shape g) binomials.now }
    ensures { IsCovered (shape g) labels.now (listed g.indices count numbers.now) result }
{
    let m = g.indices;
    let mut labelled: u16 = 0;
    let mut zero: u16 = 65535;
    for k in (0..count).rev() {
        let at = k * m;
        let y = padded(&numbers[at..at + m], m);
        labelled = with_label(labelled, label_at(g, binomials, labels, &y));
        zero &= zeros(&y, m);
    }
    labelled | zero
}

// Whether the set has all indices from first up to end.
fn has_all(set: u16, first: usize, end: usize) -> bool
    requires { end ≤ 16 }
    ensures { result ≡ all (bit set) (up_from first (end - first)) }
{
    (first..end).all(|h| has(set, h))
}

// The first block whose indices the set has all.
pub fn first_whole(g: Grid, set: u16) -> CheckAnswer
    requires { IsMade g }
    ensures { result ≡ check_case (first_whole (shape g) set) }
{
    for j in 0..g.blocks {
        let first = usize::from(g.firsts[j]);
        if has_all(set, first, first + usize::from(g.sizes[j])) {
            return CheckAnswer::Yes(j as u8 + 1);
        }
    }
    CheckAnswer::No
}
