// The points of a first point and an order, their positions, and their labels, which are read in one function.
ghost use Rattle.positions.specs.Binomials.{Measured};
ghost use Rattle.rules.specs.Ready.{IndicesBelow};
ghost use Rattle.rules.specs.Moves.{source};
ghost use Rattle.walk_recogniser.specs.Pieces.{CanMark, CanReadLabels, IsMark, LabelsPut, Marked, OnGrid};

use arrays::{Held, first_outside, position_at};
use grid::Grid;
use label_table::byte_at;
use positions::ENTRIES;
use rules::Round;

// The mark of the point with these counts of steps: its position, above the lowest 8 bits, where its label has room.
fn mark_at(g: Grid, binomials: &[u16; ENTRIES], first: &[u16; 16], steps: &[u16; 16]) -> u32
    requires { Measured g binomials.now × OnGrid g first.now steps.now }
    ensures { IsMark g first.now steps.now result }
{
    let at = positions::position(g, binomials, first, steps);
    at as u32 * 256
}

// The positions of the points, one after the other by the first n steps of the order, in marks without labels, if each
// step has 1 to take. The steps are counted from 16 on, so that no count falls below 0.
pub fn mark_points(
    g: Grid,
    binomials: &[u16; ENTRIES],
    round: &Round,
    held: &Held,
    u: u16,
    n: usize,
) -> Option<[u32; 16]>
    requires measured { Measured g binomials.now × IndicesBelow round.now.previous }
    requires can_mark { CanMark g (source round.now u) held.now n }
    ensures { Marked g held.now n result }
{
    let mut marks = [0u32; 16];
    let mut steps = [16u16; 16];
    for k in 0..n {
        marks[k] = mark_at(g, binomials, &held.first, &steps);
        let h = held.order[k] as usize;
        let b = first_outside(&round.previous, &round.sizes, u, h);
        if usize::from(held.first[b]) + usize::from(steps[b]) <= 16 {
            return None;
        }
        steps[h] += 1;
        steps[b] -= 1;
    }
    marks[n] = mark_at(g, binomials, &held.first, &steps);
    Some(marks)
}

// Reads the labels of the first n + 1 points into their marks.
pub fn read_labels(table: &[u8], n: usize, marks: &mut [u32; 16])
    requires { CanReadLabels table.now marks.old n }
    ensures { LabelsPut table.now n marks.old marks.new }
{
    for k in 0..=n {
        let at = position_at(marks, n, k);
        marks[k] += u32::from(byte_at(table, at));
    }
}
