// The older boundary rule, request 12: the interior keeps its labels, and the boundary has those of rule (1.3).
#![tactic(auto)]

ghost use Rattle.std.specs.Prelude.{◌≡◌};
ghost use Rattle.boundary.specs.Call.{boundary_answer, boundary_buffer};

use game_labels::Labelled;
use grid::Grid;
use label_table::all_at_most;

mod table;

// Writes the new table into a buffer of as many bytes. The old one is not altered.
pub fn boundary(sizes: &[u8], divisions: &[u16], old: &[u8], labels: &mut [u8]) -> Labelled
    ensures answer { result ≡ boundary_answer
        sizes.now divisions.now old.now labels.old }
    ensures buffer { labels.new ≡ boundary_buffer
        sizes.now divisions.now old.now labels.old }
{
    let made = Grid::new(sizes, divisions);
    if made.code != 0 {
        return Labelled::Refused(made.code);
    }
    let grid = made.grid;
    if old.len() != grid.points {
        return Labelled::Refused(6);
    }
    if !all_at_most(old, grid.indices as u8) {
        return Labelled::Refused(7);
    }
    if labels.len() != grid.points {
        return Labelled::Refused(12);
    }
    table::write(grid, old, labels);
    Labelled::Written(grid.points)
}
