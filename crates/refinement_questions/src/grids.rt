// The grids of the levels.
ghost use Rattle.std.specs.Prelude.{true, false, ◌≡◌, ◌≤◌, ◌<◌};
ghost use Rattle.grid_points.specs.Grid.{lent};
ghost use Rattle.grid.specs.Made.{IsMade, made_of, shape};
ghost use Rattle.refinement_levels.specs.Levels.{finer};
ghost use Rattle.refinement_questions.specs.Grids.{AreMade, AreNext};

use grid::{Grid, Made};

// The divisions of the next level at the front, where 16 bits hold them all.
#[derive(Clone, Copy)]
struct Divisions {
    fit: bool,
    numbers: [u16; 6],
}

// The grids of the levels at the front; or the number of the first of questions 1 to 4 that is answered no.
#[derive(Clone, Copy)]
pub struct Grids {
    pub code: u8,
    pub grids: [Grid; 8],
}

// Each division times k. It may need 20 bits.
fn next_divisions(grid: Grid, factor: usize) -> Divisions
    requires { IsMade grid × (factor ≤ 10) }
    ensures { AreNext grid factor result }
{
    let mut numbers = [0u16; 6];
    for j in 0..grid.blocks {
        let product = factor * usize::from(grid.divisions[j]);
        if 65535 < product {
            return Divisions {
                fit: false,
                numbers,
            };
        }
        numbers[j] = product as u16;
    }
    Divisions { fit: true, numbers }
}

// The grid of the next level. A division that 16 bits do not hold is one that question 4 refuses.
fn next_grid(grid: Grid, factor: usize) -> Made
    requires { IsMade grid × (1 ≤ factor) × (factor ≤ 10) }
    ensures { result ≡ made_of (finer factor (shape grid)) }
{
    let next = next_divisions(grid, factor);
    if !next.fit {
        return Made {
            code: 4,
            grid: Grid::none(),
        };
    }
    Grid::new(&grid.sizes[..grid.blocks], &next.numbers[..grid.blocks])
}

// Questions 1 to 4 of each level in turn, whose grids are made.
pub fn made_levels(sizes: &[u8], divisions: &[u16], factor: usize, levels: usize) -> Grids
    requires le_factor { (1 ≤ factor) × (factor ≤ 10) }
    requires le_levels { (1 ≤ levels) × (levels ≤ 8) }
    ensures { AreMade (lent sizes.now divisions.now) factor levels result }
{
    let mut grids = [Grid::none(); 8];
    let first = Grid::new(sizes, divisions);
    let mut made = first.grid;
    if first.code != 0 {
        return Grids {
            code: first.code,
            grids,
        };
    }
    grids[0] = made;
    for i in 1..levels {
        let next = next_grid(made, factor);
        if next.code != 0 {
            return Grids {
                code: next.code,
                grids,
            };
        }
        made = next.grid;
        grids[i] = made;
    }
    Grids { code: 0, grids }
}
