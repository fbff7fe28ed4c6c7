// Blocks, indices and grid points. Indices and blocks count from 0.
#![tactic(auto)]

ghost use Rattle.std.specs.Prelude.{true, ◌≡◌, ◌<◌};
ghost use Rattle.grid_points.specs.Grid.{bound, is_grid_point, block_of, lent};
ghost use Rattle.grid.specs.Made.{made_of, no_grid, shape, IsMade};

mod build;
mod grid_questions;

// A grid with what is looked up at every move. At the front of each array stand the numbers of the
// blocks or of the indices, 0 behind.
#[derive(Clone, Copy)]
pub struct Grid {
    pub sizes: [u8; 6],
    pub divisions: [u16; 6],
    // the first index of each block
    pub firsts: [u8; 6],
    // how many lists of a block's size add up to its division
    pub counts: [u16; 6],
    // of each index: its block, and the index before and after it round the block
    pub block: [u8; 16],
    pub previous: [u8; 16],
    pub next: [u8; 16],
    // N, m and P
    pub blocks: usize,
    pub indices: usize,
    pub points: usize,
}

// The number of the first of questions 1 to 4 that is answered no, or 0 and the grid.
#[derive(Clone, Copy)]
pub struct Made {
    pub code: u8,
    pub grid: Grid,
}

// What follows `new` is for a grid that it made, and a caller of ours shows that.
impl Grid {
    pub const MAX_BLOCKS: usize = 6;

    pub const MIN_SIZE: u8 = 2;

    pub const MAX_INDICES: usize = 16;

    pub const MAX_POINTS: usize = grid_counts::MAX_POINTS;

    // What stands beside a refusal.
    pub fn none() -> Grid
        ensures { result ≡ no_grid }
    {
        Grid {
            sizes: [0u8; 6],
            divisions: [0u16; 6],
            firsts: [0u8; 6],
            counts: [0u16; 6],
            block: [0u8; 16],
            previous: [0u8; 16],
            next: [0u8; 16],
            blocks: 0,
            indices: 0,
            points: 0,
        }
    }

    // Questions 1 to 4 about any sizes and divisions.
    pub fn new(sizes: &[u8], divisions: &[u16]) -> Made
        ensures { result ≡ made_of (lent sizes.now divisions.now) }
    {
        let code = grid_questions::first_grid_no(sizes, divisions);
        if code == 0 {
            let grid = build::built(sizes, divisions);
            Made { code, grid }
        } else {
            let grid = Grid::none();
            Made { code, grid }
        }
    }

    // P times the sum 1 + m + m (m - 1) + .., whose last term has n factors.
    pub fn bound(self) -> u64
        requires { IsMade self }
        ensures { result ≡ bound (shape self) }
    {
        self.points as u64
            * grid_counts::terms(self.indices as u64, (self.indices - self.blocks) as u64)
    }

    // Question 5: has y m numbers, each block adding up to its division?
    pub fn is_grid_point(self, y: &[u16]) -> bool
        requires { IsMade self }
        ensures { result ≡ is_grid_point (shape self) y.now }
    {
        if y.len() != self.indices {
            return false;
        }
        for j in 0..self.blocks {
            let total = grid_counts::total(
                y,
                usize::from(self.firsts[j]),
                usize::from(self.sizes[j]),
            );
            if total != usize::from(self.divisions[j]) {
                return false;
            }
        }
        true
    }

    // The block of index h.
    pub fn block_of(self, h: usize) -> usize
        requires { IsMade self × (h < self.indices) }
        ensures { result ≡ block_of (shape self) h }
    {
        usize::from(self.block[h])
    }
}
