// The grid that accepted sizes and divisions make.
ghost use Rattle.std.specs.Prelude.{[], ◌≡◌, ◌≤◌, ◌<◌, length};
ghost use Rattle.combinatorics.specs.Lists.{sum};
ghost use Rattle.questions.specs.Questions.{first_no};
ghost use Rattle.grid.specs.Build.{BlocksUnmarked, BlocksMarked, BlocksCounted, IndicesUnmarked, IndicesMarked};
ghost use Rattle.grid_points.specs.Grid.{Grid as Shape, block_in, lent, num_points};
ghost use Rattle.grid.specs.Made.{grid_of};
ghost use Rattle.grid_points.specs.Questions.{grid_questions};

use crate::Grid;
use grid_counts::{block_count, first_index, index_after, index_before};

// The block of index h.
fn block_of(sizes: &[u8], h: usize) -> usize
    requires { h < sum sizes.now }
    ensures { result ≡ block_in sizes.now h }
{
    let mut left = h;
    for (j, size) in sizes.iter().enumerate() {
        let size = usize::from(*size);
        if left < size {
            return j;
        }
        left -= size;
    }
    unreachable!()
}

// What is known of each block: the sizes and divisions themselves, first indices and counts.
fn mark_blocks(
    sizes: &[u8],
    divisions: &[u16],
    own_sizes: &mut [u8; 6],
    own_divisions: &mut [u16; 6],
    firsts: &mut [u8; 6],
    counts: &mut [u16; 6],
)
    requires divisions_value { first_no (grid_questions (lent sizes.now divisions.now)) ≡ 0 }
    requires blocks_unmarked { BlocksUnmarked own_sizes.old own_divisions.old firsts.old counts.old }
    ensures { let g = lent sizes.now divisions.now in
        BlocksMarked g own_sizes.new own_divisions.new firsts.new
        counts.new }
{
    own_sizes[..sizes.len()].copy_from_slice(sizes);
    own_divisions[..divisions.len()].copy_from_slice(divisions);
    for (j, size) in sizes.iter().enumerate() {
        firsts[j] = first_index(sizes, j) as u8;
        counts[j] = block_count(usize::from(*size), usize::from(divisions[j])) as u16;
    }
}

// P from the counts that are marked: question 4 has shown that it fits.
fn product(counts: &[u16; 6], blocks: usize) -> usize
    requires { (g : Shape) × BlocksCounted g counts.now blocks }
    ensures { (g : Shape) → BlocksCounted g counts.now blocks → result ≡ num_points g }
{
    let mut product: usize = 1;
    for count in &counts[..blocks] {
        product *= usize::from(*count);
    }
    product
}

// What is known of each index: its block, and its neighbours round the block.
fn mark_indices(
    sizes: &[u8],
    indices: usize,
    block: &mut [u8; 16],
    previous: &mut [u8; 16],
    next: &mut [u8; 16],
)
    requires indices_value { (indices ≡ sum sizes.now) × (indices ≤ 16) × (length sizes.now ≤ 6) }
    requires indices_unmarked { IndicesUnmarked block.old previous.old next.old }
    ensures { let g = lent sizes.now [] in
        IndicesMarked g block.new previous.new next.new }
{
    for h in 0..indices {
        let j = block_of(sizes, h);
        let first = first_index(sizes, j);
        let size = usize::from(sizes[j]);
        block[h] = j as u8;
        previous[h] = index_before(h, first, size);
        next[h] = index_after(h, first, size);
    }
}

pub fn built(sizes: &[u8], divisions: &[u16]) -> Grid
    requires { first_no (grid_questions (lent sizes.now divisions.now)) ≡ 0 }
    ensures { result ≡ grid_of (lent sizes.now divisions.now) }
{
    let mut own_sizes = [0u8; 6];
    let mut own_divisions = [0u16; 6];
    let mut firsts = [0u8; 6];
    let mut counts = [0u16; 6];
    mark_blocks(
        sizes,
        divisions,
        &mut own_sizes,
        &mut own_divisions,
        &mut firsts,
        &mut counts,
    );
    let blocks = sizes.len();
    let indices = first_index(sizes, blocks);
    let mut block = [0u8; 16];
    let mut previous = [0u8; 16];
    let mut next = [0u8; 16];
    mark_indices(sizes, indices, &mut block, &mut previous, &mut next);
    let points = product(&counts, blocks);
    Grid {
        sizes: own_sizes,
        divisions: own_divisions,
        firsts,
        counts,
        block,
        previous,
        next,
        blocks,
        indices,
        points,
    }
}
