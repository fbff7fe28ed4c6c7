// A game as it is lent: its grid, what is kept of the grid, and its loss table.

// The sizes and divisions of the blocks, the first index of each block, the block of each index, how many profiles the
// opponents of each player have from each block on, and the losses.
#[derive(Clone, Copy)]
pub struct Game<'a> {
    pub sizes: &'a [u8],
    pub divisions: &'a [u16],
    pub firsts: &'a [u8; 6],
    pub owners: &'a [u8; 16],
    pub rests: &'a [usize; 36],
    pub losses: &'a [u16],
}
