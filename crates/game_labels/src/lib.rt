// Games and their labels. Players and strategies are the grid's blocks and indices, which count from 0.
#![tactic(auto)]

ghost use Rattle.std.specs.Prelude.{◌≡◌, length};
ghost use Rattle.grid.specs.Made.{IsMade, shape};
ghost use Rattle.game_losses.specs.Game.{labels};
ghost use Rattle.game_losses.specs.Table.{IsTable};
ghost use Rattle.game_labels.specs.Labelling.{label_answer, label_buffer};

use game_losses::{in_range, num_profiles};
use game_weighed::{Game, rests};
use grid::Grid;

mod game;

#[derive(Clone, Copy)]
pub enum Labelled {
    // the number of the first question answered no
    Refused(u8),
    // how many bytes of the label buffer were written
    Written(usize),
}

// The labels of the game with these losses at all points of the grid, into a buffer of as many bytes.
pub fn label(sizes: &[u8], divisions: &[u16], losses: &[u16], buffer: &mut [u8]) -> Labelled
    ensures value { result
        ≡ label_answer sizes.now divisions.now losses.now buffer.old }
    ensures buffer_after { buffer.new
        ≡ label_buffer sizes.now divisions.now losses.now buffer.old }
{
    let made = Grid::new(sizes, divisions);
    if made.code != 0 {
        return Labelled::Refused(made.code);
    }
    let grid = made.grid;
    if losses.len() != sizes.len() * num_profiles(sizes) {
        return Labelled::Refused(10);
    }
    if !in_range(losses) {
        return Labelled::Refused(11);
    }
    if buffer.len() != grid.points {
        return Labelled::Refused(12);
    }
    label_on(grid, losses, buffer);
    Labelled::Written(grid.points)
}

// The same behind its questions, on a grid that was made: the printer has asked them of a slip.
pub fn label_on(grid: Grid, losses: &[u16], buffer: &mut [u8])
    requires { IsMade grid × IsTable (shape grid) losses.now × (length buffer.old ≡ grid.points) }
    ensures { buffer.new ≡ labels (shape grid) losses.now }
{
    let sizes = &grid.sizes[..grid.blocks];
    let divisions = &grid.divisions[..grid.blocks];
    let rests = rests(sizes);
    let game = Game {
        sizes,
        divisions,
        firsts: &grid.firsts,
        owners: &grid.block,
        rests: &rests,
        losses,
    };
    game::write_labels(&game, grid.divisions, grid.indices, buffer);
}
