// Slips: what the bytes say, or the question that refuses them. The printer alone calls what is public here, and shows
// what it asks.
#![tactic(auto)]

ghost use Rattle.std.specs.Prelude.{true, ◌≡◌, ◌≤◌, length};
ghost use Rattle.combinatorics.specs.Front.{front};
ghost use Rattle.grid.specs.Made.{made_of};
ghost use Rattle.slip.specs.Reading.{refused_reading, slip_reading_of, table_named, labels_in, losses_on_slip, Asked};
ghost use Rattle.slip.specs.Reading.{WithLosses};
ghost use Rattle.slip_fields.specs.Slip.{slip_grid, slip_losses, head_length, num_blocks_of, question13, slip_question15};

use grid::{Grid, Made};

mod fields;

// The start's numbers at the front, 0 behind, and the position behind the field.
#[derive(Clone, Copy)]
pub struct Start {
    pub numbers: [u16; 16],
    pub end: usize,
}

// The budget and the position behind the field.
#[derive(Clone, Copy)]
pub struct Budget {
    pub places: u64,
    pub end: usize,
}

// What stands at the end of a slip: labels or losses from a position on, or the number of a game.
#[derive(Clone, Copy)]
pub enum Table {
    LabelsFrom(usize),
    Game(u8),
    LossesFrom(usize),
}

// What a slip says, or the number of the question answered no beside zeros.
#[derive(Clone, Copy)]
pub struct SlipReading {
    pub code: u8,
    pub grid: Grid,
    // the start's numbers at the front, 0 behind
    pub start: [u16; 16],
    pub budget: u64,
    pub table: Table,
}

fn refused(code: u8) -> SlipReading
    ensures { result ≡ refused_reading code }
{
    SlipReading {
        code,
        grid: Grid::none(),
        start: [0u16; 16],
        budget: 0,
        table: Table::LabelsFrom(0),
    }
}

// The grid of the slip's sizes and divisions, with room for the divisions.
fn grid_in(slip: &[u8], divisions: &mut [u16]) -> Made
    requires { (head_length slip.now ≤ length slip.now) × (length divisions.old ≡ num_blocks_of slip.now) }
    ensures { result ≡ made_of (slip_grid slip.now) }
{
    let end = 2 + divisions.len();
    little_endian::words(slip, end, divisions);
    Grid::new(&slip[2..end], divisions)
}

// Questions 1 to 4, for whatever N the byte gives.
fn grid_of(slip: &[u8]) -> Made
    requires { head_length slip.now ≤ length slip.now }
    ensures { result ≡ made_of (slip_grid slip.now) }
{
    let blocks = usize::from(slip[1]);
    let mut divisions = [0u16; 255];
    grid_in(slip, &mut divisions[..blocks])
}

// Question 15.
fn is_known(slip: &[u8], table: Table) -> bool
    requires { ((question13 slip.now).answered_yes ≡ true) × (table ≡ table_named slip.now) }
    ensures { result ≡ (slip_question15 slip.now).answered_yes }
{
    let Table::Game(number) = table else {
        return true;
    };
    let end = 2 + usize::from(slip[1]);
    game_built_in::is_game(number, &slip[2..end])
}

// Questions 14 and 15, of the fields, which begin at a position.
fn read_fields(slip: &[u8], at: usize, grid: Grid) -> SlipReading
    requires { Asked slip.now grid × (at ≡ head_length slip.now) }
    ensures { result ≡ slip_reading_of slip.now }
{
    let Some(start) = fields::start(slip, at, grid) else {
        return refused(14);
    };
    let Some(budget) = fields::budget(slip, start.end, grid) else {
        return refused(14);
    };
    let Some(table) = fields::table(slip, budget.end, grid) else {
        return refused(14);
    };
    if !is_known(slip, table) {
        return refused(15);
    }
    // An array in a field is copied by way of a variable.
    let numbers = start.numbers;
    SlipReading {
        code: 0,
        grid,
        start: numbers,
        budget: budget.places,
        table,
    }
}

// Questions 13, 1 to 4, 14 and 15 about any bytes.
pub fn read(slip: &[u8]) -> SlipReading
    ensures { result ≡ slip_reading_of slip.now }
{
    let Some(at) = fields::head(slip) else {
        return refused(13);
    };
    let made = grid_of(slip);
    if made.code != 0 {
        return refused(made.code);
    }
    read_fields(slip, at, made.grid)
}

// The part of the slip where a reading has the labels.
pub fn labels_of(slip: &[u8], reading: SlipReading) -> &[u8]
    ensures { result.now ≡ labels_in slip.now reading.table }
{
    let Table::LabelsFrom(begin) = reading.table else {
        return &[];
    };
    slip.get(begin..).unwrap_or(&[])
}

// The losses that are brought, to the front of the room, and question 11: how many they are, if it is answered yes.
fn brought(slip: &[u8], begin: usize, reading: SlipReading, room: &mut [u16]) -> Option<usize>
    requires { WithLosses slip.now reading room.old × (reading.table ≡ Table.LossesFrom begin) }
    ensures value { result ≡ losses_on_slip slip.now }
    ensures room_after { room.new ≡ front (slip_losses slip.now) room.old }
{
    let count = (slip.len() - begin) / 2;
    little_endian::words(slip, begin, &mut room[..count]);
    game_losses::in_range(&room[..count]).then_some(count)
}

// The losses of a slip with a game or losses, to the front of the room, and question 11: how many they are, if it is
// answered yes.
pub fn losses_of(slip: &[u8], reading: SlipReading, room: &mut [u16]) -> Option<usize>
    requires { WithLosses slip.now reading room.old }
    ensures value { result ≡ losses_on_slip slip.now }
    ensures room_after { room.new ≡ front (slip_losses slip.now) room.old }
{
    match reading.table {
        Table::Game(number) => Some(game_built_in::put_losses(number, room)),
        Table::LossesFrom(begin) => brought(slip, begin, reading, room),
        Table::LabelsFrom(_) => None,
    }
}
