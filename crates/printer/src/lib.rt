// The printer: from a slip's bytes to the sheet's.
#![tactic(auto)]

ghost use Rattle.std.specs.Prelude.{◌≡◌, length};
ghost use Rattle.combinatorics.specs.Front.{front, padded};
ghost use Rattle.grid.specs.Made.{IsMade, shape};
ghost use Rattle.game_losses.specs.Table.{IsTable};
ghost use Rattle.printer.specs.Printed.{index_divisions, sheet_of};
ghost use Rattle.printer.specs.Run.{printed, Prints, Fits, HasGrid, IsGameReading};
ghost use Rattle.printer.specs.Run.{problem_with, loss_problem, run_sheet};

use finder::RunAnswer;
use grid::Grid;
use slip::{SlipReading, Table};
use text::SHEET_BYTES;

// The division of each index's block.
fn divisions_of(grid: Grid) -> [u16; 16]
    requires { IsMade grid }
    ensures { result ≡ padded 16 (index_divisions (shape grid)) }
{
    let mut divisions = [0u16; 16];
    for h in 0..grid.indices {
        divisions[h] = grid.divisions[grid.block_of(h)];
    }
    divisions
}

// The sheet of an answer with its vertices.
fn print_answer(
    answer: RunAnswer,
    grid: Grid,
    buffer: &[u16],
    sheet: &mut [u8; SHEET_BYTES],
) -> usize
    requires { IsMade grid × Fits (shape grid) answer buffer.now }
    ensures { Prints (printed (shape grid) answer buffer.now)
        sheet.old result sheet.new }
{
    match answer {
        RunAnswer::Refused(number) => sheet::refused(sheet, number),
        RunAnswer::Spent(places) => sheet::spent(sheet, places),
        RunAnswer::Unknown { places, position } => sheet::unknown(sheet, places, position as u64),
        RunAnswer::End {
            places,
            labels_read,
            kind,
            block,
            vertices,
        } => {
            let divisions = divisions_of(grid);
            sheet::ended(
                sheet,
                places,
                labels_read,
                grid.bound(),
                kind,
                block,
                vertices,
                buffer,
                &divisions[..grid.indices],
            )
        }
    }
}

// The run on a label table, and its sheet.
fn print_run(reading: SlipReading, labels: &[u8], sheet: &mut [u8; SHEET_BYTES]) -> usize
    requires { HasGrid reading }
    ensures { Prints (run_sheet (problem_with reading labels.now) reading.budget)
        sheet.old result sheet.new }
{
    let grid = reading.grid;
    let start = &reading.start[..grid.indices];
    let mut buffer = [0u16; 256];
    let answer = finder::run_on(grid, start, labels, &mut buffer, reading.budget);
    print_answer(answer, grid, &buffer, sheet)
}

// The run on the labels of losses, which are filled in here.
fn label_and_print(
    reading: SlipReading,
    losses: &[u16],
    labels: &mut [u8],
    sheet: &mut [u8; SHEET_BYTES],
) -> usize
    requires { HasGrid reading
        × IsTable (shape reading.grid) losses.now
        × (length labels.old ≡ reading.grid.points) }
    ensures { Prints (run_sheet (loss_problem reading losses.now) reading.budget)
        sheet.old result sheet.new }
{
    game_labels::label_on(reading.grid, losses, labels);
    print_run(reading, labels, sheet)
}

// The run on losses, with P bytes for their labels.
fn print_labelled(reading: SlipReading, losses: &[u16], sheet: &mut [u8; SHEET_BYTES]) -> usize
    requires { HasGrid reading × IsTable (shape reading.grid) losses.now }
    ensures { Prints (run_sheet (loss_problem reading losses.now) reading.budget)
        sheet.old result sheet.new }
{
    let mut labels = [0u8; 60000];
    label_and_print(reading, losses, &mut labels[..reading.grid.points], sheet)
}

// The sheet of a slip with a game or losses. 1,944 losses are the most that a grid has.
fn print_game(slip: &[u8], reading: SlipReading, sheet: &mut [u8; SHEET_BYTES]) -> usize
    requires { IsGameReading slip.now reading }
    ensures { Prints (sheet_of slip.now) sheet.old result sheet.new }
{
    let mut losses = [0u16; 1944];
    let Some(count) = slip::losses_of(slip, reading, &mut losses) else {
        return sheet::refused(sheet, 11);
    };
    print_labelled(reading, &losses[..count], sheet)
}

// The sheet of any bytes, at the front of the buffer. The result is the sheet's length.
pub fn print(slip: &[u8], sheet: &mut [u8; SHEET_BYTES]) -> usize
    ensures { (result ≡ length (sheet_of slip.now))
        × (sheet.new ≡ front (sheet_of slip.now) sheet.old) }
{
    let reading = slip::read(slip);
    if reading.code != 0 {
        return sheet::refused(sheet, reading.code);
    }
    match reading.table {
        Table::LabelsFrom(_) => print_run(reading, slip::labels_of(slip, reading), sheet),
        Table::Game(_) | Table::LossesFrom(_) => print_game(slip, reading, sheet),
    }
}
