// The mark of the point that has just come in: its position, by the marks around it or by its steps, and its label in
// the table. What is public here is for the finder's pass, which shows what it asks.
#![tactic(auto)]

ghost use Rattle.std.specs.Prelude.{◌≡◌, ◌<◌};
ghost use Rattle.grid_points.specs.Grid.{position};
ghost use Rattle.grid.specs.Made.{shape, IsMade};
ghost use Rattle.moves.specs.Held.{state_of};
ghost use Rattle.positions.specs.Binomials.{Measured};
ghost use Rattle.rules.specs.Read.{point_on, Exchanged};
ghost use Rattle.rules.specs.Ready.{IndicesBelow};
ghost use Rattle.rules.specs.Moves.{source};
ghost use Rattle.marks.specs.Reading.{table_problem, label_reading, is_between, add_up, Readable, CanFind};
ghost use Rattle.marks.specs.Reading.{CanReadPoint, HasOrder, IsRight};

use arrays::{Held, first_outside, index_at, position_at};
use grid::Grid;
use label_table::read_at;
use moves::{Status, advance};
use one_step::{by_step_from, by_step_to};
use positions::ENTRIES;
use rules::Round;

mod one_step;

// The positions of the corners of a square add up: one step goes to h and one to k.
fn add_up(g: Grid, round: &Round, u: u16, h: usize, k: usize) -> bool
    requires made { IsMade g × IndicesBelow round.now.previous }
    requires h_lt_indices { (h < g.indices) × (k < g.indices) }
    ensures { result ≡ add_up (shape g) (source round.now u) h k }
{
    if g.block_of(h) != g.block_of(k) {
        return true;
    }
    let b = first_outside(&round.previous, &round.sizes, u, h);
    if h <= b {
        return false;
    }
    let e = first_outside(&round.previous, &round.sizes, u, k);
    e < k && (h <= e || k <= b)
}

// Two steps have changed places, and the point has come in between them.
fn is_between(s: Status) -> bool
    ensures { result ≡ is_between s }
{
    s.rule == 1 && 0 < s.active && s.active < s.count
}

// The position of the point that has just come in, by its steps. They are counted in an array of their own, from 16 on
// so that no count falls below 0: a copy of the first point would wait for the numbers that were just stored there.
fn position_by_steps(
    g: Grid,
    binomials: &[u16; ENTRIES],
    round: &Round,
    held: &Held,
    s: Status,
) -> usize
    requires { Measured g binomials.now × CanReadPoint g (state_of round.now held.now s) }
    ensures { let a = state_of round.now held.now s in
        result ≡ position (shape g) (point_on (shape g) a a.active) }
{
    let mut steps = [16u16; 16];
    advance(&mut steps, round, s.u, &held.order, s.active);
    positions::position(g, binomials, &held.first, &steps)
}

// The position of the point that has just come in between two steps that changed places, by the marks of the other
// corners of their square if these add up. The point that left has still its mark there.
fn by_square(g: Grid, round: &Round, held: &Held, s: Status) -> Option<usize>
    requires made { IsMade g × HasOrder (state_of round.now held.now s) s × (0 < s.active) }
    requires exchanged { Exchanged (shape g) (state_of round.now held.now s) }
    ensures { IsRight g (state_of round.now held.now s) result }
{
    let i = s.active;
    let n = s.count;
    let h = index_at(&held.order, n, i - 1);
    let k = index_at(&held.order, n, i);
    if !add_up(g, round, s.u, h, k) {
        return None;
    }
    let marks = &held.marks;
    Some(position_at(marks, n, i - 1) + position_at(marks, n, i + 1) - position_at(marks, n, i))
}

// The position of the point that has just come in, by one step in a grid of one block, and else by all its steps.
fn position_apart(
    g: Grid,
    binomials: &[u16; ENTRIES],
    tails: &[u32; 16],
    round: &Round,
    held: &Held,
    s: Status,
) -> usize
    requires { Measured g binomials.now × CanFind g tails.now (state_of round.now held.now s) s }
    ensures { let a = state_of round.now held.now s in
        result ≡ position (shape g) (point_on (shape g) a a.active) }
{
    if g.blocks == 1
        && 0 < s.active
        && let Some(position) = by_step_to(g, binomials, tails, round, held, s)
    {
        return position;
    }
    if g.blocks == 1
        && s.active < s.count
        && let Some(position) = by_step_from(g, binomials, tails, round, held, s)
    {
        return position;
    }
    position_by_steps(g, binomials, round, held, s)
}

// The position of the point that has just come in: by the square, where it has come in between two steps that changed
// places; else by one step or by all its steps.
pub fn position_in(
    g: Grid,
    binomials: &[u16; ENTRIES],
    tails: &[u32; 16],
    round: &Round,
    held: &Held,
    s: Status,
) -> usize
    requires { Measured g binomials.now × CanFind g tails.now (state_of round.now held.now s) s }
    ensures { let a = state_of round.now held.now s in
        result ≡ position (shape g) (point_on (shape g) a a.active) }
{
    if is_between(s)
        && let Some(position) = by_square(g, round, held, s)
    {
        return position;
    }
    position_apart(g, binomials, tails, round, held, s)
}

// The label that is needed is not yet known: its position.
#[derive(Clone, Copy)]
pub struct Unknown {
    pub position: usize,
}

// Looks up the label of the point that has just come in, and gives its mark.
pub fn mark_in(
    g: Grid,
    binomials: &[u16; ENTRIES],
    tails: &[u32; 16],
    table: &[u8],
    round: &Round,
    held: &Held,
    s: Status,
) -> Result<u32, Unknown>
    requires { Readable g binomials.now table.now × CanFind g tails.now (state_of round.now held.now s) s }
    ensures { let a = state_of round.now held.now s in
        result ≡ label_reading (table_problem g table.now) (point_on (shape g) a a.active) }
{
    let position = position_in(g, binomials, tails, round, held, s);
    match read_at(table, position) {
        Some(label) => Ok(position as u32 * 256 + u32::from(label)),
        None => Err(Unknown { position }),
    }
}
