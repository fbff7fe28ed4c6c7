// The reader of a trail: the customer's call.
ghost use Rattle.std.specs.Prelude.{[], ◌≡◌, ◌<◌, length, take};
ghost use Rattle.moves.specs.Held.{state_of};
ghost use Rattle.moves.specs.Room.{CanPut};
ghost use Rattle.place.specs.Problem.{problem_of};
ghost use Rattle.trail_reader.specs.Begun.{CanLocate, CanReadTrail, CanRebuild, IsLocated, IsPlace, Reads};
ghost use Rattle.trail_reader.specs.Reading.{read_answer, read_points};

use arrays::{Held, round_of};
use grid::Grid;
use moves::{Status, put_points};
use path_pass::begin;
use positions::ENTRIES;
use rules::Round;
use trail_following::follow;
use trail_records::{first_record, stands};

// What the reader answers: the number of the first of questions 1 to 5 and 17 that is answered no; or how many points
// the place has, T and U as masks, bit h for index h + 1, and the labels read up to the place.
#[derive(Clone, Copy)]
pub enum ReadAnswer {
    Refused(u8),
    Place {
        points: usize,
        t: u16,
        u: u16,
        labels_read: u64,
    },
}

// The answer, and the points of the place in rising coefficient sum, m numbers each, at the front of 256 numbers.
#[derive(Clone, Copy)]
pub struct Reading {
    pub answer: ReadAnswer,
    pub points: [u16; 256],
}

fn refused(number: u8, points: [u16; 256]) -> Reading
    ensures { (result.answer ≡ ReadAnswer.Refused number) × (result.points ≡ points) }
{
    Reading {
        answer: ReadAnswer::Refused(number),
        points,
    }
}

// A mask of T or U, of which the prover then knows that it has 16 bits.
fn mask(x: u16) -> u16
    ensures { (result ≡ x) × (result < 65536) }
{
    x
}

// The place that is held, its points over the contents that are lent.
fn placed(
    round: &Round,
    held: &Held,
    s: Status,
    m: usize,
    labels_read: u64,
    lent: [u16; 256],
) -> Reading
    requires { let a = state_of round.now held.now s in
        CanPut a m 0 (length lent) × (length a.order ≡ s.count) }
    ensures { IsPlace (state_of round.now held.now s) m s labels_read lent result }
{
    let mut points = lent;
    let count = put_points(held, round, s, m, 0, &mut points);
    let answer = ReadAnswer::Place {
        points: count,
        t: mask(s.t),
        u: mask(s.u),
        labels_read,
    };
    Reading { answer, points }
}

// The position of the start, which is the first point that is lent.
fn start_position(g: Grid, binomials: &[u16; ENTRIES], first: &[u16; 16]) -> usize
    requires { CanLocate g binomials.now first.now }
    ensures { IsLocated g first.now result }
{
    positions::position(g, binomials, first, &[16; 16])
}

// The place at a record, {v} being held.
fn rebuilt(
    g: Grid,
    binomials: &[u16; ENTRIES],
    round: &Round,
    held: &mut Held,
    trail: &[u8],
    number: u64,
    points: [u16; 256],
) -> Reading
    requires can_rebuild { CanRebuild g round.now binomials.now held.old }
    requires number_nonzero { 0 < number }
    ensures { Reads g (take g.indices held.old.first) trail.now number points result }
{
    let s = begin(&held.first, g.indices);
    let tails = positions::tails(&held.first, g.indices);
    let position = start_position(g, binomials, &held.first);
    if !stands(trail, 0, first_record(position)) {
        return refused(17, points);
    }
    held.marks[0] = position as u32 * 256;
    let Some(reached) = follow(g, binomials, &tails, round, held, s, trail, 3, number - 1) else {
        return refused(17, points);
    };
    placed(
        round,
        held,
        reached.status,
        g.indices,
        reached.came + 1,
        points,
    )
}

// The reading behind questions 1 to 5.
fn read_on(g: Grid, start: &[u16], trail: &[u8], number: u64, points: [u16; 256]) -> Reading
    requires { CanReadTrail g start.now }
    ensures { Reads g start.now trail.now number points result }
{
    if number == 0 {
        return refused(17, points);
    }
    let round = round_of(g);
    let mut binomials = [0u16; ENTRIES];
    positions::binomials(g, &mut binomials);
    let mut held = Held::at(start, g.indices);
    rebuilt(g, &binomials, &round, &mut held, trail, number, points)
}

// Questions 1 to 5, then 17, on every input: the place at a record of the trail, the records counted from 1. Only the
// records up to that one are looked at. The points stand at the front of the array that is lent, its old contents
// behind; a refusal leaves it as it is.
pub fn read(
    sizes: &[u8],
    divisions: &[u16],
    start: &[u16],
    trail: &[u8],
    number: u64,
    points: [u16; 256],
) -> Reading
    ensures answer { result.answer ≡ read_answer
        (problem_of sizes.now divisions.now start.now [])
        trail.now number }
    ensures points { result.points ≡ read_points
        (problem_of sizes.now divisions.now start.now [])
        trail.now number points }
{
    let made = Grid::new(sizes, divisions);
    let code = made.code;
    let g = made.grid;
    if code != 0 {
        return refused(code, points);
    }
    if !g.is_grid_point(start) {
        return refused(5, points);
    }
    read_on(g, start, trail, number, points)
}
