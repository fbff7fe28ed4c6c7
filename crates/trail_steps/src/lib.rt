// One record of a reading: what it names, and whether its bytes are those of the change that has been made. What is
// public here is for the reader, which shows what it asks.
#![tactic(auto)]

ghost use Rattle.std.specs.Prelude.{map, ◌≡◌, suc, ◌+◌, ◌*◌, ◌≤◌, ◌<◌, drop, get_or, length, take};
ghost use Rattle.combinatorics.specs.Edits.{found};
ghost use Rattle.marks.specs.Reading.{CanFind};
ghost use Rattle.moves.specs.Held.{state_of, with_marks};
ghost use Rattle.positions.specs.Binomials.{Measured};
ghost use Rattle.rules.specs.Moves.{mark_position};
ghost use Rattle.trail_steps.specs.Reading.{CanCompare, bytes_standing, come_position, joining, leaving};
ghost use Rattle.trail_steps.specs.Reading.{marks_with, way_of};
ghost use Rattle.ways.specs.Ways.{held_marks};

use arrays::{Held, has, position_at};
use grid::Grid;
use marks::position_in;
use moves::Status;
use positions::ENTRIES;
use rules::Round;
use trail_records::{IndexSets, standing_bytes};
use ways::Way;

// The 16-bit number at a position.
fn word(trail: &[u8], at: usize) -> usize
    requires { at + 2 ≤ length trail.now }
    ensures { (result ≡ get_or trail.now at 0 + 256 * get_or trail.now (suc at) 0) × (result < 65536) }
{
    usize::from(trail[at]) + 256 * usize::from(trail[at + 1])
}

// The number of the point with a position, n being the number of steps; n + 1 where no point has it.
fn point_with(marks: &[u32; 16], n: usize, position: usize) -> usize
    requires { n ≤ 15 }
    ensures { result ≡ found position 16 (map mark_position (take (suc n) marks.now)) }
{
    for k in 0..n + 1 {
        if position_at(marks, n, k) == position {
            return k;
        }
    }
    n + 1
}

// The point with a position leaves, if the place has it and another.
fn leaving(marks: &[u32; 16], s: Status, position: usize) -> Way
    requires { s.count ≤ 15 }
    ensures { let a = held_marks marks.now s in result ≡ leaving a s.count position }
{
    let i = point_with(marks, s.count, position);
    if i <= s.count && 0 < s.count {
        return Way::Leaves(i);
    }
    Way::Nothing
}

// The index that a byte names, counted from 1, joins T if it is an index and is not there.
fn joining(t: u16, m: usize, byte: usize) -> Way
    requires { m ≤ 16 }
    ensures { result ≡ joining t m byte }
{
    if byte == 0 || m < byte || has(t, byte - 1) {
        return Way::Nothing;
    }
    Way::Joins(byte - 1)
}

// What the record at a position of the trail names.
pub fn way_on(trail: &[u8], at: usize, marks: &[u32; 16], s: Status, m: usize) -> Way
    requires count_bound { s.count ≤ 15 }
    requires at_in_bounds { (at ≤ length trail.now) × (m ≤ 16) }
    ensures { let a = held_marks marks.now s in result ≡ way_of m s.count a (drop at trail.now) }
{
    let room = trail.len() - at;
    if room == 0 {
        return Way::Nothing;
    }
    let byte = usize::from(trail[at]);
    if byte / 2 % 2 == 1 {
        let from = 1 + 2 * (byte % 2);
        if room < from + 2 {
            return Way::Nothing;
        }
        return leaving(marks, s, word(trail, at + from));
    }
    if room < 4 {
        return Way::Nothing;
    }
    joining(s.t, m, usize::from(trail[at + 3]))
}

// The position of the point that has come in; 0 where none has.
fn come_in(
    g: Grid,
    binomials: &[u16; ENTRIES],
    tails: &[u32; 16],
    round: &Round,
    held: &Held,
    s: Status,
) -> usize
    requires { Measured g binomials.now × (s.rule < 6 → CanFind g tails.now (state_of round.now held.now s) s) }
    ensures { result ≡ come_position g (state_of round.now held.now s) }
{
    if s.rule < 6 {
        return position_in(g, binomials, tails, round, held, s);
    }
    0
}

// The move has been made: the mark of the point that has come in is stored, its label left open, and the bytes of the
// trail are compared with the record of the change: how many this has, or 0 where they differ.
pub fn arrive(
    g: Grid,
    binomials: &[u16; ENTRIES],
    tails: &[u32; 16],
    round: &Round,
    held: &mut Held,
    before: IndexSets,
    s: Status,
    gone: usize,
    trail: &[u8],
    at: usize,
) -> usize
    requires measured { Measured g binomials.now
        × (s.rule < 6 → CanFind g tails.now (state_of round.now held.old s) s) }
    requires can_compare { CanCompare g (state_of round.now held.old s) gone (length trail.now) at }
    ensures marked { let a = state_of round.now held.old s in
        state_of round.now held.new s ≡ with_marks a (marks_with g a a.marks) }
    ensures rest { let a = state_of round.now held.old s in
        (held.new.marks ≡ marks_with g a held.old.marks) × (held.new.order ≡ held.old.order) }
    ensures value { result ≡ bytes_standing g (state_of round.now held.old s) before gone (drop at trail.now) }
{
    let come = come_in(g, binomials, tails, round, held, s);
    if s.rule < 6 {
        held.marks[s.active] = come as u32 * 256;
    }
    let after = IndexSets { t: s.t, u: s.u };
    standing_bytes(trail, at, before, after, come, gone)
}
