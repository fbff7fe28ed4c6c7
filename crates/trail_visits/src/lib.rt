// One place of a pass that writes a trail: the record that is stored, and the bytes of the next one. What is public
// here is for the writer, which shows what it asks.
#![tactic(auto)]

ghost use Rattle.std.specs.Prelude.{true, ◌≡◌, ℕ, length};
ghost use Rattle.trail_records.specs.Records.{IsRecord, SameSets, record_from};
ghost use Rattle.trail_visits.specs.Visited.{CanWrite, HasPositions, record_here, with_record};
ghost use Rattle.ways.specs.Ways.{CanTell, gone_by, held_marks, way_here};

use arrays::position_at;
use moves::Status;
use trail_records::{IndexSets, Record, first_record, kept_record, length_of, put, record_of};
use ways::{gone_by, way_here};

// What a record looks at of the place before its own: T and U, and the position of the point that has left.
#[derive(Clone, Copy)]
pub struct Before {
    pub sets: IndexSets,
    pub gone: usize,
}

// The record of the place, whose points all have their marks; at the front of the trail that of {v}.
fn record_here(marks: &[u32; 16], s: Status, before: Before, at: usize) -> Record
    requires { let a = held_marks marks.now s in HasPositions a s before }
    ensures { let a = held_marks marks.now s in IsRecord (record_here a before at) result }
{
    let come = position_at(marks, s.count, s.active);
    if at == 0 {
        return first_record(come);
    }
    let here = IndexSets { t: s.t, u: s.u };
    record_of(before.sets, here, come, before.gone)
}

// The record is stored. Most places are reached by rule 1, and at these it needs no look at T and U.
fn put_here(marks: &[u32; 16], s: Status, trail: &mut [u8], at: usize, before: Before)
    requires { let a = held_marks marks.now s in CanWrite a s trail.old at before }
    ensures { let a = held_marks marks.now s in trail.new ≡ with_record a trail.old at before true }
{
    if 0 < at && s.rule == 1 {
        let come = position_at(marks, s.count, s.active);
        put(trail, at, kept_record(come, before.gone));
        return;
    }
    put(trail, at, record_here(marks, s, before, at));
}

// Where the pass writes, the record is stored, and the position of the point that leaves next is told. A pass that
// counts needs neither.
pub fn tell(
    marks: &[u32; 16],
    s: Status,
    trail: &mut [u8],
    at: usize,
    before: Before,
    writes: bool,
) -> usize
    requires can_tell { CanTell (held_marks marks.now s) s }
    requires can_write { let a = held_marks marks.now s in writes ≡ true → CanWrite a s trail.old at before }
    ensures value { let a = held_marks marks.now s in writes ≡ true → result ≡ gone_by a (way_here a) }
    ensures trail_after { let a = held_marks marks.now s in trail.new ≡ with_record a trail.old at before writes }
{
    if !writes {
        return 0;
    }
    put_here(marks, s, trail, at, before);
    let way = way_here(marks, s);
    gone_by(way, marks, s)
}

// How many bytes the record of the next place has. A move by rule 1 keeps T and U, so that only the other moves need a
// look at them.
pub fn bytes_to(s: Status, next: Status) -> usize
    requires { next.rule ≡ 1 → SameSets s.t s.u next.t next.u }
    ensures { (come gone : ℕ) → result ≡ length (record_from s.t s.u next.t next.u come gone) }
{
    if next.rule == 1 {
        return 6;
    }
    let from = IndexSets { t: s.t, u: s.u };
    let to = IndexSets {
        t: next.t,
        u: next.u,
    };
    length_of(from, to)
}
