// The record of a place, as bytes, by T and U at the place before it and at the place, and by the positions of the
// points that come in and go out. What is public here is for the writer and the reader of a trail, which show what it
// asks.
#![tactic(auto)]

ghost use Rattle.std.specs.Prelude.{cond, ◌≡◌, ℕ, suc, ◌+◌, ◌/◌, ◌%◌, ◌≤◌, ◌<◌, eqb, drop, length, take};
ghost use Rattle.std.proofs.Math.Seq.{paste};
ghost use Rattle.trail.specs.Trail.{begins};
ghost use Rattle.trail_records.specs.Records.{differing, exchanged_record, joined_record, left_record, record_from};
ghost use Rattle.trail_records.specs.Records.{first_record, kept_record, HasLength, IsRecord};

use arrays::has;

// T and U of a place, as masks.
#[derive(Clone, Copy)]
pub struct IndexSets {
    pub t: u16,
    pub u: u16,
}

// A record: its bytes at the front, 0 behind them.
#[derive(Clone, Copy)]
pub struct Record {
    pub bytes: [u8; 8],
    pub length: usize,
}

fn low_byte(n: usize) -> u8
    ensures { result ≡ n % 256 }
{
    (n & 255) as u8
}

fn high_byte(n: usize) -> u8
    requires { n < 65536 }
    ensures { result ≡ n / 256 }
{
    (n >> 8) as u8
}

// An index as the record has it, counted from 1.
fn from_one(h: usize) -> u8
    requires { h < 16 }
    ensures { result ≡ suc h }
{
    h as u8 + 1
}

// The first index at which two sets differ; 16 where they are the same.
pub fn difference(a: u16, b: u16) -> usize
    ensures { (result ≡ differing a b) × (result ≤ 16) }
{
    for h in 0..16 {
        if has(a, h) != has(b, h) {
            return h;
        }
    }
    16
}

// Two sets are the same.
pub fn alike(a: u16, b: u16) -> bool
    ensures { result ≡ eqb (differing a b) 16 }
{
    a == b
}

// T and U are kept: rule 1, by which most places of a long path are reached.
pub fn kept_record(come: usize, gone: usize) -> Record
    requires { (come < 65536) × (gone < 65536) }
    ensures { IsRecord (kept_record come gone) result }
{
    let a = low_byte(come);
    let b = high_byte(come);
    let c = low_byte(gone);
    let d = high_byte(gone);
    Record {
        bytes: [67, a, b, c, d, 1, 0, 0],
        length: 6,
    }
}

// T is kept: rules 1 to 3, by what U does.
fn exchanged(before: u16, after: u16, come: usize, gone: usize) -> Record
    requires { (come < 65536) × (gone < 65536) }
    ensures { IsRecord (exchanged_record before after come gone) result }
{
    if alike(before, after) {
        return kept_record(come, gone);
    }
    let a = low_byte(come);
    let b = high_byte(come);
    let c = low_byte(gone);
    let d = high_byte(gone);
    let h = difference(before, after);
    let i = from_one(h);
    if has(after, h) {
        return Record {
            bytes: [83, a, b, c, d, i, 2, 0],
            length: 7,
        };
    }
    Record {
        bytes: [99, a, b, c, d, i, 3, 0],
        length: 7,
    }
}

// Index h comes into T: rules 4 and 5.
fn joined(before: u16, after: u16, h: usize, come: usize) -> Record
    requires { (h < 16) × (come < 65536) }
    ensures { IsRecord (joined_record before after h come) result }
{
    let a = low_byte(come);
    let b = high_byte(come);
    let i = from_one(h);
    if alike(before, after) {
        return Record {
            bytes: [69, a, b, i, 4, 0, 0, 0],
            length: 5,
        };
    }
    Record {
        bytes: [101, a, b, i, i, 5, 0, 0],
        length: 6,
    }
}

// Index h goes out of T: rules 6 and 7.
fn left(before: u16, after: u16, h: usize, gone: usize) -> Record
    requires { (h < 16) × (gone < 65536) }
    ensures { IsRecord (left_record before after h gone) result }
{
    let a = low_byte(gone);
    let b = high_byte(gone);
    let i = from_one(h);
    if alike(before, after) {
        return Record {
            bytes: [74, a, b, i, 7, 0, 0, 0],
            length: 5,
        };
    }
    Record {
        bytes: [90, a, b, i, i, 6, 0, 0],
        length: 6,
    }
}

// The record of a place behind the first.
pub fn record_of(before: IndexSets, after: IndexSets, come: usize, gone: usize) -> Record
    requires { (come < 65536) × (gone < 65536) }
    ensures { IsRecord (record_from before.t before.u after.t after.u come gone) result }
{
    if alike(before.t, after.t) {
        return exchanged(before.u, after.u, come, gone);
    }
    let h = difference(before.t, after.t);
    if has(after.t, h) {
        return joined(before.u, after.u, h, come);
    }
    left(before.u, after.u, h, gone)
}

// How many bytes the record of a place behind the first has: the sets alone tell, whatever points come in and go out.
pub fn length_of(before: IndexSets, after: IndexSets) -> usize
    ensures { (come gone : ℕ)
        → result ≡ length (record_from before.t before.u after.t after.u come gone) }
{
    let kept = alike(before.u, after.u);
    if alike(before.t, after.t) {
        if kept {
            return 6;
        }
        return 7;
    }
    if kept {
        return 5;
    }
    6
}

// The record of {v}.
pub fn first_record(come: usize) -> Record
    requires { come < 65536 }
    ensures { IsRecord (first_record come) result }
{
    let a = low_byte(come);
    let b = high_byte(come);
    Record {
        bytes: [1, a, b, 0, 0, 0, 0, 0],
        length: 3,
    }
}

// The record's bytes, stored from a position of the trail on.
pub fn put(trail: &mut [u8], at: usize, made: Record)
    requires { (at + made.length ≤ length trail.old) × HasLength made.length × (length made.bytes ≡ 8) }
    ensures { trail.new ≡ paste trail.old at made.bytes made.length }
{
    trail[at..at + made.length].copy_from_slice(&made.bytes[..made.length]);
}

// The bytes of the trail from a position on begin with the record's.
pub fn stands(trail: &[u8], at: usize, made: Record) -> bool
    requires { (at ≤ length trail.now) × (made.length ≤ 8) × (length made.bytes ≡ 8) }
    ensures { result ≡ begins (take made.length made.bytes) (drop at trail.now) }
{
    if trail.len() - at < made.length {
        return false;
    }
    for (k, x) in made.bytes[..made.length].iter().enumerate() {
        if trail[at + k] != *x {
            return false;
        }
    }
    true
}

// How many bytes the record of a place behind the first has, where the bytes of the trail from a position on begin with
// it; else 0.
pub fn standing_bytes(
    trail: &[u8],
    at: usize,
    before: IndexSets,
    after: IndexSets,
    come: usize,
    gone: usize,
) -> usize
    requires { (at ≤ length trail.now) × (come < 65536) × (gone < 65536) }
    ensures { let bytes = record_from before.t before.u after.t after.u come gone in
        result ≡ cond (begins bytes (drop at trail.now)) (length bytes) 0 }
{
    let made = record_of(before, after, come, gone);
    if stands(trail, at, made) {
        return made.length;
    }
    0
}
