// Makes the stored calls on walks and prints after each all that it answers, and the walk. Standard input has how many
// walks there are, and then of each the name, the walk, and the calls: how many, and of each its kind and its fields.
#![tactic(auto)]

mod lending;
mod printing;
mod reading;

use case_lines::{bytes, name, number, words};
use printing::show_answered;
use reading::read_answered;
use std::io;
use std::io::{Input, Print};
use walk_numbers::Answered;
use walk_places::Walk;
use walk_views::turned;

// The walk at {v}, of the sizes, divisions and start that are read.
fn begin(rt: &impl Input, s: Answered, labels: &[u8]) -> io::Result<Answered> {
    let mut sizes = [0u8; 64];
    let mut divisions = [0u16; 64];
    let mut start = [0u16; 64];
    let blocks = bytes(rt, &mut sizes)?;
    let given = words(rt, &mut divisions)?;
    let from = words(rt, &mut start)?;
    Ok(lending::begun(
        s,
        &sizes[..blocks],
        &divisions[..given],
        &start[..from],
        labels,
    ))
}

// The kinds of calls.
#[derive(Clone, Copy, Debug, PartialEq, Eq)]
enum Call {
    Begin,
    Move,
    Preview,
    Points,
    MoveLent,
    // no call of the walk's: the walk as it was before the last one, which has moved it, facing the place to which it
    // was moved
    Turn,
}

// Standard input names them by numbers: any number but 1 to 5 is the last's.
impl From<u64> for Call {
    fn from(number: u64) -> Call {
        match number {
            1 => Call::Begin,
            2 => Call::Move,
            3 => Call::Preview,
            4 => Call::Points,
            5 => Call::MoveLent,
            _ => Call::Turn,
        }
    }
}

// A call over the labels that are read.
fn answer(
    rt: &(impl Input + Print),
    call: Call,
    s: Answered,
    behind: Walk,
) -> io::Result<Answered> {
    let mut labels = [0u8; 60001];
    let labelled = bytes(rt, &mut labels)?;
    let labels = &labels[..labelled];
    Ok(match call {
        Call::Begin => begin(rt, s, labels)?,
        Call::Move => lending::moved(s, labels),
        Call::Preview => lending::shown(s, labels),
        Call::Points => lending::pointed(s, labels),
        Call::MoveLent => lending::with_walk(s, lending::lent(rt, s.walk, labels)?),
        Call::Turn => lending::with_walk(s, turned(behind, s.walk.present)),
    })
}

fn make_calls(rt: &(impl Input + Print)) -> io::Result<()> {
    name(rt)?;
    let mut s = read_answered(rt)?;
    let mut behind = s.walk;
    for _ in 0..number(rt)? {
        let call = Call::from(number(rt)?);
        let next = answer(rt, call, s, behind)?;
        show_answered(rt, next)?;
        behind = s.walk;
        s = next;
    }
    Ok(())
}

fn main(rt: HostRuntime) -> io::Result<()> {
    for _ in 0..number(&rt)? {
        make_calls(&rt)?;
    }
    Ok(())
}
