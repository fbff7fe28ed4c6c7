// The calls that are lent a walk. Each function here lends a copy and gives it back, so that the others have it by
// value.
ghost use Rattle.std.specs.Prelude.{◌≡◌, IfOk};
ghost use Rattle.walk_calls.specs.Calls.{call_of};
ghost use Rattle.walk_numbers.specs.Answered.{after_beginning, after_moving, after_pointing, after_showing};

use crate::printing::show_told;
use std::io;
use std::io::Print;
use walk_calls::move_on;
use walk_exports::{
    leveretplate_move_on, leveretplate_preview, leveretplate_walk_at_start,
    leveretplate_walk_points,
};
use walk_numbers::Answered;
use walk_places::Walk;

pub fn begun(
    mut s: Answered,
    sizes: &[u8],
    divisions: &[u16],
    start: &[u16],
    labels: &[u8],
) -> Answered
    ensures { result ≡ after_beginning s
        sizes.now divisions.now start.now labels.now }
{
    leveretplate_walk_at_start(&mut s, sizes, divisions, start, labels);
    s
}

pub fn moved(mut s: Answered, labels: &[u8]) -> Answered
    ensures { result ≡ after_moving s labels.now }
{
    leveretplate_move_on(&mut s, labels);
    s
}

pub fn shown(mut s: Answered, labels: &[u8]) -> Answered
    ensures { result ≡ after_showing s labels.now }
{
    leveretplate_preview(&mut s, labels);
    s
}

pub fn pointed(mut s: Answered, labels: &[u8]) -> Answered
    ensures { result ≡ after_pointing s labels.now }
{
    leveretplate_walk_points(&mut s, labels);
    s
}

// The thin function that takes the walk itself: what it tells is printed. Where that cannot be printed, the error is
// the answer, and no walk is given back: the caller still has its own.
pub fn lent(rt: &impl Print, mut w: Walk, labels: &[u8]) -> io::Result<Walk>
    ensures { IfOk result (λ walk. walk ≡ (call_of w labels.now).walk) }
{
    show_told(rt, move_on(&mut w, labels))?;
    Ok(w)
}

// The same answer with another walk.
pub fn with_walk(mut s: Answered, walk: Walk) -> Answered {
    s.walk = walk;
    s
}
