// The calls on a walk as programs in C make them: a walk, and behind it what the last call on it has answered. Each
// call is by value here; the exported functions take the struct by reference and call these.
#![tactic(auto)]

ghost use Rattle.std.specs.Prelude.{◌≡◌};
ghost use Rattle.walk_numbers.specs.Answered.{after_beginning, after_moving, after_pointing};
ghost use Rattle.walk_numbers.specs.Answered.{after_showing, answered_by, unanswered};

use walk_calls::{Call, moved};
use walk_places::Walk;
use walk_preview::{Change, Shown, preview};
use walk_views::{PlacePoints, at_start, points};
use walk_ways::WalkAnswer;

// The walk; the number of the refusal or 0; of an end the kind, 0 place and 1 facet, the block from 1 and the number of
// vertices; of a move the rule, or else 0, and, where it is shown, the map and the fields; the numbers of the vertices
// or points, with 0 behind.
#[repr(C)]
#[derive(Clone, Copy)]
pub struct Answered {
    pub walk: Walk,
    pub vertices: u64,
    pub fields: [u32; 6],
    pub simplex: [u16; 256],
    pub number: u8,
    pub kind: u8,
    pub block: u8,
    pub rule: u8,
    pub map: u8,
}

// Nothing is answered but a number, with a count of points and their numbers.
fn unanswered(walk: Walk, number: u8, vertices: u64, simplex: [u16; 256]) -> Answered
    ensures { result ≡ unanswered walk number vertices simplex }
{
    Answered {
        walk,
        vertices,
        fields: [0u32; 6],
        simplex,
        number,
        kind: 0,
        block: 0,
        rule: 0,
        map: 0,
    }
}

// An answer of a call on a walk.
fn answered_by(walk: Walk, answer: WalkAnswer, simplex: [u16; 256], change: Change) -> Answered
    ensures { result ≡ answered_by walk answer simplex change }
{
    let Change { map, fields } = change;
    match answer {
        WalkAnswer::Refused(number) => unanswered(walk, number, 0, simplex),
        WalkAnswer::Ended {
            kind,
            block,
            vertices,
        } => Answered {
            walk,
            vertices: vertices as u64,
            fields,
            simplex,
            number: 0,
            kind: u8::from(kind),
            block,
            rule: 0,
            map,
        },
        WalkAnswer::Moved(rule) => Answered {
            walk,
            vertices: 0,
            fields,
            simplex,
            number: 0,
            kind: 0,
            block: 0,
            rule,
            map,
        },
    }
}

// The moving call.
pub fn after_moving(s: Answered, labels: &[u8]) -> Answered
    ensures { result ≡ after_moving s labels.now }
{
    let Call {
        answer,
        simplex,
        walk,
    } = moved(s.walk, labels);
    answered_by(walk, answer, simplex, Change::none())
}

// The preview: the walk is as it was.
pub fn after_showing(s: Answered, labels: &[u8]) -> Answered
    ensures { result ≡ after_showing s labels.now }
{
    let Shown {
        answer,
        simplex,
        change,
    } = preview(s.walk, labels);
    answered_by(s.walk, answer, simplex, change)
}

// The points of the present place: the walk is as it was.
pub fn after_pointing(s: Answered, labels: &[u8]) -> Answered
    ensures { result ≡ after_pointing s labels.now }
{
    let PlacePoints {
        code,
        count,
        numbers,
    } = points(s.walk, labels);
    unanswered(s.walk, code, count as u64, numbers)
}

// The walk at {v}, or with a refusal the walk as it was.
pub fn after_beginning(
    s: Answered,
    sizes: &[u8],
    divisions: &[u16],
    start: &[u16],
    labels: &[u8],
) -> Answered
    ensures { result ≡ after_beginning s
        sizes.now divisions.now start.now labels.now }
{
    let b = at_start(sizes, divisions, start, labels);
    if b.code != 0 {
        return unanswered(s.walk, b.code, 0, [0u16; 256]);
    }
    unanswered(b.walk, 0, 0, [0u16; 256])
}
