// The pass from {v} along the path with the record of each place: a first one counts the bytes, a second stores them.
// What is public here is for the writer, which shows what it asks.
#![tactic(auto)]

ghost use Rattle.std.specs.Prelude.{◌≡◌, length};
ghost use Rattle.path_pass.specs.Finish.{CanPass, Finished, problem_in};
ghost use Rattle.trail_pass.specs.Recording.{HasRoomForTrail, Recorded};

use arrays::Held;
use end_kinds::Kind;
use grid::Grid;
use moves::Outcome;
use path_pass::{Finish, asked, begun, ended, look_up, on};
use positions::ENTRIES;
use rules::Round;
use trail_records::IndexSets;
use trail_visits::{Before, bytes_to, tell};
use ways::make_move;

// How a pass ended, and the bytes of the whole trail, which a pass that reached no end does not know: 0 of it.
#[derive(Clone, Copy)]
pub struct RecordingPass {
    pub finish: Finish,
    pub bytes: usize,
}

// A pass that reached no end has no whole trail.
fn unrecorded(finish: Finish) -> RecordingPass
    ensures { (result.finish ≡ finish) × (result.bytes ≡ 0) }
{
    RecordingPass { finish, bytes: 0 }
}

// From {v} to the path's end, or until the budget is spent, of which the places are counted down. The record of a place
// goes from byte `from` to byte `end`. It is counted where the move to the place is made, whose rule the compiler then
// knows, and stored where the pass writes: one loop for both passes, since two take twice as long.
pub fn pass_recording(
    g: Grid,
    binomials: &[u16; ENTRIES],
    table: &[u8],
    round: &Round,
    held: &mut Held,
    trail: &mut [u8],
    writes: bool,
    budget: u64,
) -> RecordingPass
    requires can_pass { CanPass g round.now binomials.now held.old table.now }
    requires has_room_for_trail { HasRoomForTrail (problem_in g held.old.first table.now) writes (length trail.old) }
    ensures finished { Finished (problem_in g held.old.first table.now) budget round.now held.new result.finish }
    ensures recorded { Recorded (problem_in g held.old.first table.now) writes budget
        trail.old trail.new result.bytes result.finish }
{
    let tails = positions::tails(&held.first, g.indices);
    let mut before = Before {
        sets: IndexSets { t: 0, u: 0 },
        gone: 0,
    };
    let mut from: usize = 0;
    let mut end: usize = 3;
    let mut at = begun(held, g.indices);
    for left in (0..budget).rev() {
        let visited = budget - left - 1;
        let s = at.status;
        if let Err(unknown) = look_up(g, binomials, &tails, table, round, held, s) {
            return unrecorded(asked(unknown, visited));
        }
        let gone = tell(&held.marks, s, trail, from, before, writes);
        let status = match make_move(held, round, s) {
            Outcome::Moved(status) => status,
            Outcome::PlaceEnd(index) => {
                let finish = ended(at, Kind::Place, index, visited);
                return RecordingPass { finish, bytes: end };
            }
            Outcome::FacetEnd(index) => {
                let finish = ended(at, Kind::Facet, index, visited);
                return RecordingPass { finish, bytes: end };
            }
        };
        before = Before {
            sets: IndexSets { t: s.t, u: s.u },
            gone,
        };
        from = end;
        end += bytes_to(s, status);
        at = on(at, status);
    }
    unrecorded(Finish::Spent)
}
