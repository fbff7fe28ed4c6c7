// The reading of a trail, for programs in C and Rust.
#![tactic(auto)]

ghost use Rattle.std.specs.Prelude.{[], ◌≡◌, ◌≤◌, length};
ghost use Rattle.combinatorics.specs.Front.{front};
ghost use Rattle.place.specs.Problem.{problem_of};
ghost use Rattle.trail_reader.specs.Reading.{read_answer, read_points};
ghost use Rattle.trail_reader_exports.specs.Read.{place_facts, read_number};

use trail_reader::ReadAnswer;

// The number of points, T, U and the labels read to the front of their buffer, where a place is rebuilt.
fn put_place(found: ReadAnswer, place: &mut [u64]) -> u8
    requires { 4 ≤ length place.old }
    ensures number { result ≡ read_number found }
    ensures place { place.new ≡ front (place_facts found) place.old }
{
    match found {
        ReadAnswer::Refused(number) => number,
        ReadAnswer::Place {
            points: count,
            t,
            u,
            labels_read,
        } => {
            place[..4].copy_from_slice(&[count as u64, u64::from(t), u64::from(u), labels_read]);
            0
        }
    }
}

// The place at a record of a trail: 0 where it is rebuilt, else the refusal's number. `place` has the number of points,
// T and U as masks, bit h for index h + 1, and the labels read up to the place. The points' numbers, m each, stand at
// the front of `points`, its old contents behind; a refusal changes neither buffer.
pub fn leveretplate_read_trail(
    sizes: &[u8],
    divisions: &[u16],
    start: &[u16],
    trail: &[u8],
    record_number: u64,
    points: &mut [u16; 256],
    place: &mut [u64; 4],
) -> u8
    ensures number { let p = problem_of
        sizes.now divisions.now start.now [] in
        result ≡ read_number (read_answer p trail.now record_number) }
    ensures points { let p = problem_of
        sizes.now divisions.now start.now [] in
        points.new ≡ read_points p trail.now record_number points.old }
    ensures place { let p = problem_of
        sizes.now divisions.now start.now [] in
        place.new
        ≡ front (place_facts (read_answer p trail.now record_number)) place.old }
{
    let reading = trail_reader::read(sizes, divisions, start, trail, record_number, *points);
    let numbers = reading.points;
    *points = numbers;
    put_place(reading.answer, place)
}
