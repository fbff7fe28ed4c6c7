// The numbers and the facts by which the calls for C and Rust tell what a run answers.
ghost use Rattle.std.specs.Prelude.{◌≡◌, ◌≤◌, length};
ghost use Rattle.combinatorics.specs.Front.{front};
ghost use Rattle.finder.specs.Numbers.{run_facts, run_number};

use crate::RunAnswer;

// The facts to the front of their buffer, and the number.
pub fn put_answer(answer: RunAnswer, facts: &mut [u64]) -> u8
    requires { 5 ≤ length facts.old }
    ensures { (result ≡ run_number answer) × (facts.new ≡ front (run_facts answer) facts.old) }
{
    match answer {
        RunAnswer::Refused(number) => number,
        RunAnswer::Spent(visited) => {
            facts[0] = visited;
            9
        }
        RunAnswer::Unknown { places, position } => {
            facts[0] = places;
            facts[1] = position as u64;
            16
        }
        RunAnswer::End {
            places,
            labels_read,
            kind,
            block,
            vertices,
        } => {
            facts[0] = places;
            facts[1] = labels_read;
            facts[2] = u8::from(kind) as u64;
            facts[3] = block as u64;
            facts[4] = vertices as u64;
            0
        }
    }
}
