// The checker for programs in C and Rust.
ghost use Rattle.std.specs.Prelude.{◌≡◌};
ghost use Rattle.grid_points.specs.Grid.{lent};
ghost use Rattle.checker.specs.Check.{check_answer};
ghost use Rattle.exports.specs.Check.{check_number};

use checker::CheckAnswer;

// The answer as one number: a refusal's, 256 times the block where it is yes, 0 where it is no.
fn check_number(answer: CheckAnswer) -> u16
    ensures { result ≡ check_number answer }
{
    match answer {
        CheckAnswer::Refused(number) => u16::from(number),
        CheckAnswer::Yes(block) => 256 * u16::from(block),
        CheckAnswer::No => 0,
    }
}

// What the checker says of the points, m numbers each one after another.
pub fn leveretplate_check(sizes: &[u8], divisions: &[u16], labels: &[u8], points: &[u16]) -> u16
    ensures { result ≡ check_number (check_answer (lent sizes.now divisions.now)
        labels.now points.now) }
{
    check_number(checker::check(sizes, divisions, labels, points))
}
