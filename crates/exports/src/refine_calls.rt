// Refinement runs for programs in C and Rust.
ghost use Rattle.std.specs.Prelude.{◌≡◌, ◌≤◌, length};
ghost use Rattle.combinatorics.specs.Front.{front};
ghost use Rattle.grid_points.specs.Grid.{lent};
ghost use Rattle.refinement.specs.Answer.{answer_left, labels_left, lent_game, refine_answer};
ghost use Rattle.exports.specs.Refine.{level_facts, refined_facts};

use refinement::{Level, Refined};

// The facts of a level to the front of their buffer.
fn put_level(level: Level, facts: &mut [u64])
    requires { 5 ≤ length facts.old }
    ensures { facts.new ≡ front (level_facts level) facts.old }
{
    facts[..5].copy_from_slice(&[
        level.places,
        level.labels_read,
        u64::from(u8::from(level.kind)),
        u64::from(level.block),
        level.vertices as u64,
    ]);
}

// The facts of each level behind those of the one before.
fn put_levels(found: Refined, facts: &mut [u64])
    requires { (found.count ≤ 8) × (length found.levels ≡ 8) × (40 ≤ length facts.old) }
    ensures { facts.new ≡ front (refined_facts found) facts.old }
{
    for (i, level) in found.levels[..found.count].iter().enumerate() {
        put_level(*level, &mut facts[5 * i..]);
    }
}

// A game on finer and finer grids: 0 where all levels were run, else the refusal's number. The facts are five for each
// level: the places, the labels read, the kind of end (0 place, 1 facet), the block and the number of vertices.
pub fn leveretplate_refine(
    sizes: &[u8],
    divisions: &[u16],
    start: &[u16],
    losses: &[u16],
    factor: usize,
    levels: usize,
    labels: &mut [u8],
    answer: &mut [u16],
    facts: &mut [u64; 40],
) -> u8
    ensures number { let game = lent_game (lent sizes.now divisions.now)
        start.now losses.now factor in
        result ≡ (refine_answer game levels labels.old answer.old).code }
    ensures labels { let game = lent_game (lent sizes.now divisions.now)
        start.now losses.now factor in
        labels.new ≡ labels_left game levels labels.old answer.old }
    ensures answer { let game = lent_game (lent sizes.now divisions.now)
        start.now losses.now factor in
        answer.new ≡ answer_left game levels labels.old answer.old }
    ensures facts { let game = lent_game (lent sizes.now divisions.now)
        start.now losses.now factor in
        let found = refine_answer game levels labels.old answer.old in
        facts.new ≡ front (refined_facts found) facts.old }
{
    let found = refinement::refine(
        sizes, divisions, start, losses, factor, levels, labels, answer,
    );
    put_levels(found, facts);
    found.code
}
