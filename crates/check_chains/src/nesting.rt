// Sets that are nested two by two, and the points whose sets are.
ghost use Rattle.std.specs.Prelude.{true, map, ◌≡◌, ◌+◌, ◌-◌, ◌≤◌, ◌<◌};
ghost use Rattle.combinatorics.specs.Lists.{all, up_from};
ghost use Rattle.grid_points.specs.Grid.{at, is_grid_point};
ghost use Rattle.grid.specs.Made.{shape};
ghost use Rattle.check_simplices.specs.Chains.{pairwise, chain_from, one_chain};
ghost use Rattle.check_chains.specs.Listed.{listed, Listed, FoundSets};
ghost use Rattle.check_chains.specs.Sets.{nested_sets};

use crate::sets::set_from;
use grid::Grid;

// Whether one of two sets lies inside the other, and they differ.
#[tactic(auto, unfolding(crate::specs::Sets::nested_sets))]
fn is_nested(a: u16, b: u16) -> bool
    ensures { result ≡ nested_sets a b }
{
    let both = a & b;
    a != b && (both == a || both == b)
}

// Whether the i-th set is nested with each later one.
fn nested_with_later(sets: &[u16; 16], i: usize, count: usize) -> bool
    requires { (i < count) × (count ≤ 16) }
    ensures { result ≡ all (nested_sets (at sets.now i))
        (map (at sets.now) (up_from (i + 1) (count - (i + 1)))) }
{
    (i + 1..count).all(|k| is_nested(sets[i], sets[k]))
}

// Whether any two of the first sets are nested.
fn all_nested(sets: &[u16; 16], count: usize) -> bool
    requires { count ≤ 16 }
    ensures { result ≡ pairwise nested_sets (map (at sets.now) (up_from 0 count)) }
{
    (0..count).all(|i| nested_with_later(sets, i, count))
}

// The sets of all points with p as the start, if they all have one.
fn sets_of(g: Grid, p: &[u16], numbers: &[u16], count: usize) -> Option<[u16; 16]>
    requires { Listed g count numbers.now × (is_grid_point (shape g) p.now ≡ true) }
    ensures { FoundSets g p.now numbers.now count result }
{
    let m = g.indices;
    let mut sets = [0u16; 16];
    for k in 0..count {
        let at = k * m;
        sets[k] = set_from(g, p, &numbers[at..at + m])?;
    }
    Some(sets)
}

// Whether p serves as the start.
fn chain_from(g: Grid, p: &[u16], numbers: &[u16], count: usize) -> bool
    requires { Listed g count numbers.now × (is_grid_point (shape g) p.now ≡ true) }
    ensures { result ≡ chain_from (shape g) (listed g.indices count numbers.now) p.now }
{
    match sets_of(g, p, numbers, count) {
        Some(sets) => all_nested(&sets, count),
        None => false,
    }
}

// Whether one of the points serves as the start.
pub fn one_chain(g: Grid, numbers: &[u16], count: usize) -> bool
    requires { Listed g count numbers.now }
    ensures { result ≡ one_chain (shape g) (listed g.indices count numbers.now) }
{
    let m = g.indices;
    for k in 0..count {
        let at = k * m;
        if chain_from(g, &numbers[at..at + m], numbers, count) {
            return true;
        }
    }
    false
}
