// The games that are built in.
ghost use Rattle.std.specs.Prelude.{◌≡◌, eqb};
ghost use Rattle.combinatorics.specs.Lists.{same};

pub const SIZES1: [u8; 3] = [2, 2, 2];

pub const SIZES2: [u8; 3] = [3, 3, 3];

pub const SIZES3: [u8; 4] = [2, 2, 2, 2];

// The loss tables of the appendix.
pub const LOSSES1: [u16; 24] = [
    1, 2, 8, 5, 8, 8, 2, 2, 4, 2, 2, 1, 2, 6, 1, 3, 4, 1, 4, 2, 8, 8, 2, 1,
];

pub const LOSSES2: [u16; 81] = [
    2, 3, 4, 2, 3, 3, 4, 1, 5, 1, 1, 4, 3, 4, 1, 6, 8, 2, 4, 7, 2, 4, 5, 5, 3, 6, 4, 5, 6, 7, 4, 8,
    9, 3, 5, 1, 1, 1, 3, 3, 2, 1, 2, 2, 4, 2, 3, 6, 5, 3, 6, 7, 5, 8, 1, 3, 5, 1, 6, 2, 1, 2, 4, 2,
    6, 5, 3, 3, 7, 8, 5, 5, 5, 2, 2, 4, 6, 5, 8, 1, 3,
];

pub const LOSSES3: [u16; 64] = [
    3, 3, 4, 2, 3, 3, 4, 1, 4, 1, 4, 3, 1, 1, 6, 8, 4, 6, 2, 4, 5, 3, 3, 6, 5, 2, 7, 4, 8, 6, 3, 5,
    1, 6, 3, 3, 3, 3, 3, 2, 2, 2, 6, 5, 4, 6, 1, 5, 6, 3, 5, 1, 3, 2, 3, 2, 2, 6, 5, 3, 4, 7, 1, 5,
];

// Whether two lists of sizes are the same.
pub fn same_sizes(a: &[u8], b: &[u8]) -> bool
    ensures { result ≡ same eqb a.now b.now }
{
    a == b
}
