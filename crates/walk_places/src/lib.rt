// A walk and its places as they are kept, and what is told of a place that is kept.
#![tactic(auto)]

mod keeping;
mod placing;

pub use keeping::{held_in, is_kept, kept_as, none, same_place};
pub use placing::{both_placed, seen};

// A place as it is kept: its first point, the indices of T from 0 in the order in which each point goes to the next,
// and how many points it has. What stands behind is 0, so that places are the same exactly if their structs are; 0
// points and nothing but 0 are no place.
#[repr(C)]
#[derive(Clone, Copy, PartialEq, Eq)]
pub struct Place {
    pub first: [u16; 16],
    pub order: [u32; 16],
    pub count: u8,
}

// A walk: the places so far, the labels read, the present place, the one before it or none, the start, the grid by its
// divisions, its sizes and the number of its blocks, and the labels of the present place's points in their order, which
// it carries. At the front of each array stand the numbers of the blocks, the indices or the points; behind the labels
// stands 0.
#[repr(C)]
#[derive(Clone, Copy)]
pub struct Walk {
    pub places: u64,
    pub labels_read: u64,
    pub present: Place,
    pub before: Place,
    pub start: [u16; 16],
    pub divisions: [u16; 6],
    pub sizes: [u8; 6],
    pub blocks: u8,
    pub carried: [u8; 16],
}

// Two places, the one from which a walk is moved and the next: the positions of the n + 1 points and of the k + 1, in
// marks without labels, and the sets T and U of both.
#[derive(Clone, Copy)]
pub struct Both {
    pub from: [u32; 16],
    pub n: usize,
    pub t: u16,
    pub u: u16,
    pub onto: [u32; 16],
    pub k: usize,
    pub t2: u16,
    pub u2: u16,
}
