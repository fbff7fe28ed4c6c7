// The state of a run and one move by the seven rules, on lists, and that a run of moves follows the path: definitions
// and laws. The definitions speak of the very ways round the blocks that a run is lent.
#![tactic(auto)]

// The ways round the blocks: of each index the one before it, the one after it, and the size of its block.
#[derive(Clone, Copy)]
pub struct Round {
    pub previous: [u8; 16],
    pub next: [u8; 16],
    pub sizes: [u8; 16],
}
