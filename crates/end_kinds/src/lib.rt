// The kind of an end of the path. The definitions of ends name it too, so that a promise compares what a call answers
// with what a definition says without a translation between the two.
#![tactic(auto)]

ghost use Rattle.std.specs.Prelude.{◌≡◌, ◌≤◌};
ghost use Rattle.end_kinds.specs.Numbers.{kind_number};

// A complete place, or what remains of a place less one point.
#[derive(Clone, Copy, Debug, PartialEq, Eq)]
pub enum Kind {
    Place,
    Facet,
}

// The kind's number in the calls for C.
impl From<Kind> for u8 {
    ghost from_gives = { λ kind number. (number ≡ kind_number kind) × (number ≤ 1) };

    fn from(kind: Kind) -> u8 {
        match kind {
            Kind::Place => 0,
            Kind::Facet => 1,
        }
    }
}
