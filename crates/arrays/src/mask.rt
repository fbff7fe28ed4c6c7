// Sets of indices as masks of 16 bits.
ghost use Rattle.std.specs.Prelude.{◌≡◌, ◌<◌};
ghost use Rattle.rules.specs.Mask.{bit, with_index, without_index};

// Index h belongs to the set.
pub fn has(mask: u16, h: usize) -> bool
    requires { h < 16 }
    ensures { result ≡ bit mask h }
{
    (mask >> h) & 1 == 1
}

// The set with index h.
pub fn add(mask: u16, h: usize) -> u16
    requires { h < 16 }
    ensures { result ≡ with_index mask h }
{
    mask | (1u16 << h)
}

// The set without index h.
pub fn without(mask: u16, h: usize) -> u16
    requires { h < 16 }
    ensures { result ≡ without_index mask h }
{
    mask & !(1u16 << h)
}
