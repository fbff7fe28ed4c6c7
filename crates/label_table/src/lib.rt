// A label table. Every call that is lent one asks question 7 of it.
#![tactic(auto)]

ghost use Rattle.std.specs.Prelude.{◌≡◌, ◌<◌, leb, length, get_or};
ghost use Rattle.combinatorics.specs.Lists.{all};
ghost use Rattle.label_table.specs.Labels.{label_of};

// Question 7: is every byte at most m? The largest is found by a loop with one way out, so that several bytes are
// compared at once.
pub fn all_at_most(labels: &[u8], m: u8) -> bool
    ensures { result ≡ all (λ l. leb l m) labels.now }
{
    let mut most: u8 = 0;
    for &label in labels {
        most = most.max(label);
    }
    most <= m
}

// The label at a position, if there is one. Runs and walks read a label by this function alone, where its point comes
// in; the checks of a walk's place and of an end call it too.
pub fn read_at(labels: &[u8], position: usize) -> Option<u8>
    requires { position < length labels.now }
    ensures { result ≡ label_of (get_or labels.now position 0) }
{
    let byte = labels[position];
    if byte == 0 { None } else { Some(byte) }
}

// The label at a position as a walk carries it: 0 where there is none, and 16 is asked of it there.
pub fn byte_at(labels: &[u8], position: usize) -> u8
    requires { position < length labels.now }
    ensures { result ≡ get_or labels.now position 0 }
{
    read_at(labels, position).unwrap_or(0)
}
