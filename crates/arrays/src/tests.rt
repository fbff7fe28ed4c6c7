// What no other crate calls, on arrays worked out by hand: a list is rotated, coefficients are raised and lowered.
use crate::{lower, raise, rotate_left, rotate_right};

#[test]
fn rotates_the_front(rt: HostRuntime) {
    let mut a = [1, 2, 3, 4, 5, 6, 7, 8, 9, 10, 11, 12, 13, 14, 15, 16];
    rotate_left(&mut a, 3);
    assert_eq!(rt; a, [2, 3, 1, 4, 5, 6, 7, 8, 9, 10, 11, 12, 13, 14, 15, 16]);
    rotate_right(&mut a, 16);
    assert_eq!(rt; a, [16, 2, 3, 1, 4, 5, 6, 7, 8, 9, 10, 11, 12, 13, 14, 15]);
}

// A block of four indices and one of twelve: going back from index 1, 0 and 3 come before 2.
#[test]
fn changes_the_coefficients_before_b(rt: HostRuntime) {
    let previous = [3, 0, 1, 2, 15, 4, 5, 6, 7, 8, 9, 10, 11, 12, 13, 14];
    let mut c = [4, 0, 7, 1, 9, 9, 9, 9, 9, 9, 9, 9, 9, 9, 9, 9];
    raise(&mut c, &previous, 1, 2);
    assert_eq!(rt; c, [5, 1, 7, 2, 9, 9, 9, 9, 9, 9, 9, 9, 9, 9, 9, 9]);
    lower(&mut c, &previous, 3, 1);
    assert_eq!(rt; c, [5, 1, 6, 1, 9, 9, 9, 9, 9, 9, 9, 9, 9, 9, 9, 9]);
}
