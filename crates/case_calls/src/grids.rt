// The calls on a label table without a path.
use case_lines::{bytes, room, show_bytes, words};
use std::io;
use std::io::{Input, Print};

// The labels and the points.
pub fn check(rt: &(impl Input + Print), sizes: &[u8], divisions: &[u16]) -> io::Result<()> {
    let mut labels = [0u8; 60001];
    let mut points = [0u16; 512];
    let labelled = bytes(rt, &mut labels)?;
    let given = words(rt, &mut points)?;
    let answered = exports::leveretplate_check(
        sizes,
        divisions,
        &labels[..labelled],
        &points[..given],
    );
    println!(rt; "number {answered}")
}

fn boundary_into(
    rt: &impl Print,
    sizes: &[u8],
    divisions: &[u16],
    old: &[u8],
    labels: &mut [u8],
) -> io::Result<()> {
    let mut count: u64 = 7;
    let answered = exports::leveretplate_boundary(sizes, divisions, old, labels, &mut count);
    println!(rt; "number {answered}")?;
    println!(rt; "count {count}")?;
    show_bytes(rt, "labels", labels)
}

// The old labels and the length of the buffer.
pub fn boundary(rt: &(impl Input + Print), sizes: &[u8], divisions: &[u16]) -> io::Result<()> {
    let mut old = [0u8; 60001];
    let mut labels = [255u8; 60001];
    let labelled = bytes(rt, &mut old)?;
    let length = room(rt, &labels)?;
    boundary_into(
        rt,
        sizes,
        divisions,
        &old[..labelled],
        &mut labels[..length],
    )
}
