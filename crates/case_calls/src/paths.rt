// The calls on a path.
use case_lines::{bytes, number, room, show_bytes, show_numbers, show_runs, words};
use nearest_exports::leveretplate_nearest;
use std::io;
use std::io::{Input, Print};
use trail_reader_exports::leveretplate_read_trail;
use trail_writer_exports::leveretplate_run_with_trail;

// The budget.
fn run_into(
    rt: &(impl Input + Print),
    sizes: &[u8],
    divisions: &[u16],
    start: &[u16],
    labels: &[u8],
    answer: &mut [u16],
) -> io::Result<()> {
    let budget = number(rt)?;
    let mut facts = [7u64; 5];
    let answered = exports::leveretplate_run(
        sizes, divisions, start, labels, answer, budget, &mut facts,
    );
    println!(rt; "number {answered}")?;
    show_numbers(rt, "facts", &facts)?;
    show_runs(rt, "answer", answer)
}

// The labels, and the length of the answer buffer.
pub fn run(
    rt: &(impl Input + Print),
    sizes: &[u8],
    divisions: &[u16],
    start: &[u16],
) -> io::Result<()> {
    let mut labels = [0u8; 60001];
    let mut answer = [65535u16; 256];
    let labelled = bytes(rt, &mut labels)?;
    let answered = room(rt, &answer)?;
    run_into(
        rt,
        sizes,
        divisions,
        start,
        &labels[..labelled],
        &mut answer[..answered],
    )
}

// The budget and the distance.
fn nearest_into(
    rt: &(impl Input + Print),
    sizes: &[u8],
    divisions: &[u16],
    start: &[u16],
    labels: &[u8],
    w: &[u16],
    answer: &mut [u16],
    list: &mut [u16],
) -> io::Result<()> {
    let budget = number(rt)?;
    let distance = number(rt)?;
    let mut facts = [7u64; 5];
    let mut near = [7u64; 2];
    let answered = leveretplate_nearest(
        sizes, divisions, start, labels, answer, budget, w, distance, list, &mut facts, &mut near,
    );
    println!(rt; "number {answered}")?;
    show_numbers(rt, "facts", &facts)?;
    show_numbers(rt, "near", &near)?;
    show_runs(rt, "answer", answer)?;
    show_runs(rt, "list", list)
}

// The labels, w, and the lengths of the answer buffer and the list.
pub fn nearest(
    rt: &(impl Input + Print),
    sizes: &[u8],
    divisions: &[u16],
    start: &[u16],
) -> io::Result<()> {
    let mut labels = [0u8; 60001];
    let mut w = [0u16; 64];
    let mut answer = [65535u16; 256];
    let mut list = [65535u16; 60100];
    let labelled = bytes(rt, &mut labels)?;
    let given = words(rt, &mut w)?;
    let answered = room(rt, &answer)?;
    let entries = room(rt, &list)?;
    nearest_into(
        rt,
        sizes,
        divisions,
        start,
        &labels[..labelled],
        &w[..given],
        &mut answer[..answered],
        &mut list[..entries],
    )
}

// The budget.
fn write_into(
    rt: &(impl Input + Print),
    sizes: &[u8],
    divisions: &[u16],
    start: &[u16],
    labels: &[u8],
    answer: &mut [u16],
    trail: &mut [u8],
) -> io::Result<()> {
    let budget = number(rt)?;
    let mut facts = [7u64; 5];
    let mut written: u64 = 7;
    let answered = leveretplate_run_with_trail(
        sizes,
        divisions,
        start,
        labels,
        answer,
        budget,
        trail,
        &mut facts,
        &mut written,
    );
    println!(rt; "number {answered}")?;
    show_numbers(rt, "facts", &facts)?;
    println!(rt; "bytes {written}")?;
    show_runs(rt, "answer", answer)?;
    show_bytes(rt, "trail", trail)
}

// The labels, and the lengths of the answer buffer and the trail buffer.
pub fn run_with_trail(
    rt: &(impl Input + Print),
    sizes: &[u8],
    divisions: &[u16],
    start: &[u16],
) -> io::Result<()> {
    let mut labels = [0u8; 60001];
    let mut answer = [65535u16; 256];
    let mut trail = [255u8; 100000];
    let labelled = bytes(rt, &mut labels)?;
    let answered = room(rt, &answer)?;
    let written = room(rt, &trail)?;
    write_into(
        rt,
        sizes,
        divisions,
        start,
        &labels[..labelled],
        &mut answer[..answered],
        &mut trail[..written],
    )
}

// The trail, and the number of the record.
pub fn read_trail(
    rt: &(impl Input + Print),
    sizes: &[u8],
    divisions: &[u16],
    start: &[u16],
) -> io::Result<()> {
    let mut trail = [0u8; 60001];
    let mut points = [65535u16; 256];
    let mut place = [7u64; 4];
    let length = bytes(rt, &mut trail)?;
    let record = number(rt)?;
    let answered = leveretplate_read_trail(
        sizes,
        divisions,
        start,
        &trail[..length],
        record,
        &mut points,
        &mut place,
    );
    println!(rt; "number {answered}")?;
    show_numbers(rt, "place", &place)?;
    show_runs(rt, "points", &points)
}
