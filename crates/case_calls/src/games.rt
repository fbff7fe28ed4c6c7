// The calls on a game.
use case_lines::{bytes, number, room, show_bytes, show_numbers, show_runs, words};
use std::io;
use std::io::{Input, Print};

fn label_into(
    rt: &impl Print,
    sizes: &[u8],
    divisions: &[u16],
    losses: &[u16],
    labels: &mut [u8],
) -> io::Result<()> {
    let mut count: u64 = 7;
    let answered = exports::leveretplate_label(sizes, divisions, losses, labels, &mut count);
    println!(rt; "number {answered}")?;
    println!(rt; "count {count}")?;
    show_bytes(rt, "labels", labels)
}

// The length of the buffer.
fn label_with(
    rt: &(impl Input + Print),
    sizes: &[u8],
    divisions: &[u16],
    losses: &[u16],
) -> io::Result<()> {
    let mut labels = [255u8; 60001];
    let length = room(rt, &labels)?;
    label_into(rt, sizes, divisions, losses, &mut labels[..length])
}

// The losses, and the length of the buffer.
pub fn label(rt: &(impl Input + Print), sizes: &[u8], divisions: &[u16]) -> io::Result<()> {
    let mut losses = [0u16; 2000];
    let given = words(rt, &mut losses)?;
    label_with(rt, sizes, divisions, &losses[..given])
}

// The game, in a list of one byte, the number of its losses, and the length of the buffer. The losses are those of the
// code, so that one changed there shows.
pub fn label_built_in(
    rt: &(impl Input + Print),
    sizes: &[u8],
    divisions: &[u16],
) -> io::Result<()> {
    let mut game = [0u8; 1];
    let mut losses = [0u16; 81];
    bytes(rt, &mut game)?;
    game_built_in::put_losses(game[0], &mut losses);
    let given = room(rt, &losses)?;
    label_with(rt, sizes, divisions, &losses[..given])
}

// k and the number of levels.
fn refine_into(
    rt: &(impl Input + Print),
    sizes: &[u8],
    divisions: &[u16],
    start: &[u16],
    losses: &[u16],
    labels: &mut [u8],
    answer: &mut [u16],
) -> io::Result<()> {
    let factor = number(rt)? as usize;
    let levels = number(rt)? as usize;
    let mut facts = [7u64; 40];
    let answered = exports::leveretplate_refine(
        sizes, divisions, start, losses, factor, levels, labels, answer, &mut facts,
    );
    println!(rt; "number {answered}")?;
    show_numbers(rt, "facts", &facts)?;
    show_runs(rt, "answer", answer)?;
    show_bytes(rt, "labels", labels)
}

// The losses, and the lengths of the label buffer and the answer buffer.
pub fn refine(
    rt: &(impl Input + Print),
    sizes: &[u8],
    divisions: &[u16],
    start: &[u16],
) -> io::Result<()> {
    let mut losses = [0u16; 2000];
    let mut labels = [255u8; 65536];
    let mut answer = [65535u16; 16384];
    let given = words(rt, &mut losses)?;
    let labelled = room(rt, &labels)?;
    let answered = room(rt, &answer)?;
    refine_into(
        rt,
        sizes,
        divisions,
        start,
        &losses[..given],
        &mut labels[..labelled],
        &mut answer[..answered],
    )
}
