// What is read of a walk: 6 sizes, the number of blocks and of the points of both places, and the labels that it
// carries, in bytes; 6 divisions, the start and of both places the first point and the order, in numbers of 16 bits;
// the places so far and the labels read.
use case_lines::{bytes, number, words};
use std::io;
use std::io::Input;
use walk_numbers::Answered;
use walk_places::{Place, Walk};

fn read_place(rt: &impl Input, count: u8) -> io::Result<Place> {
    let mut first = [0u16; 16];
    let mut indices = [0u16; 16];
    words(rt, &mut first)?;
    words(rt, &mut indices)?;
    let order = indices.map(u32::from);
    Ok(Place {
        first,
        order,
        count,
    })
}

fn read_walk(rt: &impl Input) -> io::Result<Walk> {
    let mut sizes = [0u8; 6];
    let mut counts = [0u8; 3];
    let mut carried = [0u8; 16];
    let mut divisions = [0u16; 6];
    let mut start = [0u16; 16];
    bytes(rt, &mut sizes)?;
    bytes(rt, &mut counts)?;
    bytes(rt, &mut carried)?;
    words(rt, &mut divisions)?;
    words(rt, &mut start)?;
    let present = read_place(rt, counts[1])?;
    let before = read_place(rt, counts[2])?;
    let places = number(rt)?;
    let labels_read = number(rt)?;
    Ok(Walk {
        places,
        labels_read,
        present,
        before,
        start,
        divisions,
        sizes,
        blocks: counts[0],
        carried,
    })
}

// The walk, with an answer that no call gives.
pub fn read_answered(rt: &impl Input) -> io::Result<Answered> {
    let walk = read_walk(rt)?;
    Ok(Answered {
        walk,
        vertices: 7,
        fields: [7u32; 6],
        simplex: [7u16; 256],
        number: 7,
        kind: 7,
        block: 7,
        rule: 7,
        map: 7,
    })
}
