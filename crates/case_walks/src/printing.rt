// The lines of what a call answers, and of a walk.
use case_lines::{show_bytes, show_numbers, show_runs};
use std::io;
use std::io::Print;
use walk_calls::Told;
use walk_numbers::Answered;
use walk_places::{Place, Walk};
use walk_ways::WalkAnswer;

fn show_place(rt: &impl Print, place: Place) -> io::Result<()> {
    println!(rt; " count {}", place.count)?;
    show_runs(rt, " first", &place.first)?;
    show_numbers(rt, " order", &place.order)
}

fn show_walk(rt: &impl Print, w: Walk) -> io::Result<()> {
    println!(rt; "places {}", w.places)?;
    println!(rt; "labels read {}", w.labels_read)?;
    println!(rt; "present")?;
    show_place(rt, w.present)?;
    println!(rt; "before")?;
    show_place(rt, w.before)?;
    println!(rt; "blocks {}", w.blocks)?;
    show_bytes(rt, "sizes", &w.sizes)?;
    show_runs(rt, "divisions", &w.divisions)?;
    show_runs(rt, "start", &w.start)?;
    show_bytes(rt, "carried", &w.carried)
}

pub fn show_answered(rt: &impl Print, s: Answered) -> io::Result<()> {
    println!(rt;
        "number, kind, block, vertices, rule, map {} {} {} {} {} {}",
        s.number, s.kind, s.block, s.vertices, s.rule, s.map
    )?;
    show_numbers(rt, "fields", &s.fields)?;
    show_runs(rt, "simplex", &s.simplex)?;
    show_walk(rt, s.walk)
}

// What the thin function tells.
pub fn show_told(rt: &impl Print, told: Told) -> io::Result<()> {
    match told.answer {
        WalkAnswer::Refused(number) => println!(rt; "told refused {number}")?,
        WalkAnswer::Ended {
            kind,
            block,
            vertices,
        } => {
            println!(rt; "told end of kind {}", u8::from(kind))?;
            println!(rt; "told block {block}")?;
            println!(rt; "told vertices {vertices}")?;
        }
        WalkAnswer::Moved(rule) => println!(rt; "told rule {rule}")?,
    }
    show_runs(rt, "told simplex", &told.simplex)
}
