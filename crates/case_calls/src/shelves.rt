// The calls of the shelf. `to` is 7 before each.
use case_lines::{number, show_runs, words};
use std::io;
use std::io::{Input, Print};

fn file_in(rt: &(impl Input + Print), list: &mut [u16]) -> io::Result<()> {
    let count = number(rt)? as usize;
    let named = number(rt)? as usize;
    let mut to: usize = 7;
    let answered = exports::leveretplate_file(list, count, named, &mut to);
    println!(rt; "number {answered}")?;
    println!(rt; "to {to}")?;
    show_runs(rt, "list", list)
}

// A call has the list, of up to 1,024 numbers, the count of sheets, and the sheet named or asked for.
pub fn file(rt: &(impl Input + Print)) -> io::Result<()> {
    let mut list = [0u16; 1024];
    let length = words(rt, &mut list)?;
    file_in(rt, &mut list[..length])
}

pub fn current(rt: &(impl Input + Print)) -> io::Result<()> {
    let mut list = [0u16; 1024];
    let length = words(rt, &mut list)?;
    let count = number(rt)? as usize;
    let sheet = number(rt)? as usize;
    let mut to: usize = 7;
    let answered = exports::leveretplate_current(&list[..length], count, sheet, &mut to);
    println!(rt; "number {answered}")?;
    println!(rt; "to {to}")?;
    show_runs(rt, "list", &list[..length])
}
