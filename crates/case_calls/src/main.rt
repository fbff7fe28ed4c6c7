// Makes the stored calls, each through its exported function, and prints the number that it answers and all that it may
// write, whole. Standard input has how many calls there are, and then of each the name, the kind and the fields, in the
// order in which they are read here. A buffer is lent as long as the case says, and full of a pattern, so that what is
// not written shows.
#![tactic(auto)]

mod games;
mod grids;
mod kinds;
mod paths;
mod shelves;
mod slips;

use case_lines::{bytes, name, number, words};
use kinds::{Call, GridCall, StartCall};
use std::io;
use std::io::{Input, Print};

fn make_from(
    rt: &(impl Input + Print),
    call: StartCall,
    sizes: &[u8],
    divisions: &[u16],
) -> io::Result<()> {
    let mut start = [0u16; 64];
    let given = words(rt, &mut start)?;
    let start = &start[..given];
    match call {
        StartCall::Run => paths::run(rt, sizes, divisions, start),
        StartCall::Nearest => paths::nearest(rt, sizes, divisions, start),
        StartCall::RunWithTrail => paths::run_with_trail(rt, sizes, divisions, start),
        StartCall::ReadTrail => paths::read_trail(rt, sizes, divisions, start),
        StartCall::Refine => games::refine(rt, sizes, divisions, start),
    }
}

fn make_on_grid(rt: &(impl Input + Print), call: GridCall) -> io::Result<()> {
    let mut sizes = [0u8; 64];
    let mut divisions = [0u16; 64];
    let blocks = bytes(rt, &mut sizes)?;
    let given = words(rt, &mut divisions)?;
    let sizes = &sizes[..blocks];
    let divisions = &divisions[..given];
    match call {
        GridCall::Check => grids::check(rt, sizes, divisions),
        GridCall::Boundary => grids::boundary(rt, sizes, divisions),
        GridCall::Label => games::label(rt, sizes, divisions),
        GridCall::LabelBuiltIn => games::label_built_in(rt, sizes, divisions),
        GridCall::From(call) => make_from(rt, call, sizes, divisions),
    }
}

fn make_next(rt: &(impl Input + Print)) -> io::Result<()> {
    name(rt)?;
    match Call::from(number(rt)?) {
        Call::PrintSheet => slips::print_sheet(rt),
        Call::Sheet => slips::sheet(rt),
        Call::File => shelves::file(rt),
        Call::Current => shelves::current(rt),
        Call::OnGrid(call) => make_on_grid(rt, call),
    }
}

fn main(rt: HostRuntime) -> io::Result<()> {
    for _ in 0..number(&rt)? {
        make_next(&rt)?;
    }
    Ok(())
}
