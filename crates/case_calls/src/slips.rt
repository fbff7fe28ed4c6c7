// A slip, in the kiosk's way and through the exported function.
use case_lines::{bytes, number, show_bytes, within};
use sheet_output::SLIP_BYTES;
use std::io;
use std::io::{Input, Print};
use text::SHEET_BYTES;

// The slip is as many bytes as the number before it says.
pub fn print_sheet(rt: &(impl Input + Print)) -> io::Result<()> {
    sheet_output::print_sheet(rt, number(rt)? as usize)
}

// The length of the sheet, the sheet, and what stands behind it.
fn show_sheet(rt: &impl Print, sheet: &[u8], written: usize) -> io::Result<()> {
    let length = within(written, sheet);
    println!(rt; "length {written}")?;
    rt.write_all(&sheet[..length])?;
    show_bytes(rt, "behind", &sheet[length..])
}

// The slip is a list.
pub fn sheet(rt: &(impl Input + Print)) -> io::Result<()> {
    let mut slip = [0u8; SLIP_BYTES];
    let mut sheet = [255u8; SHEET_BYTES];
    let length = bytes(rt, &mut slip)?;
    let written = exports::leveretplate_sheet(&slip[..length], &mut sheet);
    show_sheet(rt, &sheet, written)
}
