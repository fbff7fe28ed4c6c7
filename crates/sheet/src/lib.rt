// The bytes of the kiosk's sheet. Each function writes a sheet at the front of the lent buffer and returns the
// sheet's length. The longest sheet is shorter than 2,400 bytes.
#![tactic(auto)]

mod centre;
mod line;

ghost use Rattle.std.specs.Prelude.{◌≡◌, ◌+◌, ◌≤◌, length};
ghost use Rattle.sheet_lines.specs.Answer.{rows, Printable};
ghost use Rattle.combinatorics.specs.Front.{front};
ghost use Rattle.text.specs.Part.{Part};
ghost use Rattle.sheet_lines.specs.Sheet.{end_line, end_sheet, refused_sheet, spent_sheet, unknown_sheet};

use centre::centre_line;
use end_kinds::Kind;
use line::vertex_lines;
use text::{SHEET_BYTES, labelled, text};

// The sheet of a refusal other than 9 and 16.
pub fn refused(out: &mut [u8; SHEET_BYTES], number: u8) -> usize
    ensures { (result ≡ length (refused_sheet number))
        × (out.new ≡ front (refused_sheet number) out.old) }
{
    labelled(out, 0, b"refused", u64::from(number))
}

// The sheet of refusal 9, the budget spent.
pub fn spent(out: &mut [u8; SHEET_BYTES], places: u64) -> usize
    ensures { (result ≡ length (spent_sheet places))
        × (out.new ≡ front (spent_sheet places) out.old) }
{
    let next = labelled(out, 0, b"refused", 9);
    labelled(out, next, b"places", places)
}

// The sheet of refusal 16: the label at a position of the table is not yet known.
pub fn unknown(out: &mut [u8; SHEET_BYTES], places: u64, position: u64) -> usize
    ensures { let sheet = unknown_sheet places position in
        (result ≡ length sheet) × (out.new ≡ front sheet out.old) }
{
    let mut next = labelled(out, 0, b"refused", 16);
    next = labelled(out, next, b"places", places);
    labelled(out, next, b"position", position)
}

// The sheet of an end. `divisions` has the division of each index's block, and `vertices` begins with `count`
// vertices of as many numbers each.
// Public only because the kiosk calls it, with an answer that a run has given.
pub fn ended(
    out: &mut [u8; SHEET_BYTES],
    places: u64,
    labels_read: u64,
    bound: u64,
    kind: Kind,
    block: u8,
    count: usize,
    vertices: &[u16],
    divisions: &[u16],
) -> usize
    requires { Printable count vertices.now divisions.now }
    ensures { let simplex = rows count (length divisions.now) vertices.now in
        let sheet = end_sheet places labels_read bound kind block simplex divisions.now in
        (result ≡ length sheet) × (out.new ≡ front sheet out.old) }
{
    let mut next = labelled(out, 0, b"places", places);
    next = labelled(out, next, b"labels read", labels_read);
    next = labelled(out, next, b"bound", bound);
    next = end_line(out, next, kind);
    next = labelled(out, next, b"block", u64::from(block));
    next = labelled(out, next, b"vertices", count as u64);
    next = vertex_lines(out, next, count, vertices, divisions.len());
    centre_line(out, next, count, vertices, divisions)
}

// The line of the kind of end.
fn end_line(out: &mut [u8; SHEET_BYTES], at: usize, kind: Kind) -> usize
    requires { at ≤ 3500 }
    ensures { Part (end_line kind) out.old out.new at result × (result ≤ at + 10) }
{
    match kind {
        Kind::Place => text(out, at, b"end place\n"),
        Kind::Facet => text(out, at, b"end facet\n"),
    }
}
