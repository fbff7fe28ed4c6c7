// The calls of the shelf.
ghost use Rattle.std.specs.Prelude.{◌≡◌};
ghost use Rattle.shelf.specs.Calls.{asking, filing, list_filed};
ghost use Rattle.exports.specs.Shelf.{current_number, current_sheet, filed_count, filed_number};

use shelf::{Current, Filed};

// Files a sheet: 0 and the new count of sheets, else the refusal's number.
pub fn leveretplate_file(list: &mut [u16], count: usize, named: usize, to: &mut usize) -> u8
    ensures number { result ≡ filed_number (filing list.old count named) }
    ensures count { to.new ≡ filed_count (filing list.old count named) to.old }
    ensures list { list.new ≡ list_filed list.old count named }
{
    match shelf::file(list, count, named) {
        Filed::Refused(number) => number,
        Filed::Filed(new) => {
            *to = new;
            0
        }
    }
}

// Asks for a sheet: 0 and the current one, else the refusal's number.
pub fn leveretplate_current(list: &[u16], count: usize, sheet: usize, to: &mut usize) -> u8
    ensures number { result ≡ current_number (asking list.now count sheet) }
    ensures sheet { to.new ≡ current_sheet (asking list.now count sheet) to.old }
{
    match shelf::current(list, count, sheet) {
        Current::Refused(number) => number,
        Current::Sheet(last) => {
            *to = last;
            0
        }
    }
}
