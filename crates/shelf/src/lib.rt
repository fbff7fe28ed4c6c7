// The shelf of sheets that replace sheets: request 13. It knows nothing of grids, labels and runs; a sheet is a number.
#![tactic(auto)]

ghost use Rattle.std.specs.Prelude.{◌≡◌};
ghost use Rattle.shelf.specs.Calls.{filing, filing_refusal, list_filed, asking};

mod answers;
mod passes;

pub use answers::{Current, Filed};

// Questions 21, 22 and 23 of filing: the number of the first that is answered no, or 0.
fn first_shelf_no(list: &[u16], count: usize, named: usize) -> u8
    ensures { result ≡ filing_refusal list.now count named }
{
    if !passes::is_shelf(list, count) {
        return 21;
    }
    if count == 1000 || count == list.len() {
        return 22;
    }
    if count < named || (named != 0 && passes::is_replaced(list, count, named)) {
        return 23;
    }
    0
}

// Files a sheet under the number of the one that it replaces, or 0: questions 21, 22 and 23, on every list and count.
// Only the entry behind those filed is written, and a refusal writes nothing.
pub fn file(list: &mut [u16], count: usize, named: usize) -> Filed
    ensures answer { result ≡ filing list.old count named }
    ensures list { list.new ≡ list_filed list.old count named }
{
    let number = first_shelf_no(list, count, named);
    if number != 0 {
        return Filed::Refused(number);
    }
    list[count] = named as u16;
    Filed::Filed(count + 1)
}

// Gives the current one of a sheet: questions 21 and 23, on every list and count.
pub fn current(list: &[u16], count: usize, sheet: usize) -> Current
    ensures { result ≡ asking list.now count sheet }
{
    if !passes::is_shelf(list, count) {
        return Current::Refused(21);
    }
    if sheet == 0 || count < sheet {
        return Current::Refused(23);
    }
    Current::Sheet(passes::last_reached(list, count, sheet))
}
