// The three passes over the sheets of a shelf, each of them in order.
ghost use Rattle.std.specs.Prelude.{◌≡◌, ◌≤◌};
ghost use Rattle.shelf.specs.Shelf.{is_shelf, is_replaced, current, OnShelf};

// Question 21. Each number that an entry holds is marked, and a sheet met a second time is found marked. The mark of 0,
// which names none, is not read.
pub fn is_shelf(list: &[u16], count: usize) -> bool
    ensures { result ≡ is_shelf list.now count }
{
    if 1000 < count || list.len() < count {
        return false;
    }
    let mut marks = [false; 1001];
    for k in 0..count {
        let named = usize::from(list[k]);
        if k < named || (named != 0 && marks[named]) {
            return false;
        }
        marks[named] = true;
    }
    true
}

// Whether one of the sheets filed names a sheet on the shelf.
pub fn is_replaced(list: &[u16], count: usize, sheet: usize) -> bool
    requires { OnShelf list.now count sheet }
    ensures { result ≡ is_replaced list.now count sheet }
{
    list[..count]
        .iter()
        .any(|named| usize::from(*named) == sheet)
}

// The current one of a sheet on a shelf. What replaces a sheet stands behind it, so that one pass finds it.
pub fn last_reached(list: &[u16], count: usize, sheet: usize) -> usize
    requires { OnShelf list.now count sheet }
    ensures { result ≡ current list.now count sheet }
{
    let mut reached = sheet;
    for k in sheet..count {
        if usize::from(list[k]) == reached {
            reached = k + 1;
        }
    }
    reached
}
