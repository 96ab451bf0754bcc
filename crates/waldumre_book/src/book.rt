// The label book: whether an answer makes one, and if so its offers and its display.
mod labels;

ghost use Rattle.std.specs.Prelude.{◌≡◌, true, cond, ◌&&◌, [], eqb};
ghost use Rattle.model.specs.Lists.{all};
ghost use Rattle.model.specs.Book.{rows_in, in_range, book_of, fits};

// Each row's entry into a blank book, the last row first: so a label's first row stays.
fn enter(cells: &[i64], offers: &mut [i64], display: &mut [u8])
    requires cells_value { all in_range (rows_in cells.now) ≡ true }
    requires display_value { record { offers = offers.old; display = display.old } ≡ book_of [] }
    ensures { record { offers = offers.new; display = display.new } ≡ book_of (rows_in cells.now) }
{
    let rows = cells.len() / 3;
    for i in (0..rows).rev() {
        let at = 3 * i;
        let label = cells[at] as usize;
        let offer = cells[at + 1];
        let price = cells[at + 2] as u64;
        offers[label] = offer;
        labels::put_price(display, 7 * label, price);
    }
}

// 53 where it says no: three columns, every row in range, and a book of 500 labels.
fn suits(columns: usize, cells: &[i64], offers: usize, display: usize) -> bool
    ensures { result ≡ eqb columns 3 && eqb offers 500 && eqb display 3500 && all in_range (rows_in cells.now) }
{
    columns == 3 && offers == 500 && display == 3500 && labels::all_in_range(cells)
}

// Writes the book of an answer's cells, and returns whether there is one; where there is none the book is left as it was.
pub(crate) fn write(columns: usize, cells: &[i64], offers: &mut [i64], display: &mut [u8]) -> bool
    ensures value { result ≡ fits columns cells.now (record { offers = offers.old; display = display.old }) }
    ensures display_after { record { offers = offers.new; display = display.new }
        ≡ cond result (book_of (rows_in cells.now)) (record { offers = offers.old; display = display.old }) }
{
    let good = suits(columns, cells, offers.len(), display.len());
    if !good {
        return false;
    }
    offers.fill(-1);
    display.fill(32);
    enter(cells, offers, display);
    good
}
