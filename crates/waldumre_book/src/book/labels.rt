// The rows of a label book: whether all are in range, and a price as seven bytes of display.
ghost use Rattle.std.specs.Prelude.{◌≡◌, ◌&&◌, ◌+◌, ◌<◌, pos};
ghost use Rattle.std.specs.Int.Signed.{le_z};
ghost use Rattle.std.proofs.lemmas.List.Edits.{sets};
ghost use Rattle.model.specs.Lists.{all};
ghost use Rattle.model.specs.Book.{rows_in, in_range, display_of};
ghost use Rattle.model.specs.Book as B;

// The last digit of a number.
fn digit(n: u64) -> u8
    ensures { result ≡ B.digit n }
{
    48 + (n % 10) as u8
}

// The same, with a space for a zero in front.
fn lead(n: u64) -> u8
    ensures { result ≡ B.lead n }
{
    if n == 0 { 32 } else { digit(n) }
}

// Writes a price: euros right-aligned in four, a point, two digits.
pub(crate) fn put_price(display: &mut [u8], at: usize, cents: u64)
    requires { at + 7 < 9223372036854775808 }
    ensures { display.new ≡ sets display.old at (display_of cents) }
{
    let euros = cents / 100;
    let price = [
        lead(euros / 1000),
        lead(euros / 100),
        lead(euros / 10),
        digit(euros),
        46,
        digit(cents / 10),
        digit(cents),
    ];
    copier::copy(display, at, &price);
}

// Whether a row is in range.
#[tactic(auto, unfolding(model::specs::Book::in_range))]
fn in_range(label: i64, offer: i64, price: i64) -> bool
    ensures { result ≡ in_range (record { label = label; offer = offer; price = price }) }
{
    (0..=499).contains(&label) && 0 <= offer && (0..=999999).contains(&price)
}

// Whether every row of three cells is in range; ends at the first that is not.
pub(crate) fn all_in_range(cells: &[i64]) -> bool
    ensures { result ≡ all in_range (rows_in cells.now) }
{
    for i in 0..cells.len() / 3 {
        let at = 3 * i;
        let label = cells[at];
        let offer = cells[at + 1];
        let price = cells[at + 2];
        if !in_range(label, offer, price) {
            return false;
        }
    }
    true
}
