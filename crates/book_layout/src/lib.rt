// Where a codebook's records lie, by its form, which the kind byte of its generator tells.
#![tactic(auto)]

ghost use Rattle.std.specs.Prelude.{◌≡◌, cond, ◌+◌, ◌/◌, ◌≤◌};
ghost use Rattle.spec_book.specs.Layout.{is_long, width, dual_at};

use sizes::GENERATOR_AT;

// The kind of a generator in the long form.
const LONG_GENERATOR: u8 = 5;

// Whether a book is of the long form. One that ends before the byte that tells is not.
pub fn is_long(book: &[u8]) -> bool
    ensures { result ≡ is_long book.now }
{
    if book.len() <= GENERATOR_AT {
        return false;
    }
    book[GENERATOR_AT] == LONG_GENERATOR
}

// The bytes of the record of a generator or a dual word in a form, its kind byte among them.
pub fn record_of(long: bool) -> usize
    ensures { (result ≡ 1 + cond long 255 63) × (result ≤ 256) }
{
    if long { 256 } else { 64 }
}

// How many such records there are in `size` bytes: by constants, so that no division is made.
pub fn records_in(long: bool, size: usize) -> usize
    ensures { result ≡ size / (1 + cond long 255 63) }
{
    if long { size / 256 } else { size / 64 }
}

// The bytes of such a record of a book.
pub fn record(book: &[u8]) -> usize
    ensures { (result ≡ 1 + width book.now) × (result ≤ 256) }
{
    record_of(is_long(book))
}

// Where the record of dual word l starts; for l = L, where the book ends.
pub fn dual_at(book: &[u8], l: usize) -> usize
    requires { l ≤ 32 }
    ensures { result ≡ dual_at (width book.now) l }
{
    let record = record(book);
    record + 6 + record * l
}
