// The codebook: its byte layout and the conditions under which it is accepted. The book is read where it lies.
#![tactic(auto)]

ghost use Rattle.std.specs.Prelude.{◌≡◌, false, cond, ◌*◌, ◌^◌, ◌≤◌, length};
ghost use Rattle.sizes.specs.Blocks.{stride};
ghost use Rattle.spec_book.specs.Layout.{is_long, symbol_digits, word_length};
ghost use Rattle.book_records.specs.Records.{Readable};
ghost use Rattle.spec_operations.specs.Check.{check_answer};
ghost use Rattle.book.specs.Params.{said};
ghost use Rattle.book.specs.Opened.{few_symbols, table_room, MatrixBound, Opens};

use refusal::Refusal;
use sizes::{FEW_TABLE, GENERATOR_AT, TABLE};

mod conditions;
mod generator;

// What coding and decoding read off an accepted book.
#[derive(Clone, Copy)]
pub struct Params {
    pub p: u8,
    pub n: usize,
    pub degree: usize,
    pub rounds: u8,
    pub places: usize,
    pub duals: usize,
}

// Whether a book's p tells of few symbols, whatever the book. One that ends before p needs no more room than those.
pub fn few_symbols(book: &[u8]) -> bool
    ensures { result ≡ few_symbols book.now }
{
    if book.len() < GENERATOR_AT {
        return true;
    }
    sizes::few(book[2])
}

// Whether the smallest room holds the table of a book's generator.
fn small_table(book: &[u8]) -> bool
    ensures { result ≡ cond (is_long book.now) false (few_symbols book.now) }
{
    if book_layout::is_long(book) {
        return false;
    }
    few_symbols(book)
}

// The most entries that a book's matrix takes, known before the book is opened, so that a buffer can be cut to it: the size itself where the book is accepted.
pub fn matrix_bound(book: &[u8]) -> usize
    ensures { MatrixBound book.now result }
{
    if book.len() < GENERATOR_AT {
        return 0;
    }
    let s = book[1];
    let p = book[2];
    if most_exponent(book) < s {
        return 0;
    }
    if most_digits(book) < p {
        return 0;
    }
    usize::from(field::order(p)) * book_records::word_length(s)
}

// The largest s of a book's form, and the largest p.
fn most_exponent(book: &[u8]) -> u8
    ensures { result ≡ cond (is_long book.now) 8 6 }
{
    if book_layout::is_long(book) { 8 } else { 6 }
}

fn most_digits(book: &[u8]) -> u8
    ensures { result ≡ cond (is_long book.now) 4 6 }
{
    if book_layout::is_long(book) { 4 } else { 6 }
}

// Opens a book: checks it, tells what was read off it, and leaves the table of its generator's multiples in t.
pub fn open(book: &[u8], t: &mut [u8]) -> Result<Params, Refusal>
    requires { table_room book.now ≤ length t.old }
    ensures { Opens book.now result t.new × (length t.new ≡ length t.old) }
{
    book_records::refusal(book)?;
    open_readable(book, t)
}

// The same where none of the numbers 1 to 4 applies. Everything is read once, and what is read serves the other conditions and the caller.
fn open_readable(book: &[u8], t: &mut [u8]) -> Result<Params, Refusal>
    requires { Readable book.now × (stride (word_length book.now) * 2 ^ symbol_digits book.now ≤ length t.old) }
    ensures { Opens book.now result t.new × (length t.new ≡ length t.old) }
{
    let p = book[2];
    let n = book_records::word_length(book[1]);
    word_table::tabulate(p, n, book, GENERATOR_AT + 1, t);
    let limits = GENERATOR_AT + book_layout::record(book);
    let c = Params {
        p,
        n,
        degree: generator::degree(book, n),
        rounds: book[limits + 1],
        places: usize::from(book[limits + 2]),
        duals: book_records::dual_count(book),
    };
    conditions::refusal(book, c, t)?;
    Ok(c)
}

// Check a codebook: the count of its dual words.
pub fn check(book: &[u8]) -> Result<u8, Refusal>
    ensures { said result ≡ check_answer book.now }
{
    if small_table(book) {
        check_in::<FEW_TABLE>(book)
    } else {
        check_in::<TABLE>(book)
    }
}

// The same with room for a table of so many places.
fn check_in<const TABLE: usize>(book: &[u8]) -> Result<u8, Refusal>
    requires { (table_room book.now ≤ TABLE) × (TABLE ≤ 8192) }
    ensures { said result ≡ check_answer book.now }
{
    let mut t = [0u8; TABLE];
    let c = open(book, &mut t)?;
    Ok(c.duals as u8)
}
