// The sizes of words, tables, matrices and books, each named once.
#![tactic(auto)]

ghost use Rattle.std.specs.Prelude.{◌≡◌, ◌*◌, ◌/◌, ◌<◌, ltb};
ghost use Rattle.sizes.specs.Blocks.{blocks, shift};

// The places of the longest word.
pub const WIDTH: usize = 255;
// A word by value, zero from its last symbol on.
pub type Word = [u8; WIDTH];
// The places that one step over a word takes: whole vectors. A word takes as many blocks as it needs, with a place to spare, so that a short one
// takes a single step.
pub const BLOCK: usize = 64;
// The places of the longest word in whole blocks, and of a row that has room for it twice over.
pub const SPAN: usize = 256;

pub const STRIDE: usize = 512;
// The symbols that one packed number holds.
pub const EIGHT: usize = 8;
// The most symbols of a field, and of one that is called small.
pub const SYMBOLS: usize = 64;

pub const FEW_SYMBOLS: usize = 8;
// The places of a table of multiples, a row for each symbol: of any book, of a short one with few symbols, of a long one with few.
pub const TABLE: usize = 8192;

pub const FEW_TABLE: usize = 1024;

pub const LONG_FEW_TABLE: usize = 4096;
// The entries of a matrix, a row of a word's length for each symbol, of the same three.
pub const MATRIX: usize = 4080;

pub const FEW_MATRIX: usize = 504;

pub const LONG_FEW_MATRIX: usize = 2040;

// Where a book has the kind byte of its generator, which tells its form.
pub const GENERATOR_AT: usize = 3;
// The most dual words, and the length of the longest book.
pub const DUALS: usize = 32;

pub const BOOK: usize = 8454;
// The most words of a burst.
pub const BURST: usize = 16;
// The places of so many words, of a short book and of any.
pub const BURST_PLACES: usize = 1008;

pub const LONG_BURST_PLACES: usize = 4080;

// How many blocks a word of n symbols takes.
pub fn blocks(n: usize) -> usize
    ensures { result ≡ blocks n }
{
    if n < 64 {
        return 1;
    }
    if n < 128 {
        return 2;
    }
    4
}

// The places of a row of a table, which has room for the word twice over, as a power of 2.
pub fn shift(n: usize) -> u8
    ensures { result ≡ shift n }
{
    if n < 64 {
        return 7;
    }
    if n < 128 {
        return 8;
    }
    9
}

// How many of n places go in whole eights.
pub fn packed_places(n: usize) -> usize
    ensures { result ≡ 8 * (n / 8) }
{
    EIGHT * (n / EIGHT)
}

// How many digits of a packed number stand below the byte of place k: the lowest place has the lowest byte.
pub fn digits_below(k: usize) -> usize
    requires { k < 8 }
    ensures { result ≡ 8 * k }
{
    8 * k
}

// Whether symbols are few: 8 at most. Rooms are then small, and loops over all symbols short.
pub fn few(p: u8) -> bool
    ensures { result ≡ ltb p 4 }
{
    p < 4
}
