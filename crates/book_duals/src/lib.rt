// Condition 7, of all dual words of a book at once: symbol 1 at place 0, one weight, and products with the generator that are zero.
#![tactic(auto)]

ghost use Rattle.std.specs.Prelude.{◌≡◌, ◌+◌, ◌*◌, ◌≤◌, length};
ghost use Rattle.std.specs.Int.Bits.{bit_or};
ghost use Rattle.spec_range.specs.Fold.{count, all};
ghost use Rattle.spec_word.specs.Word.{nonzero};
ghost use Rattle.sizes.specs.Blocks.{stride};
ghost use Rattle.word_array.specs.Stored.{place};
ghost use Rattle.word_table.specs.Window.{Window};
ghost use Rattle.book_duals.specs.Duals.{weight_ok, product_ok, Lying, Tested, Table};

use sizes::{BLOCK, GENERATOR_AT};

pub mod packed;
pub mod plain;

// Where the generator's symbols start in a book, after its kind byte.
pub const GENERATOR: usize = GENERATOR_AT + 1;

// Whether every dual word has symbol 1 at place 0 and the weight of the first.
pub fn weights_ok(book: &[u8], n: usize, duals: usize) -> bool
    requires { Lying book.now n duals }
    ensures { result ≡ all duals (weight_ok n book.now) }
{
    let blocks = sizes::blocks(n);
    let wanted = weight_at(blocks, book, book_layout::dual_at(book, 0));
    let mut ok = true;
    for l in 0..duals {
        let start = book_layout::dual_at(book, l);
        ok &= book[start + 1] == 1;
        let weight = weight_at(blocks, book, start);
        ok &= weight == wanted;
    }
    ok
}

// The count of nonzero bytes in the blocks of a dual word's record, from its kind byte on: one more than the word's weight.
fn weight_at(blocks: usize, book: &[u8], start: usize) -> u16
    requires { (blocks ≤ 4) × (start + 64 * blocks ≤ length book.now) }
    ensures { result ≡ count (64 * blocks) (λ j. nonzero (place book.now (start + j))) }
{
    let mut count: u16 = 0;
    for b in 0..blocks {
        count += weight_block(book, start + BLOCK * b) as u16;
    }
    count
}

// The same of one block, in a byte, which makes the widest vector steps.
fn weight_block(book: &[u8], from: usize) -> u8
    requires { from + 64 ≤ length book.now }
    ensures { (result ≡ count 64 (λ j. nonzero (place book.now (from + j)))) × (result ≤ 64) }
{
    let mut count: u8 = 0;
    for j in 0..BLOCK {
        count += (book[from + j] != 0) as u8;
    }
    count
}

// Whether the product of every dual word with the generator is zero. t is the table of the generator's multiples.
pub fn products_vanish(p: u8, n: usize, book: &[u8], duals: usize, t: &[u8]) -> bool
    requires { Tested book.now p n duals × Table (stride n) book.now p n t.now }
    ensures { result ≡ all duals (product_ok p n book.now) }
{
    if sizes::few(p) {
        packed::products_vanish(p, n, book, duals)
    } else {
        plain::products_vanish(p, n, book, duals, t)
    }
}

// Joins a word to those before it: a place stays zero where all of them are zero.
pub fn join(blocks: usize, word: &[u8], left: &mut [u8])
    requires { (64 * blocks ≤ length word.now) × (64 * blocks ≤ length left.old) }
    ensures { Window 0 (64 * blocks) (λ j. bit_or (place left.old j) (place word.now j)) left.old left.new }
{
    for b in 0..blocks {
        join_block(word, BLOCK * b, left);
    }
}

// The block from place `at` on of it.
fn join_block(word: &[u8], at: usize, left: &mut [u8])
    requires { (at + 64 ≤ length word.now) × (at + 64 ≤ length left.old) }
    ensures { Window at 64 (λ j. bit_or (place left.old (at + j)) (place word.now (at + j)))
        left.old left.new }
{
    for j in 0..BLOCK {
        left[at + j] = left[at + j] | word[at + j];
    }
}
