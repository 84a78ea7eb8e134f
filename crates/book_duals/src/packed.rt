// The products with the generator, p at most 3, with 8 / p dual words in a byte: place j of a packed word has the symbols of several dual words
// at place j, p digits each. What is added to a byte is added to all of them, and so with a symbol that a byte is multiplied by.
ghost use Rattle.std.specs.Prelude.{◌≡◌, ℕ, ◌+◌, ◌*◌, ◌/◌, ◌%◌, ◌^◌, ◌≤◌, ◌<◌, length};
ghost use Rattle.std.specs.Int.Bits.{bit_xor};
ghost use Rattle.spec_range.specs.Fold.{all};
ghost use Rattle.spec_range.specs.Table.{table};
ghost use Rattle.sizes.specs.Blocks.{span, stride};
ghost use Rattle.spec_word.specs.Lanes.{lane};
ghost use Rattle.word_array.specs.Stored.{place, Sizes};
ghost use Rattle.word_table.specs.Window.{Window};
ghost use Rattle.word_table.specs.Multiples.{entry, RowPut, Tabled};
ghost use Rattle.spec_book.specs.Layout.{width, dual_at};
ghost use Rattle.book_duals.specs.Duals.{dual_product, product_ok, Zeros, Tested};
ghost use Rattle.book_duals.specs.Lanes.{lanes, low_digits, other_digits, double_all, packed_at};

use sizes::{BLOCK, FEW_TABLE, SPAN, TABLE};

// Whether all products are zero. Rooms are small where words are short: to clear more costs time.
pub fn products_vanish(p: u8, n: usize, book: &[u8], duals: usize) -> bool
    requires { Tested book.now p n duals × (p ≤ 3) }
    ensures { result ≡ all duals (product_ok p n book.now) }
{
    if n < BLOCK {
        vanish_with::<FEW_TABLE, BLOCK>(p, n, book, duals)
    } else {
        vanish_with::<TABLE, SPAN>(p, n, book, duals)
    }
}

// The same with room for a table and for words of so many places.
fn vanish_with<const TABLE: usize, const PLACES: usize>(
    p: u8,
    n: usize,
    book: &[u8],
    duals: usize,
) -> bool
    requires { Tested book.now p n duals × (p ≤ 3) × (stride n * 2 ^ p ≤ TABLE) × (span n ≤ PLACES) × (TABLE ≤ 8192) × (PLACES ≤ 256) }
    ensures { result ≡ all duals (product_ok p n book.now) }
{
    let mut t = [0u8; TABLE];
    let mut product = [0u8; PLACES];
    let mut left = [0u8; PLACES];
    vanish_in(p, n, book, duals, &mut t, &mut product, &mut left)
}

// The same in these rooms: the products of all dual words are joined, and looked at once.
fn vanish_in(
    p: u8,
    n: usize,
    book: &[u8],
    duals: usize,
    t: &mut [u8],
    product: &mut [u8],
    left: &mut [u8],
) -> bool
    requires { Tested book.now p n duals × (p ≤ 3) × (stride n * 2 ^ p ≤ length t.old) × (span n ≤ length product.old) × (span n ≤ length left.old)
        × ((j : ℕ) → j < n → place left.old j ≡ 0) }
    ensures { result ≡ all duals (product_ok p n book.now) }
{
    let most = usize::from(8 / p);
    let blocks = sizes::blocks(n);
    for l in (0..duals).step_by(most) {
        let k = most.min(duals - l);
        product_of(p, n, book, l, k, t, product);
        crate::join(blocks, product, left);
    }
    word_array::is_zero(n, left)
}

// The products of the k dual words from l on, packed.
fn product_of(p: u8, n: usize, book: &[u8], l: usize, k: usize, t: &mut [u8], product: &mut [u8])
    requires { Tested book.now p n (l + k) × (p ≤ 3) × (k ≤ 8 / p) × (stride n * 2 ^ p ≤ length t.old) × (span n ≤ length product.old) }
    ensures { (length t.new ≡ length t.old) × (length product.new ≡ length product.old)
        × Zeros n (dual_product p n book.now) l k product.new }
{
    packed(p, n, book, l, k, product);
    multiples(p, n, product, t);
    word_table::product(n, n, book, crate::GENERATOR, t, product);
}

// The records of the k dual words from l on, packed: the first in the lowest digits. Their kind bytes come first, so that blocks are whole.
fn packed(p: u8, n: usize, book: &[u8], l: usize, k: usize, out: &mut [u8])
    requires { Tested book.now p n (l + k) × (k ≤ 8 / p) × (span n ≤ length out.old) }
    ensures { Window 0 (span n) (packed_at p book.now l k) out.old out.new }
{
    let blocks = sizes::blocks(n);
    for b in 0..blocks {
        let block = packed_block(p, book, l, k, BLOCK * b);
        word_table::put_block(block, BLOCK * b, out);
    }
}

// The block of them from place `at` on.
fn packed_block(p: u8, book: &[u8], l: usize, k: usize, at: usize) -> [u8; BLOCK]
    requires { (1 ≤ p) × (k ≤ 8 / p) × (l + k ≤ 32) × (dual_at (width book.now) (l + k) ≤ length book.now) × (at + 64 ≤ 1 + width book.now) }
    ensures { result ≡ table 64 (λ j. packed_at p book.now l k (at + j)) }
{
    let mut out = [0u8; BLOCK];
    let mut shift: u8 = 0;
    for i in 0..k {
        pack(
            book,
            book_layout::dual_at(book, l + i) + at,
            shift,
            &mut out,
        );
        shift += p;
    }
    out
}

// Adds the bytes from `start` on, shifted up, to a packed block.
fn pack(book: &[u8], start: usize, shift: u8, out: &mut [u8; BLOCK])
    requires { (shift < 8) × (start + 64 ≤ length book.now) × (length out.old ≡ 64) }
    ensures { out.new ≡ table 64 (λ j. bit_xor (place out.old j) (place book.now (start + j) * 2 ^ shift % 256)) }
{
    for j in 0..BLOCK {
        out[j] = out[j] ^ (book[start + j] << shift);
    }
}

// Makes the table of the multiples of a packed word, whose symbols stand after a kind byte: of the multiples of each of its words.
fn multiples(p: u8, n: usize, w: &[u8], t: &mut [u8])
    requires { Sizes p n × (p ≤ 3) × (span n ≤ length w.now) × ((j : ℕ) → j + 1 < span n → place w.now (1 + j) < 2 ^ (8 / p * p))
        × (stride n * 2 ^ p ≤ length t.old) }
    ensures { (length t.new ≡ length t.old)
        × ((i : ℕ) → i < 9 → Tabled (stride n) p n (λ j. lane p i (place w.now (1 + j))) (lanes p i t.old) (lanes p i t.new)) }
{
    let blocks = sizes::blocks(n);
    let q = usize::from(field::order(p));
    word_table::put_first_rows(n, w, 1, t);
    for c in 1..q / 2 {
        double_row(p, blocks, c, t);
        word_table::put_next(blocks, c, t);
    }
}

// Row 2c of a table: x times row c, block by block.
fn double_row(p: u8, blocks: usize, c: usize, t: &mut [u8])
    requires { (1 ≤ p) × (p ≤ 3) × (1 ≤ c) × (1 ≤ blocks) × (128 * blocks * (2 * c) + 128 * blocks ≤ length t.old) }
    ensures { RowPut (128 * blocks) (2 * c) (λ j. double_all p (entry (128 * blocks) t.old c j)) t.old t.new }
{
    let from = 2 * BLOCK * blocks * c;
    let to = 2 * BLOCK * blocks * (2 * c);
    for b in 0..2 * blocks {
        let row = word_table::block(t, from + BLOCK * b);
        double_block(p, row, to + BLOCK * b, t);
    }
}

// Writes x times all symbols of a block from `to` on. The highest digit of each is taken off, the others go one up, and the polynomial's x + 1 is added where it
// was set.
fn double_block(p: u8, row: [u8; BLOCK], to: usize, t: &mut [u8])
    requires { (1 ≤ p) × (p ≤ 3) × (to + 64 ≤ length t.old) }
    ensures { Window to 64 (λ j. double_all p (place row j)) t.old t.new }
{
    let ones = low_digits(p);
    let others = other_digits(p);
    let up = p - 1;
    for j in 0..BLOCK {
        let x = row[j];
        let top = (x >> up) & ones;
        let rest = x & others;
        t[to + j] = (rest + rest) ^ (top * 3);
    }
}

// The lowest digit of each symbol of a byte.
fn low_digits(p: u8) -> u8
    ensures { result ≡ low_digits p }
{
    if p == 2 { 85 } else { 9 }
}

// All digits but the highest of each symbol of a byte.
fn other_digits(p: u8) -> u8
    ensures { result ≡ other_digits p }
{
    if p == 2 { 85 } else { 27 }
}
