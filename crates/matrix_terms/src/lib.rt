// Counting a matrix: what its ways share.
#![tactic(auto)]

ghost use Rattle.std.specs.Prelude.{◌≡◌, cond, ℕ, ◌+◌, ◌-◌, ◌*◌, ◌^◌, ◌≤◌, ◌<◌, ltb, length};
ghost use Rattle.spec_range.specs.Fold.{total};
ghost use Rattle.spec_range.specs.Table.{table};
ghost use Rattle.word_array.specs.Stored.{place, Sizes};
ghost use Rattle.sizes.specs.Blocks.{span, stride};
ghost use Rattle.word_table.specs.Multiples.{word_of, Multiples, Multiplied};
ghost use Rattle.matrix_terms.specs.Terms.{dual_of, Terms, RowOf, TermsOf, Kept, terms_at};
ghost use Rattle.matrix_terms.specs.Listed.{DualIn, RowIn, Listable, DualListed};
ghost use Rattle.matrix_terms.specs.Sums.{terms_sum, Summands};
ghost use Rattle.matrix_terms.specs.RowZero.{Covers, Subtracted};

use field_powers::POWERS_AT;
use sizes::{BLOCK, DUALS, SPAN};

// Where a room has the weight of the dual words, which is not 0; 0 there says that nothing is listed yet.
pub const WEIGHT_AT: usize = 0;
// Where it has the terms of the first dual word.
pub const TERMS_AT: usize = POWERS_AT + 2 * BLOCK;
// How many numbers a room has where words take a single block, and where they are longer. In one that is all zeros nothing is listed yet.
pub const TERMS: usize = TERMS_AT + BLOCK * DUALS;

pub const LONG_TERMS: usize = TERMS_AT + SPAN * DUALS;

// Puts the terms of dual word l into its row: that of each place is written, and stays where its symbol is not zero and the count goes on.
fn list_dual(book: &[u8], p: u8, n: usize, l: usize, terms: &mut [u16]) -> usize
    requires { DualIn book.now p n l × RowIn p n l terms.old }
    ensures { DualListed (stride n) book.now n l result terms.old terms.new }
{
    let blocks = sizes::blocks(n);
    let start = book_layout::dual_at(book, l) + 1;
    let from = TERMS_AT + BLOCK * blocks * l;
    let stride = (2 * BLOCK * blocks) as u16;
    let mut count: usize = 0;
    for h in 0..n {
        let c = book[start + h];
        terms[from + count] = stride * terms[c as usize] + (h as u16);
        count += (c != 0) as usize;
    }
    count
}

// Lists the terms of every dual word. The weight comes last, so that number 0 is 0 until they stand.
pub fn list(book: &[u8], p: u8, n: usize, duals: usize, terms: &mut [u16])
    requires { Listable book.now p n duals × (terms_at + span n * 32 ≤ length terms.old) }
    ensures { TermsOf (stride n) p n duals (dual_of book.now) terms.new
        × (length terms.new ≡ length terms.old) }
{
    field_powers::put(p, terms);
    let mut weight: usize = 0;
    for l in 0..duals {
        weight = list_dual(book, p, n, l, terms);
    }
    terms[WEIGHT_AT] = weight as u16;
}

// Lists the terms where nothing is listed yet.
pub fn ready(book: &[u8], p: u8, n: usize, duals: usize, terms: &mut [u16])
    requires { Listable book.now p n duals × (terms_at + span n * 32 ≤ length terms.old) × Kept (stride n) p n duals (dual_of book.now) terms.old }
    ensures { TermsOf (stride n) p n duals (dual_of book.now) terms.new
        × (length terms.new ≡ length terms.old) }
{
    if terms[WEIGHT_AT] == 0 {
        list(book, p, n, duals, terms);
    }
}

// The block from place `at` on of the sum of the table's rows that the terms from `from` on tell. A row has 2 ^ shift places, so that no term is divided.
fn product_block(
    n: usize,
    blocks: usize,
    shift: u8,
    from: usize,
    terms: &[u16],
    t: &[u8],
    at: usize,
) -> [u8; BLOCK]
    requires { Summands (128 * blocks) (64 * blocks) n terms.now from t.now × (2 ^ shift ≡ 128 * blocks) × (shift ≤ 9) × (at + 64 ≤ 64 * blocks) }
    ensures { result ≡ table 64 (λ j. terms_sum (128 * blocks) n terms.now from t.now (at + j)) }
{
    let weight = terms[WEIGHT_AT] as usize;
    let stride = 2 * BLOCK * blocks;
    let mut sum = [0u8; BLOCK];
    for i in 0..weight {
        let term = terms[from + i] as usize;
        let c = terms[POWERS_AT + (term >> shift)] as usize;
        word_table::add_block(t, stride * c + (n - (term & (stride - 1))) + at, &mut sum);
    }
    sum
}

// The product of the word whose terms are in row l and the word of the table t, in the first blocks of w: the sum of the table's places that each term tells.
pub fn product(l: usize, p: u8, n: usize, duals: usize, terms: &[u16], t: &[u8], w: &mut [u8])
    requires { Terms (stride n) p n duals terms.now × (l < duals) × Multiples (stride n) p n t.now × (span n ≤ length w.old) }
    ensures { (b : ℕ → ℕ) → RowOf (stride n) p n l b terms.now
        → Multiplied (span n) p n b (word_of (stride n) n t.now) w.new }
{
    let blocks = sizes::blocks(n);
    let shift = sizes::shift(n);
    let from = TERMS_AT + BLOCK * blocks * l;
    for b in 0..blocks {
        let sum = product_block(n, blocks, shift, from, terms, t, BLOCK * b);
        word_table::put_block(sum, BLOCK * b, w);
    }
}

// Subtracts the n numbers of m that start at `from`.
fn subtract_row(n: usize, from: usize, m: &[u16], left: &mut [u16; SPAN])
    requires { Covers n from m.now left.old }
    ensures { Subtracted n from m.now left.old left.new }
{
    for j in 0..n {
        left[j] -= m[from + j];
    }
}

// What the rows from 1 on leave of `all`, in each column.
fn rest(p: u8, n: usize, all: u16, m: &[u16]) -> [u16; SPAN]
    requires { Sizes p n × (length m.now ≡ 2 ^ p * n) × ((j : ℕ) → j < n → total (2 ^ p - 1) (λ i. place m.now ((1 + i) * n + j)) ≤ all) }
    ensures { (j : ℕ) → j < n → place result j ≡ all - total (2 ^ p - 1) (λ i. place m.now ((1 + i) * n + j)) }
{
    let rows = usize::from(field::order(p)) - 1;
    let mut left = [all; SPAN];
    for i in 0..rows {
        subtract_row(n, (1 + i) * n, m, &mut left);
    }
    left
}

// Writes the first n places of `row` over row 0.
fn put_row(n: usize, row: [u16; SPAN], m: &mut [u16])
    requires { (n ≤ 255) × (n ≤ length m.old) }
    ensures { m.new ≡ table (length m.old) (λ k. cond (ltb k n) (place row k) (place m.old k)) }
{
    for j in 0..n {
        m[j] = row[j];
    }
}

// Row 0 of a matrix whose columns add up to `all`: what the other rows leave.
pub fn row_zero(p: u8, n: usize, all: u16, m: &mut [u16])
    requires { Sizes p n × (length m.old ≡ 2 ^ p * n) × ((j : ℕ) → j < n → total (2 ^ p - 1) (λ i. place m.old ((1 + i) * n + j)) ≤ all) }
    ensures { m.new ≡ table (2 ^ p * n) (λ k.
        cond (ltb k n) (all - total (2 ^ p - 1) (λ i. place m.old ((1 + i) * n + k))) (place m.old k)) }
{
    let left = rest(p, n, all, m);
    put_row(n, left, m);
}
