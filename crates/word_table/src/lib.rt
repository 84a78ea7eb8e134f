// Tables of the multiples of a word, off which products and divisions are read. A word stands there twice over, so that no place is taken modulo n, in a row
// of two blocks for each of its own: loops over a block have a fixed length and are whole vector steps.
#![tactic(auto)]

ghost use Rattle.std.specs.Prelude.{◌≡◌, ℕ, ◌+◌, ◌*◌, ◌^◌, ◌≤◌, ◌<◌, length};
ghost use Rattle.std.specs.Int.Bits.{bit_xor};
ghost use Rattle.spec_range.specs.Table.{table, padded};
ghost use Rattle.spec_field.specs.Symbols.{times_x};
ghost use Rattle.sizes.specs.Blocks.{span, stride};
ghost use Rattle.word_array.specs.Stored.{place, Sizes, Stored};
ghost use Rattle.word_table.specs.Window.{Window};
ghost use Rattle.word_table.specs.Multiples.{Laid, entry, Begun, RowStored, RowPut, Tabled};
ghost use Rattle.word_table.specs.Rows.{turned_sum, Summands};

use sizes::BLOCK;

// The block of a slice from `from` on.
pub fn block(s: &[u8], from: usize) -> [u8; BLOCK]
    requires { from + 64 ≤ length s.now }
    ensures { result ≡ table 64 (λ j. place s.now (from + j)) }
{
    let mut out = [0u8; BLOCK];
    for j in 0..BLOCK {
        out[j] = s[from + j];
    }
    out
}

// All places of a block but the last, and a zero: what is left of a word has no more.
fn last_block(s: &[u8], from: usize) -> [u8; BLOCK]
    requires { from + 63 ≤ length s.now }
    ensures { result ≡ padded 64 63 (λ j. place s.now (from + j)) }
{
    let mut out = [0u8; BLOCK];
    for j in 0..BLOCK - 1 {
        out[j] = s[from + j];
    }
    out
}

// Writes a block from `to` on.
pub fn put_block(b: [u8; BLOCK], to: usize, t: &mut [u8])
    requires { to + 64 ≤ length t.old }
    ensures { Window to 64 (place b) t.old t.new }
{
    for j in 0..BLOCK {
        t[to + j] = b[j];
    }
}

// Copies `count` blocks.
fn copy_blocks(s: &[u8], from: usize, count: usize, to: usize, t: &mut [u8])
    requires { (from + 64 * count ≤ length s.now) × (to + 64 * count ≤ length t.old) }
    ensures { Window to (64 * count) (λ j. place s.now (from + j)) t.old t.new }
{
    for b in 0..count {
        put_block(block(s, from + BLOCK * b), to + BLOCK * b, t);
    }
}

// Writes a word of n symbols, those of the slice from `from` on, twice over from `to` on. Its last block is read once: it is short of a place, and in the
// second copy it comes after all of the first.
pub fn lay(n: usize, s: &[u8], from: usize, to: usize, t: &mut [u8])
    requires { (1 ≤ n) × (n ≤ 255) × (from + span n ≤ length s.now + 1) × (to + n + span n ≤ length t.old) }
    ensures { Laid n (span n) (λ j. place s.now (from + j)) to t.old t.new }
{
    let count = sizes::blocks(n) - 1;
    let at = BLOCK * count;
    let last = last_block(s, from + at);
    copy_blocks(s, from, count, to, t);
    put_block(last, to + at, t);
    copy_blocks(s, from, count, to + n, t);
    put_block(last, to + n + at, t);
}

// Clears the first `count` blocks.
fn clear(count: usize, t: &mut [u8])
    requires { 64 * count ≤ length t.old }
    ensures { Window 0 (64 * count) (λ j. 0) t.old t.new }
{
    for b in 0..count {
        put_block([0; BLOCK], BLOCK * b, t);
    }
}

// Rows 0 and 1 of a table: zero, and the word of n symbols from `from` on in s.
pub fn put_first_rows(n: usize, s: &[u8], from: usize, t: &mut [u8])
    requires { (1 ≤ n) × (n ≤ 255) × (from + span n ≤ length s.now + 1) × (stride n + stride n ≤ length t.old) }
    ensures { Begun (stride n) n (span n) (λ j. place s.now (from + j)) t.old t.new }
{
    let blocks = sizes::blocks(n);
    clear(4 * blocks, t);
    lay(n, s, from, 2 * BLOCK * blocks, t);
}

// Writes x times each symbol of a block from `to` on.
fn put_times_x(p: u8, row: [u8; BLOCK], to: usize, t: &mut [u8])
    requires { (1 ≤ p) × (p ≤ 6) × (to + 64 ≤ length t.old) × Stored p 64 row }
    ensures { Window to 64 (λ j. times_x p (place row j)) t.old t.new }
{
    for j in 0..BLOCK {
        t[to + j] = field::double(p, row[j]);
    }
}

// Row 2c of a table whose rows have 2 * blocks blocks: x times row c, of which each block is read first: a loop that reads and writes one slice is
// compiled step by step.
fn put_double(p: u8, blocks: usize, c: usize, t: &mut [u8])
    requires { (1 ≤ p) × (p ≤ 6) × (1 ≤ c) × (1 ≤ blocks) × (blocks ≤ 4) × (128 * blocks * (2 * c) + 128 * blocks ≤ length t.old)
        × RowStored (128 * blocks) p c t.old }
    ensures { RowPut (128 * blocks) (2 * c) (λ j. times_x p (entry (128 * blocks) t.old c j)) t.old t.new }
{
    let from = 2 * BLOCK * blocks * c;
    let to = 2 * BLOCK * blocks * (2 * c);
    for b in 0..2 * blocks {
        let row = block(t, from + BLOCK * b);
        put_times_x(p, row, to + BLOCK * b, t);
    }
}

// Adds the block of a table from `from` on to a block, which is read first, since the sum is written over it.
pub fn add_block(t: &[u8], from: usize, sum: &mut [u8; BLOCK])
    requires { (from + 64 ≤ length t.now) × (length sum.old ≡ 64) }
    ensures { sum.new ≡ table 64 (λ j. bit_xor (place sum.old j) (place t.now (from + j))) }
{
    let old = block(sum, 0);
    word_array::add_eights(&old, &t[from..from + BLOCK], sum);
}

// Row 2c + 1 of a table: the word, which is row 1, added to row 2c.
pub fn put_next(blocks: usize, c: usize, t: &mut [u8])
    requires { (1 ≤ c) × (1 ≤ blocks) × (blocks ≤ 4) × (128 * blocks * (2 * c + 1) + 128 * blocks ≤ length t.old) }
    ensures { RowPut (128 * blocks) (2 * c + 1)
        (λ j. bit_xor (entry (128 * blocks) t.old (2 * c) j) (entry (128 * blocks) t.old 1 j)) t.old t.new }
{
    let first = 2 * BLOCK * blocks;
    let from = first * (2 * c);
    let to = from + first;
    for b in 0..2 * blocks {
        let mut sum = block(t, from + BLOCK * b);
        add_block(t, first + BLOCK * b, &mut sum);
        put_block(sum, to + BLOCK * b, t);
    }
}

// Makes the table of the multiples of the word of n symbols from `from` on in s: rows 0 and 1, and then two rows from each row c.
pub fn tabulate(p: u8, n: usize, s: &[u8], from: usize, t: &mut [u8])
    requires { Sizes p n × (from + span n ≤ length s.now + 1) × ((j : ℕ) → j + 1 < span n → place s.now (from + j) < 2 ^ p)
        × (stride n * 2 ^ p ≤ length t.old) }
    ensures { Tabled (stride n) p n (λ j. place s.now (from + j)) t.old t.new }
{
    let blocks = sizes::blocks(n);
    let q = usize::from(field::order(p));
    put_first_rows(n, s, from, t);
    for c in 1..q / 2 {
        put_double(p, blocks, c, t);
        put_next(blocks, c, t);
    }
}

// The block from place `at` on of the sum, over the `count` bytes from `start` on, of the row of each byte, turned by its place.
// Row 0 of a table of multiples is zero, so that zero symbols need no branch.
fn product_block(
    n: usize,
    blocks: usize,
    count: usize,
    symbols: &[u8],
    start: usize,
    t: &[u8],
    at: usize,
) -> [u8; BLOCK]
    requires { Summands (128 * blocks) (64 * blocks) n count symbols.now start t.now × (at + 64 ≤ 64 * blocks) × (blocks ≤ 4) }
    ensures { result ≡ table 64 (λ j. turned_sum (128 * blocks) n count (λ u. place symbols.now (start + u)) t.now (at + j)) }
{
    let mut sum = [0u8; BLOCK];
    for u in 0..count {
        let x = usize::from(symbols[start + u]);
        add_block(t, 2 * BLOCK * blocks * x + (n - u) + at, &mut sum);
    }
    sum
}

// The whole sum, in the first blocks of `out`, block by block: the sum of a block stays in registers.
pub fn product(n: usize, count: usize, symbols: &[u8], start: usize, t: &[u8], out: &mut [u8])
    requires { Summands (stride n) (span n) n count symbols.now start t.now × (span n ≤ length out.old) }
    ensures { Window 0 (span n) (turned_sum (stride n) n count (λ u. place symbols.now (start + u)) t.now)
        out.old out.new }
{
    let blocks = sizes::blocks(n);
    for b in 0..blocks {
        let sum = product_block(n, blocks, count, symbols, start, t, BLOCK * b);
        put_block(sum, BLOCK * b, out);
    }
}
