// The update rule: the corrections that a matrix asks for. Entry (i, j) of the matrix is at i * n + j.
#![tactic(auto)]

ghost use Rattle.std.specs.Prelude.{◌≡◌, cond, ◌&&◌, ℕ, ◌+◌, ◌*◌, ◌^◌, ◌<◌, ◌≤◌, max, leb, ltb, length, replicate};
ghost use Rattle.spec_range.specs.Fold.{count};
ghost use Rattle.spec_range.specs.Table.{padded};
ghost use Rattle.spec_field.specs.Symbols.{gf};
ghost use Rattle.word_array.specs.Stored.{place, Sizes};
ghost use Rattle.spec_book.specs.Book.{Book};
ghost use Rattle.spec_decoding.specs.Matrix.{cell};
ghost use Rattle.spec_decoding.specs.Decode.{correction};
ghost use Rattle.decode_update.specs.Column.{climbed, Taken, Peaked};
ghost use Rattle.decode_update.specs.Rule.{at_most, at_least, Widened, Limit};

use sizes::{BLOCK, SPAN, WIDTH, Word};

// How many numbers an entry can be.
const ENTRIES: u32 = 65536;
// The largest of them.
const MOST: u16 = 65535;

// The symbol of a column after the row of one more symbol, whose entry is x: 0, as SCOPE has it, where x only equals the peak so far. Symbols are bytes for
// the vector steps of the loop.
fn holder(count: u16, symbol: u8, x: u16, row: u8) -> u8
    ensures { result ≡ climbed count symbol x row }
{
    if count < x {
        return row;
    }
    if x < count {
        return symbol;
    }
    0
}

// Takes the row of one more symbol into the peaks, place by place.
fn take_row(row: &[u16], symbol: u8, counts: &mut [u16; WIDTH], symbols: &mut [u8; WIDTH])
    requires { (length row.now ≤ 255) × (length counts.old ≡ 255) × (length symbols.old ≡ 255) }
    ensures { Taken row.now symbol counts.old symbols.old counts.new symbols.new }
{
    let n = row.len();
    for j in 0..n {
        let x = row[j];
        let count = counts[j];
        counts[j] = count.max(x);
        symbols[j] = holder(count, symbols[j], x, symbol);
    }
}

// The peaks of the columns over rows 1 to q - 1, row by row, into arrays of zeros: the peak of each column, and the one nonzero symbol that has it,
// or 0 where the peak is 0 or several have it.
pub fn peaks(p: u8, n: usize, m: &[u16], counts: &mut [u16; WIDTH], symbols: &mut [u8; WIDTH])
    requires { Sizes p n × (length m.now ≡ 2 ^ p * n) × (counts.old ≡ replicate 255 0) × (symbols.old ≡ replicate 255 0) }
    ensures { Peaked n m.now (2 ^ p) counts.new symbols.new × (length counts.new ≡ 255) }
{
    for i in 1..field::order(p) {
        let start = (i as usize) * n;
        let end = start + n;
        take_row(&m[start..end], i, counts, symbols);
    }
}

// The first n numbers of a slice in SPAN places, and the largest entry in the others: a loop over all of them is made of whole vectors.
fn widened(n: usize, a: &[u16]) -> [u16; SPAN]
    requires { (n ≤ 255) × (n ≤ length a.now) }
    ensures { Widened n a.now 65535 result }
{
    let mut w = [MOST; SPAN];
    for j in 0..n {
        w[j] = a[j];
    }
    w
}

// How many of the numbers of a row's block are at most x.
fn at_most_block(row: &[u16; SPAN], from: usize, x: u16) -> u16
    requires { (length row.now ≡ 256) × (from + 64 ≤ 256) }
    ensures { (result ≡ count 64 (λ k. leb (place row.now (from + k)) x)) × (result ≤ 64) }
{
    let mut count: u16 = 0;
    for j in 0..BLOCK {
        count += (row[from + j] <= x) as u16;
    }
    count
}

// How many of the numbers of a row's first blocks are at most x.
fn at_most(blocks: usize, row: &[u16; SPAN], x: u16) -> usize
    requires { (length row.now ≡ 256) × (blocks ≤ 4) }
    ensures { result ≡ at_most (64 * blocks) row.now x }
{
    let mut count: u16 = 0;
    for b in 0..blocks {
        count += at_most_block(row, BLOCK * b, x);
    }
    count as usize
}

// The largest of the first n numbers of a slice.
fn largest(n: usize, a: &[u16]) -> u16
    requires { n ≤ length a.now }
    ensures { (k : ℕ) → k < n → place a.now k ≤ result }
{
    let mut most: u16 = 0;
    for j in 0..n {
        most = most.max(a[j]);
    }
    most
}

// The least number that more than `most` of a row are at most, found by halving, where more than `most` are at most `top`: it is one of the `width`
// numbers from `least` on.
fn limit(blocks: usize, row: &[u16; SPAN], most: usize, top: u16) -> u32
    requires { (length row.now ≡ 256) × (blocks ≤ 4) × (most < at_most (64 * blocks) row.now top) }
    ensures { Limit 65536 (64 * blocks) row.now most result }
{
    let mut least: u32 = 0;
    let mut width: u32 = top as u32 + 1;
    // What is left is halved, which no range counts.
    while 1 < width {
        let half = width / 2;
        if at_most(blocks, row, (least + half - 1) as u16) <= most {
            least += half;
        }
        width -= half;
    }
    least
}

// The number below which an entry of row 0 is admitted.
fn low_limit(n: usize, places: usize, a: &[u16]) -> u32
    requires { (n ≤ 255) × (n ≤ length a.now) }
    ensures { (x : ℕ) → x < 65536 → leb (at_most n a.now x) places ≡ ltb x result }
{
    if n <= places {
        return ENTRIES;
    }
    limit(sizes::blocks(n), &widened(n, a), places, largest(n, a))
}

// The number from which on a peak is admitted: at least n - places peaks are below it.
fn high_limit(n: usize, places: usize, a: &[u16]) -> u32
    requires { (n ≤ 255) × (n ≤ length a.now) }
    ensures { (x : ℕ) → x < 65536 → leb (at_least n a.now x) places ≡ leb result x }
{
    if n <= places {
        return 0;
    }
    let most = n - places - 1;
    limit(sizes::blocks(n), &widened(n, a), most, largest(n, a)) + 1
}

// The symbol of a column where its entry of row 0 is below `low` and its peak at least `high`, else 0.
fn chosen(low: u32, high: u32, entry: u16, peak: u16, symbol: u8) -> u8
    ensures { (result ≡ cond (ltb entry low && leb high peak) symbol 0) × (entry < 65536) × (peak < 65536) }
{
    let inside = ((entry as u32) < low) & (high <= peak as u32);
    if inside { symbol } else { 0 }
}

// The symbol to subtract at each place, 0 outside the update set; `places` is the most that either count may reach.
pub fn corrections(p: u8, n: usize, places: usize, m: &[u16]) -> Word
    requires { Sizes p n × (length m.now ≡ 2 ^ p * n) }
    ensures { (B : Book) → B.n ≡ n → B.most_places ≡ places → result ≡ padded 255 n (correction (gf p) B (cell (gf p) B m.now)) }
{
    let mut counts = [0u16; WIDTH];
    let mut symbols = [0u8; WIDTH];
    peaks(p, n, m, &mut counts, &mut symbols);
    let low = low_limit(n, places, m);
    let high = high_limit(n, places, &counts);
    let mut e = [0u8; WIDTH];
    for j in 0..n {
        e[j] = chosen(low, high, m[j], counts[j], symbols[j]);
    }
    e
}
