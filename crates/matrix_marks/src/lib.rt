// The frequency matrix where symbols are few, by marks: for each dual word and each power of x, where its product with the received word, twice over, has
// that power. Dividing by a symbol is an offset of rows, and turning is an offset of places, so that the counters are sums of marks.
#![tactic(auto)]

ghost use Rattle.std.specs.Prelude.{◌≡◌, ℕ, ◌+◌, ◌*◌, ◌^◌, ◌≤◌, ◌<◌, eqb, length};
ghost use Rattle.spec_range.specs.Fold.{indicator};
ghost use Rattle.spec_range.specs.Table.{table};
ghost use Rattle.spec_word.specs.Word.{at};
ghost use Rattle.sizes.specs.Blocks.{span, stride};
ghost use Rattle.word_array.specs.Stored.{place};
ghost use Rattle.word_table.specs.Multiples.{word_of};
ghost use Rattle.word_table.specs.Window.{Window};
ghost use Rattle.matrix_terms.specs.Count.{counted};
ghost use Rattle.matrix_terms.specs.Terms.{TermsOf, Filling};
ghost use Rattle.matrix_marks.specs.Marks.{powers_in, Markable, Marked, Addable, marks_of, Summable, terms_from, term_counts, Turned, Counted, Tallied};
ghost use Rattle.matrix_marks.specs.Marks.{Countable, Gatherable, Gathered, Rooms, RoomsFit};

use field_powers::POWERS_AT;
use matrix_terms::{TERMS_AT, WEIGHT_AT};
use sizes::{BLOCK, FEW_SYMBOLS, SPAN, STRIDE};

// The places of the marks of each power, twice round, where words take a single block.
const MARKS: usize = 2 * (FEW_SYMBOLS - 1) * 2 * BLOCK;
// The counters of a row for each symbol.
const COUNTERS: usize = FEW_SYMBOLS * BLOCK;
// The symbols of longer words, where they are few.
const LONG_SYMBOLS: usize = 4;
// The same for these.
const LONG_MARKS: usize = 2 * (LONG_SYMBOLS - 1) * STRIDE;

const LONG_COUNTERS: usize = LONG_SYMBOLS * SPAN;
// The places of a table of multiples of any word, where symbols are few.
const MULTIPLES: usize = LONG_SYMBOLS * STRIDE;

// The marks of a block: where it has the symbol s.
fn marked(w: [u8; BLOCK], s: u8) -> [u8; BLOCK]
    ensures { result ≡ table 64 (λ j. indicator (eqb (place w j) s)) }
{
    let mut out = [0u8; BLOCK];
    for j in 0..BLOCK {
        out[j] = (w[j] == s) as u8;
    }
    out
}

// The marks of a word's blocks, from `to` on.
fn mark(blocks: usize, w: &[u8], s: u8, to: usize, v: &mut [u8])
    requires { (64 * blocks ≤ length w.now) × (to + 64 * blocks ≤ length v.old) }
    ensures { Window to (64 * blocks) (λ j. indicator (eqb (place w.now j) s)) v.old v.new }
{
    for b in 0..blocks {
        let m = marked(word_table::block(w, BLOCK * b), s);
        word_table::put_block(m, to + BLOCK * b, v);
    }
}

// The first rows of v: where the word w of n symbols, twice over, has each of the powers.
fn mark_rows(n: usize, blocks: usize, rows: usize, terms: &[u16], w: &[u8], v: &mut [u8])
    requires { Markable (128 * blocks) (64 * blocks) n rows terms.now w.now v.old }
    ensures { Marked (128 * blocks) (64 * blocks) n rows (powers_in terms.now) w.now v.new }
{
    for e in 0..rows {
        let s = terms[POWERS_AT + e] as u8;
        let to = 2 * BLOCK * blocks * e;
        mark(blocks, w, s, to, v);
        mark(blocks, w, s, to + n, v);
    }
}

// Adds marks to a block of counters.
fn add_marks(v: &[u8], from: usize, row: &mut [u8; BLOCK])
    requires { Addable 64 v.now from row.old }
    ensures { row.new ≡ table 64 (λ j. place row.old j + place v.now (from + j)) }
{
    for j in 0..BLOCK {
        row[j] += v[from + j];
    }
}

// For each column of a block the sum of its marks over the terms of a dual word: a byte holds it.
fn count_block(v: &[u8], start: usize, terms: &[u16], from: usize, weight: usize) -> [u8; BLOCK]
    requires { Summable 64 v.now start terms.now from weight }
    ensures { result ≡ table 64 (marks_of v.now start terms.now from weight) }
{
    let mut row = [0u8; BLOCK];
    for i in 0..weight {
        add_marks(v, start + (terms[from + i] as usize), &mut row);
    }
    row
}

// Adds a block to the counters from `to` on.
fn raise(row: [u8; BLOCK], to: usize, counts: &mut [u16])
    requires { (to + 64 ≤ length counts.old) × ((j : ℕ) → j < 64 → place counts.old (to + j) ≤ 65280) }
    ensures { Window to 64 (λ j. place counts.old (to + j) + place row j) counts.old counts.new }
{
    for j in 0..BLOCK {
        counts[to + j] += row[j] as u16;
    }
}

// Adds the sums of a row's marks, from `start` on in v, to the counters from `to` on.
fn count_row(
    blocks: usize,
    v: &[u8],
    start: usize,
    terms: &[u16],
    from: usize,
    weight: usize,
    to: usize,
    counts: &mut [u16],
)
    requires { Summable (64 * blocks) v.now start terms.now from weight × (to + 64 * blocks ≤ length counts.old)
        × ((k : ℕ) → place counts.old k ≤ 65280) }
    ensures { Window to (64 * blocks) (λ j. place counts.old (to + j) + marks_of v.now start terms.now from weight j)
        counts.old counts.new }
{
    for b in 0..blocks {
        let row = count_block(v, start + BLOCK * b, terms, from, weight);
        raise(row, to + BLOCK * b, counts);
    }
}

// Counts a dual word whose product with the received word is w, and whose terms are the `weight` from `from` on. v is room for its marks.
fn count_dual(
    p: u8,
    n: usize,
    blocks: usize,
    w: &[u8],
    terms: &[u16],
    from: usize,
    weight: usize,
    v: &mut [u8],
    counts: &mut [u16],
)
    requires { Turned (128 * blocks) (64 * blocks) p n w.now terms.now from weight v.old counts.old }
    ensures { Counted (64 * blocks) p n (term_counts (128 * blocks) p (at n w.now) (terms_from terms.now from) weight)
        counts.old counts.new }
{
    let rows = usize::from(field::order(p)) - 1;
    mark_rows(n, blocks, 2 * rows, terms, w, v);
    for e in 0..rows {
        count_row(
            blocks,
            v,
            2 * BLOCK * blocks * e,
            terms,
            from,
            weight,
            BLOCK * blocks * e,
            counts,
        );
    }
}

// Copies n counters into the matrix.
fn gather_row(n: usize, to: usize, from: usize, counts: &[u16], m: &mut [u16])
    requires { (to + n ≤ length m.old) × (from + n ≤ length counts.now) }
    ensures { Window to n (λ j. place counts.now (from + j)) m.old m.new }
{
    for j in 0..n {
        m[to + j] = counts[from + j];
    }
}

// Rows 1 to q - 1 of the matrix: the row of a symbol is the counters' row of its logarithm.
fn gather(p: u8, n: usize, blocks: usize, terms: &[u16], counts: &[u16], m: &mut [u16])
    requires { Gatherable (64 * blocks) p n terms.now counts.now m.old }
    ensures { Gathered (64 * blocks) p n terms.now counts.now m.new }
{
    let q = usize::from(field::order(p));
    for i in 1..q {
        gather_row(n, i * n, BLOCK * blocks * (terms[i] as usize), counts, m);
    }
}

// Counts the dual words. t is the table of the received word's multiples, and v room for marks.
fn count_duals(
    p: u8,
    n: usize,
    duals: usize,
    terms: &[u16],
    t: &[u8],
    v: &mut [u8],
    counts: &mut [u16],
)
    requires { Countable (stride n) (span n) p n duals terms.now t.now v.old counts.old }
    ensures { Tallied (stride n) (span n) p n duals terms.now (word_of (stride n) n t.now) duals counts.new }
{
    let weight = terms[WEIGHT_AT] as usize;
    let blocks = sizes::blocks(n);
    let mut w = [0u8; SPAN];
    for l in 0..duals {
        matrix_terms::product(l, p, n, duals, terms, t, &mut w);
        count_dual(
            p,
            n,
            blocks,
            &w,
            terms,
            TERMS_AT + BLOCK * blocks * l,
            weight,
            v,
            counts,
        );
    }
}

// Fills the matrix in lent rooms for the marks and the counters, which are zero. The table has its room here, where it takes no stack of the other way to
// count a matrix.
fn fill_in(
    p: u8,
    n: usize,
    duals: usize,
    terms: &[u16],
    r: &[u8],
    v: &mut [u8],
    counts: &mut [u16],
    m: &mut [u16],
)
    requires { Filling (stride n) p n duals terms.now r.now m.old × (stride n * 2 ^ p ≤ 2048)
        × Rooms (stride n) (span n) p v.old counts.old }
    ensures { (b : ℕ → ℕ → ℕ) → TermsOf (stride n) p n duals b terms.now → m.new ≡ counted p n b duals (at n r.now) }
{
    let mut t = [0u8; MULTIPLES];
    word_table::tabulate(p, n, r, 0, &mut t);
    count_duals(p, n, duals, terms, &t, v, counts);
    gather(p, n, sizes::blocks(n), terms, counts, m);
    matrix_terms::row_zero(p, n, (duals as u16) * terms[WEIGHT_AT], m);
}

// Fills the matrix with room for so many marks and counters: to clear more room costs time.
fn fill_with<const MARKS: usize, const COUNTERS: usize>(
    p: u8,
    n: usize,
    duals: usize,
    terms: &[u16],
    r: &[u8],
    m: &mut [u16],
)
    requires { Filling (stride n) p n duals terms.now r.now m.old × (stride n * 2 ^ p ≤ 2048) × RoomsFit (stride n) (span n) p MARKS COUNTERS
        × (MARKS + 2 * COUNTERS ≤ 65536) }
    ensures { (b : ℕ → ℕ → ℕ) → TermsOf (stride n) p n duals b terms.now → m.new ≡ counted p n b duals (at n r.now) }
{
    let mut v = [0u8; MARKS];
    let mut counts = [0u16; COUNTERS];
    fill_in(p, n, duals, terms, r, &mut v, &mut counts, m);
}

// Fills the matrix of the word r over the dual words whose terms are listed.
pub fn fill(p: u8, n: usize, duals: usize, terms: &[u16], r: &[u8], m: &mut [u16])
    requires { Filling (stride n) p n duals terms.now r.now m.old × (p ≤ 3) × (64 ≤ n → p ≤ 2) }
    ensures { (b : ℕ → ℕ → ℕ) → TermsOf (stride n) p n duals b terms.now → m.new ≡ counted p n b duals (at n r.now) }
{
    if n < BLOCK {
        fill_with::<MARKS, COUNTERS>(p, n, duals, terms, r, m);
    } else {
        fill_with::<LONG_MARKS, LONG_COUNTERS>(p, n, duals, terms, r, m);
    }
}
