// The frequency matrix where symbols are many: each nonzero place of a dual word raises one counter a column, in the row that logarithms tell.
#![tactic(auto)]

ghost use Rattle.std.specs.Prelude.{◌≡◌, ℕ, ◌+◌, ◌-◌, ◌*◌, ◌%◌, ◌^◌, ◌≤◌, ◌<◌, eqb, length};
ghost use Rattle.spec_range.specs.Fold.{total, indicator};
ghost use Rattle.spec_word.specs.Word.{at};
ghost use Rattle.sizes.specs.Blocks.{stride};
ghost use Rattle.word_array.specs.Stored.{place, Sizes};
ghost use Rattle.matrix_terms.specs.Count.{raised, counted};
ghost use Rattle.matrix_terms.specs.Terms.{TermsOf, Filling};
ghost use Rattle.matrix_scatter.specs.Scatter.{Logged, RowStarts, Started, Offsets, Four, four_adds, Within, cell_adds};
ghost use Rattle.matrix_scatter.specs.Scatter.{Countable, terms_add, RowGathered, Gatherable, Gathered};
ghost use Rattle.matrix_scatter.specs.Fill.{Cleared, Scattering, Scattered};

use matrix_terms::{TERMS_AT, WEIGHT_AT};
use sizes::{BLOCK, EIGHT, SPAN, STRIDE, SYMBOLS, TABLE};

// The counters that a room has where they are few.
const FEW_COUNTERS: usize = 3072;
// And where they are many.
const COUNTERS: usize = 12288;

// Where the counters of each symbol's row start.
fn row_starts(p: u8, n: usize, terms: &[u16]) -> [u16; SYMBOLS]
    requires { Sizes p n × Logged p terms.now }
    ensures { RowStarts p n terms.now result }
{
    let q = usize::from(field::order(p));
    let width = (n + 1) as u16;
    let mut out = [0u16; SYMBOLS];
    out[0] = 2 * ((q - 1) as u16) * width;
    for c in 1..q {
        out[c] = terms[c] * width;
    }
    out
}

// The offsets of a word of n symbols, twice over.
fn offsets(n: usize, starts: [u16; SYMBOLS], w: &[u8], out: &mut [u16])
    requires { (n ≤ 255) × (n ≤ length w.now) × (n + n ≤ length out.old) × Started n starts w.now }
    ensures { Offsets n starts w.now out.old out.new }
{
    for j in 0..n {
        let to = starts[w[j] as usize] + (j as u16);
        out[j] = to;
        out[n + j] = to + (n as u16);
    }
}

// Raises the counter at x.
fn raise(x: usize, counts: &mut [u16])
    requires { (x < length counts.old) × (place counts.old x ≤ 65534) }
    ensures { counts.new ≡ raised counts.old (λ k. indicator (eqb x k)) }
{
    counts[x] += 1;
}

// Raises four counters.
fn raise_four(base: usize, a0: usize, a1: usize, a2: usize, a3: usize, counts: &mut [u16])
    requires { Four (base + a0) (base + a1) (base + a2) (base + a3) counts.old }
    ensures { counts.new ≡ raised counts.old (four_adds (base + a0) (base + a1) (base + a2) (base + a3)) }
{
    raise(base + a0, counts);
    raise(base + a1, counts);
    raise(base + a2, counts);
    raise(base + a3, counts);
}

// Counts eight offsets: all are read before the first counter is raised.
fn count_eight(cells: &[u16], h: usize, base: usize, counts: &mut [u16])
    requires { Within cells.now h base 8 counts.old 65500 }
    ensures { counts.new ≡ raised counts.old (λ k. total 8 (cell_adds cells.now h base k)) }
{
    let a0 = cells[h] as usize;
    let a1 = cells[h + 1] as usize;
    let a2 = cells[h + 2] as usize;
    let a3 = cells[h + 3] as usize;
    let a4 = cells[h + 4] as usize;
    let a5 = cells[h + 5] as usize;
    let a6 = cells[h + 6] as usize;
    let a7 = cells[h + 7] as usize;
    raise_four(base, a0, a1, a2, a3, counts);
    raise_four(base, a4, a5, a6, a7, counts);
}

// Counts the offsets of n + 1 places from h on, eight at a time: column n is never read.
fn count_cells(n: usize, cells: &[u16], h: usize, base: usize, counts: &mut [u16])
    requires { (n ≤ 255) × ((n + 1) % 8 ≡ 0) × Within cells.now h base (n + 1) counts.old 65200 }
    ensures { counts.new ≡ raised counts.old (λ k. total (n + 1) (cell_adds cells.now h base k)) }
{
    for i in 0..(n + 1) / EIGHT {
        count_eight(cells, h + EIGHT * i, base, counts);
    }
}

// Counts the terms of dual word l: `cells` has the offsets of its product with the received word.
fn count_dual(l: usize, p: u8, n: usize, cells: &[u16], terms: &[u16], counts: &mut [u16])
    requires { Countable (stride n) l p n cells.now terms.now counts.old }
    ensures { counts.new ≡ raised counts.old (terms_add (stride n) l p n cells.now terms.now) }
{
    let last = usize::from(field::order(p)) - 1;
    let weight = terms[WEIGHT_AT] as usize;
    let from = TERMS_AT + BLOCK * sizes::blocks(n) * l;
    let shift = sizes::shift(n);
    for i in 0..weight {
        let t = terms[from + i] as usize;
        let log = t >> shift;
        let h = t - (log << shift);
        let base = (last - log) * (n + 1) - h;
        count_cells(n, cells, h, base, counts);
    }
}

// A row of the matrix: each entry is the sum of two counters.
fn gather_row(n: usize, from: usize, low: usize, high: usize, counts: &[u16], m: &mut [u16])
    requires { (from + n ≤ length m.old) × (low + n ≤ length counts.now) × (high + n ≤ length counts.now) × ((k : ℕ) → place counts.now k ≤ 8160) }
    ensures { RowGathered n from low high counts.now m.old m.new }
{
    for j in 0..n {
        m[from + j] = counts[low + j] + counts[high + j];
    }
}

// Rows 1 to q - 1 of the matrix.
fn gather(p: u8, n: usize, terms: &[u16], counts: &[u16], m: &mut [u16])
    requires { Gatherable p n terms.now counts.now m.old }
    ensures { Gathered p n terms.now counts.now m.old m.new }
{
    let q = usize::from(field::order(p));
    for i in 1..q {
        let e = terms[i] as usize;
        gather_row(n, i * n, e * (n + 1), (e + (q - 1)) * (n + 1), counts, m);
    }
}

// Counts the terms of all dual words.
fn count_duals(p: u8, n: usize, duals: usize, terms: &[u16], r: &[u8], counts: &mut [u16])
    requires { Scattering (stride n) p n duals terms.now r.now counts.old }
    ensures { Scattered (stride n) p n duals terms.now r.now counts.new }
{
    let starts = row_starts(p, n, terms);
    let mut t = [0u8; TABLE];
    word_table::tabulate(p, n, r, 0, &mut t);
    let mut w = [0u8; SPAN];
    let mut cells = [0u16; STRIDE];
    for l in 0..duals {
        matrix_terms::product(l, p, n, duals, terms, &t, &mut w);
        offsets(n, starts, &w, &mut cells);
        count_dual(l, p, n, &cells, terms, counts);
    }
}

// Fills the matrix by counters that are all zero.
fn fill_by(
    p: u8,
    n: usize,
    duals: usize,
    terms: &[u16],
    r: &[u8],
    counts: &mut [u16],
    m: &mut [u16],
)
    requires { Filling (stride n) p n duals terms.now r.now m.old × ((n + 1) % 8 ≡ 0) × Cleared p n counts.old }
    ensures { (b : ℕ → ℕ → ℕ) → TermsOf (stride n) p n duals b terms.now → m.new ≡ counted p n b duals (at n r.now) }
{
    count_duals(p, n, duals, terms, r, counts);
    gather(p, n, terms, counts, m);
    matrix_terms::row_zero(p, n, (duals as u16) * terms[WEIGHT_AT], m);
}

// Fills the matrix with so many counters: to clear more costs time.
fn fill_with<const COUNTERS: usize>(
    p: u8,
    n: usize,
    duals: usize,
    terms: &[u16],
    r: &[u8],
    m: &mut [u16],
)
    requires { Filling (stride n) p n duals terms.now r.now m.old × ((n + 1) % 8 ≡ 0) × ((3 * (2 ^ p - 1) + 1) * (n + 1) ≤ COUNTERS)
        × (COUNTERS ≤ 12288) }
    ensures { (b : ℕ → ℕ → ℕ) → TermsOf (stride n) p n duals b terms.now → m.new ≡ counted p n b duals (at n r.now) }
{
    let mut counts = [0u16; COUNTERS];
    fill_by(p, n, duals, terms, r, &mut counts, m);
}

// Fills the matrix of the word r, where n + 1 is a multiple of 8.
pub fn fill(p: u8, n: usize, duals: usize, terms: &[u16], r: &[u8], m: &mut [u16])
    requires { Filling (stride n) p n duals terms.now r.now m.old × ((n + 1) % 8 ≡ 0) }
    ensures { (b : ℕ → ℕ → ℕ) → TermsOf (stride n) p n duals b terms.now → m.new ≡ counted p n b duals (at n r.now) }
{
    let rows = 3 * (usize::from(field::order(p)) - 1) + 1;
    if rows * (n + 1) <= FEW_COUNTERS {
        fill_with::<FEW_COUNTERS>(p, n, duals, terms, r, m);
    } else {
        fill_with::<COUNTERS>(p, n, duals, terms, r, m);
    }
}
