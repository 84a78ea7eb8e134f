// Two words that are alike: the signature, a number that words which are alike share and few others do, and the comparison, which is exact.
// A signature goes by which symbols of a word are equal, which no factor changes, and is a sum over all places, which no turn changes.
#![tactic(auto)]

ghost use Rattle.std.specs.Prelude.{◌≡◌, ◌+◌, ◌*◌, ◌%◌, ◌≤◌, ◌<◌, length};
ghost use Rattle.std.specs.Int.Bits.{bit_and};
ghost use Rattle.spec_range.specs.Fold.{total};
ghost use Rattle.spec_range.specs.Table.{table, padded};
ghost use Rattle.spec_field.specs.Symbols.{gf};
ghost use Rattle.spec_word.specs.Alike.{alike};
ghost use Rattle.sizes.specs.Blocks.{stride};
ghost use Rattle.word_array.specs.Stored.{place};
ghost use Rattle.word_table.specs.Multiples.{word_of};
ghost use Rattle.word_alike.specs.Signature.{mark_of, mark_at, signature_of};
ghost use Rattle.word_alike.specs.Compared.{Pair, same_row, turn_ok};

use sizes::{BLOCK, SPAN, STRIDE};

// All digits set at the places below n, none at the others.
pub fn inside(n: usize) -> [u8; SPAN]
    requires { n ≤ 255 }
    ensures { result ≡ padded 256 n (λ _. 255) }
{
    let mut out = [0u8; SPAN];
    for j in 0..n {
        out[j] = 255;
    }
    out
}

// The signature of the word from `from` on, which stands there twice over: the sum of its blocks.
pub fn signature(n: usize, blocks: usize, rows: &[u8], from: usize, inside: &[u8]) -> u16
    requires { (n ≤ 64 * blocks) × (blocks ≤ 4) × (from + 128 * blocks ≤ length rows.now) × (inside.now ≡ padded 256 n (λ _. 255)) }
    ensures { result ≡ signature_of n (λ j. place rows.now (from + j)) }
{
    let mut sum: u16 = 0;
    for b in 0..blocks {
        let m = marks(n, rows, from + BLOCK * b, inside, BLOCK * b);
        sum = squares(&m, sum);
    }
    sum
}

// The marks of the block from `from` on, place `at` of its word; zero where `inside` is.
fn marks(n: usize, rows: &[u8], from: usize, inside: &[u8], at: usize) -> [u8; BLOCK]
    requires { (from + 128 ≤ length rows.now) × (at + 64 ≤ length inside.now) }
    ensures { result ≡ table 64 (λ j. bit_and (mark_at n (λ j. place rows.now (from + j)) j) (place inside.now (at + j))) }
{
    let a = 1 & n;
    let b = 3 & n;
    let c = 7 & n;
    let d = 12 & n;
    let e = 20 & n;
    let mut out = [0u8; BLOCK];
    for j in 0..BLOCK {
        let x = rows[from + j];
        let m = mark(
            x == rows[from + (j + a)],
            x == rows[from + (j + b)],
            x == rows[from + (j + c)],
            x == rows[from + (j + d)],
            x == rows[from + (j + e)],
        );
        out[j] = m & inside[at + j];
    }
    out
}

// The mark of a place, by which of some symbols after it are its own. Any other numbers, and other places after it, would do.
fn mark(a: bool, b: bool, c: bool, d: bool, e: bool) -> u8
    ensures { result ≡ mark_of a b c d e }
{
    (a as u8 * 29) ^ (b as u8 * 71) ^ (c as u8 * 167) ^ (d as u8 * 202) ^ (e as u8 * 86)
}

// Adds the squares of the marks of a block to a sum, in 16 digits, which make the widest vector steps.
fn squares(m: &[u8], before: u16) -> u16
    requires { length m.now ≡ 64 }
    ensures { result ≡ (before + total 64 (λ j. place m.now j * place m.now j)) % 65536 }
{
    let mut sum = before;
    for j in 0..BLOCK {
        let x = m[j] as u32;
        sum = ((sum as u32 + x * x) % 65536) as u16;
    }
    sum
}

// Whether the word of n symbols from `from` on in s is like the word of the table t, which has symbol 1 at place 0: so a turn has one factor that can serve.
pub fn alike(p: u8, n: usize, s: &[u8], from: usize, t: &[u8]) -> bool
    requires { Pair p n s.now from t.now }
    ensures { result ≡ alike (gf p) n (λ j. place s.now (from + j % n)) (word_of (stride n) n t.now) }
{
    let mut d = [0u8; STRIDE];
    word_table::lay(n, s, from, 0, &mut d);
    for k in 0..n {
        if turn_ok(n, &d, k, t) {
            return true;
        }
    }
    false
}

// Whether a word from place k on is the word of a table times the symbol there, which is not zero.
fn turn_ok(n: usize, d: &[u8], k: usize, t: &[u8]) -> bool
    requires { (n ≤ 255) × (k < n) × (length d.now ≡ 512) × (stride n * place d.now k + stride n ≤ length t.now) }
    ensures { result ≡ turn_ok (stride n) n d.now k t.now }
{
    let c = d[k];
    if c == 0 {
        return false;
    }
    same_row(n, d, k, t, 2 * BLOCK * sizes::blocks(n) * usize::from(c))
}

// Whether the n places from k on and those from `from` on are equal: those that are not are counted, with no branch.
fn same_row(n: usize, d: &[u8], k: usize, t: &[u8], from: usize) -> bool
    requires { (n ≤ 255) × (k + n ≤ length d.now) × (from + n ≤ length t.now) }
    ensures { result ≡ same_row n d.now k t.now from }
{
    let mut found: u8 = 0;
    for j in 0..n {
        found += (d[k + j] != t[from + j]) as u8;
    }
    found == 0
}
