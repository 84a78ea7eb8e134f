// The signatures of all dual words, and numbers of which some may be equal.
ghost use Rattle.std.specs.Prelude.{◌≡◌, not, ◌+◌, ◌*◌, ◌≤◌, ◌<◌, eqb, length};
ghost use Rattle.spec_range.specs.Fold.{total};
ghost use Rattle.spec_range.specs.Table.{padded};
ghost use Rattle.sizes.specs.Blocks.{stride};
ghost use Rattle.word_array.specs.Stored.{place};
ghost use Rattle.word_table.specs.Window.{Window};
ghost use Rattle.word_alike.specs.Signature.{signature_of};
ghost use Rattle.book_alike.specs.Signed.{times_of, Bodies, Rows, Signed};

use sizes::{BLOCK, DUALS};

// The places of the rows in which words are laid out before the first of them is read: to read what was just written, at another place, takes long.
const ROWS: usize = 1024;

// The signatures of the dual words.
pub fn signatures(n: usize, book: &[u8], duals: usize) -> [u16; DUALS]
    requires { Bodies book.now n duals }
    ensures { Signed book.now n duals result }
{
    let inside = word_alike::inside(n);
    let most = ROWS >> sizes::shift(n);
    let mut rows = [0u8; ROWS];
    let mut out = [0u16; DUALS];
    for l in (0..duals).step_by(most) {
        let k = most.min(duals - l);
        lay(n, book, l, k, &mut rows);
        sign(n, &rows, k, &inside, l, &mut out);
    }
    out
}

// Lays k dual words out, from dual word l on, each twice over in a row of its own.
fn lay(n: usize, book: &[u8], l: usize, k: usize, rows: &mut [u8])
    requires { Bodies book.now n (l + k) × (stride n * k ≤ length rows.old) }
    ensures { Rows (stride n) book.now n l k rows.old rows.new }
{
    let stride = 2 * BLOCK * sizes::blocks(n);
    for i in 0..k {
        let from = book_layout::dual_at(book, l + i) + 1;
        word_table::lay(n, book, from, stride * i, rows);
    }
}

// Stores the signatures of the words of k rows, from place l on.
fn sign(n: usize, rows: &[u8], k: usize, inside: &[u8], l: usize, out: &mut [u16])
    requires { (n ≤ 255) × (stride n * k ≤ length rows.now) × (inside.now ≡ padded 256 n (λ _. 255)) × (l + k ≤ length out.old) }
    ensures { Window l k (λ i. signature_of n (λ j. place rows.now (stride n * i + j))) out.old out.new }
{
    let blocks = sizes::blocks(n);
    for i in 0..k {
        out[l + i] = word_alike::signature(n, blocks, rows, 2 * BLOCK * blocks * i, inside);
    }
}

// Whether no two of the first `count` numbers are equal: each is found once.
pub fn all_differ(count: usize, s: &[u16]) -> bool
    requires { (count ≤ 32) × (length s.now ≡ 32) }
    ensures { result ≡ eqb (total count (λ l. times_of s.now (place s.now l))) count }
{
    let mut found: u16 = 0;
    for l in 0..count {
        found += times(s, s[l]);
    }
    found as usize == count
}

// How many of the numbers are x, with no branch.
fn times(s: &[u16], x: u16) -> u16
    requires { length s.now ≡ 32 }
    ensures { (result ≡ times_of s.now x) × (result ≤ 32) }
{
    let mut found: u16 = 0;
    for m in 0..DUALS {
        found += (s[m] == x) as u16;
    }
    found
}

// Whether the number at place l is found again.
pub fn repeated(s: &[u16], l: usize) -> bool
    requires { (l < 32) × (length s.now ≡ 32) }
    ensures { result ≡ not (eqb (times_of s.now (place s.now l)) 1) }
{
    times(s, s[l]) != 1
}
