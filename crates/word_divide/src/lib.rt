// Division by a generator whose multiples stand in a table. The remainder so far is a window of d places in the word itself, which moves down by one
// place a step; what is above the window is not read again.
#![tactic(auto)]

ghost use Rattle.std.specs.Prelude.{◌≡◌, ◌+◌, ◌*◌, ◌≤◌, ◌<◌, length};
ghost use Rattle.spec_word.specs.CyclicCode.{unity};
ghost use Rattle.sizes.specs.Blocks.{span, stride};
ghost use Rattle.word_array.specs.Stored.{place, Sizes, Stored};
ghost use Rattle.word_table.specs.Multiples.{word_of, Multiples};
ghost use Rattle.word_table.specs.Window.{Window};
ghost use Rattle.word_divide.specs.Window.{Dividend, AddedAt, Remains, DividedBy};

use sizes::{BLOCK, SPAN};

// Adds the block of a table from `from` on to the places from i on. The sum is made in a block of its own: written straight into v, it is compiled with a
// test whether t and v overlap.
fn add_block_at(t: &[u8], from: usize, i: usize, v: &mut [u8])
    requires { (from + 64 ≤ length t.now) × (i + 64 ≤ length v.old) }
    ensures { AddedAt t.now from i 64 v.old v.new }
{
    let mut sum = word_table::block(v, i);
    word_table::add_block(t, from, &mut sum);
    word_table::put_block(sum, i, v);
}

// Adds as many blocks.
fn add_row_at(blocks: usize, t: &[u8], from: usize, i: usize, v: &mut [u8])
    requires { (from + 64 * blocks ≤ length t.now) × (i + 64 * blocks ≤ length v.old) }
    ensures { AddedAt t.now from i (64 * blocks) v.old v.new }
{
    for b in 0..blocks {
        add_block_at(t, from + BLOCK * b, i + BLOCK * b, v);
    }
}

// Divides the k lowest coefficients of v by the table's word g, of degree d: leaves the remainder in the first d places of v and writes the quotient.
// The d highest coefficients are their own remainder, and each top of the window is a coefficient of the quotient.
fn divide_in(p: u8, n: usize, d: usize, k: usize, t: &[u8], v: &mut [u8], quotient: &mut [u8])
    requires { Dividend (stride n) (span n) p n d k t.now v.old × (n ≤ length quotient.old) }
    ensures { DividedBy p k d (word_of (stride n) n t.now) (place v.old) quotient.new v.new }
{
    let blocks = sizes::blocks(n);
    for i in (0..k - d).rev() {
        let top = v[i + d];
        quotient[i] = top;
        add_row_at(blocks, t, 2 * BLOCK * blocks * usize::from(top), i, v);
    }
}

// Copies the first n places of a word.
fn copy(n: usize, w: &[u8], v: &mut [u8])
    requires { (n ≤ length w.now) × (n ≤ length v.old) }
    ensures { Window 0 n (place w.now) v.old v.new }
{
    for j in 0..n {
        v[j] = w[j];
    }
}

// The division of the n coefficients of w by the table's word g, of degree d: the remainder in the first d places of v, and the quotient, which is the message
// of a code word.
pub fn divide(p: u8, n: usize, d: usize, t: &[u8], w: &[u8], v: &mut [u8], quotient: &mut [u8])
    requires { Sizes p n × (1 ≤ d) × (d < n) × (n ≤ length w.now) × Stored p n w.now × Multiples (stride n) p n t.now
        × (n + span n ≤ length v.old) × (n ≤ length quotient.old) }
    ensures { DividedBy p n d (word_of (stride n) n t.now) (place w.now) quotient.new v.new }
{
    copy(n, w, v);
    divide_in(p, n, d, n, t, v, quotient);
}

// The remainder of the n coefficients of w by the table's word g, of degree d: the first d places of v. The quotient is left in a buffer of its own.
pub fn remainder(p: u8, n: usize, d: usize, t: &[u8], w: &[u8], v: &mut [u8])
    requires { Sizes p n × (1 ≤ d) × (d < n) × (n ≤ length w.now) × Stored p n w.now × Multiples (stride n) p n t.now
        × (n + span n ≤ length v.old) }
    ensures { Remains p n d (word_of (stride n) n t.now) (place w.now) v.new }
{
    let mut quotient = [0u8; SPAN];
    divide(p, n, d, t, w, v, &mut quotient);
}

// Writes x^n - 1.
fn put_unity(n: usize, v: &mut [u8])
    requires { (1 ≤ n) × (n < length v.old) }
    ensures { Window 0 (n + 1) (unity n) v.old v.new }
{
    for j in 0..n {
        v[j] = 0;
    }
    v[0] = 1;
    v[n] = 1;
}

// The division of x^n - 1 by the table's word g, of degree d.
pub fn divide_unity(p: u8, n: usize, d: usize, t: &[u8], v: &mut [u8], quotient: &mut [u8])
    requires { Sizes p n × (1 ≤ d) × (d < n) × Multiples (stride n) p n t.now × (n + span n ≤ length v.old) × (n ≤ length quotient.old) }
    ensures { DividedBy p (n + 1) d (word_of (stride n) n t.now) (unity n) quotient.new v.new }
{
    put_unity(n, v);
    divide_in(p, n, d, n + 1, t, v, quotient);
}
