// The conditions 5 and 6: the generator, and the limits of decoding.
ghost use Rattle.std.specs.Prelude.{◌≡◌, suc, ◌+◌, ◌<◌, ◌≤◌, length};
ghost use Rattle.spec_book.specs.Layout.{width, degree_of, field_of, book_of};
ghost use Rattle.spec_book.specs.Conditions.{generator_ok};
ghost use Rattle.spec_field.specs.Symbols.{gf};
ghost use Rattle.spec_word.specs.CyclicCode.{unity};
ghost use Rattle.spec_word.specs.Division.{divides};
ghost use Rattle.sizes.specs.Blocks.{span, stride};
ghost use Rattle.word_array.specs.Stored.{Sizes};
ghost use Rattle.word_table.specs.Multiples.{word_of, Multiples};
ghost use Rattle.book.specs.Params.{limits_test};
ghost use Rattle.book.specs.Opened.{Gathered};

use crate::Params;
use book_duals::GENERATOR;
use sizes::{BLOCK, SPAN, STRIDE};

// The places of a row of a table where words take a single block.
const SHORT: usize = 2 * BLOCK;
// The most rounds that a book may ask for.
pub const ROUNDS: u8 = 63;

// The highest place below n at which the generator's symbol is not zero.
pub fn degree(book: &[u8], n: usize) -> usize
    requires { (1 ≤ n) × (n ≤ width book.now) × (4 + n ≤ length book.now) }
    ensures { (result ≡ degree_of n (book_of book.now).generator) × (result < n) }
{
    let mut d: usize = 0;
    for i in 0..n {
        if book[GENERATOR + i] != 0 {
            d = i;
        }
    }
    d
}

// 5: the generator has degree 1 or more and leading coefficient 1, and the remainder of x^n - 1 is zero. t is the table of its multiples. The rooms go by the
// length of words: to clear larger ones costs time.
pub fn generator_ok(book: &[u8], c: Params, t: &[u8]) -> bool
    requires { Gathered book.now c t.now }
    ensures { result ≡ generator_ok (field_of book.now) (book_of book.now) }
{
    let d = c.degree;
    if d < 1 {
        return false;
    }
    let leading = book[GENERATOR + d];
    if leading != 1 {
        return false;
    }
    if c.n < BLOCK {
        divides_unity::<SHORT, BLOCK>(c, t)
    } else {
        divides_unity::<STRIDE, SPAN>(c, t)
    }
}

// Whether the remainder of x^n - 1 is zero, with rooms of so many places for the division and its quotient.
fn divides_unity<const ROOM: usize, const QUOTIENT: usize>(c: Params, t: &[u8]) -> bool
    requires { Sizes c.p c.n × (1 ≤ c.degree) × (c.degree < c.n) × Multiples (stride c.n) c.p c.n t.now × (c.n + span c.n ≤ ROOM) × (ROOM ≤ 512) × (c.n ≤ QUOTIENT) × (QUOTIENT ≤ 256) }
    ensures { result ≡ divides (gf c.p) c.degree (word_of (stride c.n) c.n t.now) (suc c.n) (unity c.n) }
{
    let mut rest = [0u8; ROOM];
    let mut quotient = [0u8; QUOTIENT];
    word_divide::divide_unity(c.p, c.n, c.degree, t, &mut rest, &mut quotient);
    word_array::is_zero(c.degree, &rest)
}

// 6: the most rounds from 1 to 63, the most places from 1 to n.
pub fn limits_ok(n: usize, rounds: u8, places: usize) -> bool
    ensures { result ≡ limits_test n rounds places }
{
    if rounds < 1 {
        return false;
    }
    if ROUNDS < rounds {
        return false;
    }
    if places < 1 {
        return false;
    }
    places <= n
}
