// The conditions 1 to 4, which ask for bytes one by one.
#![tactic(auto)]

ghost use Rattle.std.specs.Prelude.{◌≡◌, cond, ◌+◌, ◌-◌, ◌^◌, ◌≤◌, T, eqb, length};
ghost use Rattle.spec_range.specs.Fold.{all};
ghost use Rattle.spec_range.specs.Table.{table};
ghost use Rattle.spec_book.specs.Layout.{width, dual_at, duals_in, byte, Whole};
ghost use Rattle.spec_book.specs.Conditions.{length_fits, length_ok, kinds_ok, sizes_ok, body_ok, symbols_ok};
ghost use Rattle.refusal.specs.Number.{refusal_of};
ghost use Rattle.book_records.specs.Records.{records_refusal, bound, Bounds, below, Body};

use refusal::Refusal;
use sizes::{BLOCK, DUALS, GENERATOR_AT, SPAN};

// The first refusal from 1 to 4 that applies to a book.
pub fn refusal(book: &[u8]) -> Result<(), Refusal>
    ensures { refusal_of result ≡ records_refusal book.now }
{
    if !length_ok(book) {
        return Err(Refusal::BookLength);
    }
    if !kinds_ok(book) {
        return Err(Refusal::Kinds);
    }
    if !sizes_ok(book) {
        return Err(Refusal::Sizes);
    }
    if !symbols_ok(book) {
        return Err(Refusal::Bodies);
    }
    Ok(())
}

// 1: the length is one of the form that the generator's kind chooses; of either form where it chooses none.
#[tactic(auto, unfolding(spec_book::specs::Conditions::length_ok))]
fn length_ok(book: &[u8]) -> bool
    ensures { result ≡ length_ok book.now }
{
    let len = book.len();
    if len <= GENERATOR_AT {
        return false;
    }
    if book_layout::is_long(book) {
        return fits(true, len);
    }
    if fits(false, len) {
        return true;
    }
    if book[GENERATOR_AT] == 2 {
        return false;
    }
    fits(true, len)
}

// Whether a length is that of 1 to 32 dual words and what stands before them.
fn fits(long: bool, len: usize) -> bool
    ensures { result ≡ length_fits (cond long 255 63) len }
{
    let record = book_layout::record_of(long);
    let head = record + 6;
    if len < head {
        return false;
    }
    let count = book_layout::records_in(long, len - head);
    if count < 1 {
        return false;
    }
    if DUALS < count {
        return false;
    }
    len == head + record * count
}

// The count of dual words, L.
pub fn dual_count(book: &[u8]) -> usize
    requires { Whole book.now }
    ensures { (result ≡ duals_in book.now) × (result ≤ 32) }
{
    let head = book_layout::record(book) + 6;
    book_layout::records_in(book_layout::is_long(book), book.len() - head)
}

// `a` in the long form, `b` in the short one.
fn by_form(long: bool, a: u8, b: u8) -> u8
    ensures { result ≡ cond long a b }
{
    if long { a } else { b }
}

// 2: the kind bytes. The length is one of the book's own form once the generator's kind is known.
fn kinds_ok(book: &[u8]) -> bool
    requires { T (length_ok book.now) }
    ensures { result ≡ kinds_ok book.now }
{
    let long = book_layout::is_long(book);
    let generator = by_form(long, 5, 2);
    let dual = by_form(long, 6, 4);
    let record = book_layout::record(book);
    if book[0] != 1 {
        return false;
    }
    if book[GENERATOR_AT] != generator {
        return false;
    }
    if book[GENERATOR_AT + record] != 3 {
        return false;
    }
    dual_kinds_ok(dual, book)
}

// The kind bytes of the dual words.
fn dual_kinds_ok(kind: u8, book: &[u8]) -> bool
    requires { Whole book.now }
    ensures { result ≡ all (duals_in book.now) (λ l. eqb (byte book.now (dual_at (width book.now) l)) kind) }
{
    let count = dual_count(book);
    for l in 0..count {
        if book[book_layout::dual_at(book, l)] != kind {
            return false;
        }
    }
    true
}

// 3: s from 2 to 6, and 7 or 8 in the long form; p from 1 to 6 divides s.
fn sizes_ok(book: &[u8]) -> bool
    requires { Whole book.now }
    ensures { result ≡ sizes_ok book.now }
{
    let s = book[1];
    let p = book[2];
    let long = book_layout::is_long(book);
    let low = by_form(long, 7, 2);
    let high = by_form(long, 8, 6);
    if s < low {
        return false;
    }
    if high < s {
        return false;
    }
    if p < 1 {
        return false;
    }
    if 6 < p {
        return false;
    }
    s % p == 0
}

// n of s.
pub fn word_length(s: u8) -> usize
    requires { s ≤ 8 }
    ensures { (result ≡ 2 ^ s - 1) × (result ≤ 255) }
{
    (1usize << s) - 1
}

// 4: every body has symbols below q, and zeros from place n on.
fn symbols_ok(book: &[u8]) -> bool
    requires { Whole book.now × T (kinds_ok book.now) × T (sizes_ok book.now) }
    ensures { result ≡ symbols_ok book.now }
{
    let q = field::order(book[2]);
    let n = word_length(book[1]);
    let bounds = bounds(q, n);
    let blocks = book_layout::record(book) / BLOCK;
    if !body_ok(blocks, &bounds, book, GENERATOR_AT) {
        return false;
    }
    dual_bodies_ok(blocks, &bounds, book)
}

// The bound of each place of a record, which whole blocks are tested by: none that matters for its kind byte, q at the places of a word, and 1 from
// there on, so that only 0 is below it.
fn bounds(q: u8, n: usize) -> [u8; SPAN]
    requires { n ≤ 255 }
    ensures { result ≡ table 256 (bound q n) }
{
    let mut out = [1u8; SPAN];
    out[0] = 255;
    for j in 1..n + 1 {
        out[j] = q;
    }
    out
}

// The bodies of the dual words.
fn dual_bodies_ok(blocks: usize, bounds: &[u8; SPAN], book: &[u8]) -> bool
    requires { Whole book.now × T (kinds_ok book.now) × Bounds book.now blocks bounds.now }
    ensures { result ≡ all (duals_in book.now) (λ l. body_ok book.now (dual_at (width book.now) l)) }
{
    let count = dual_count(book);
    for l in 0..count {
        if !body_ok(blocks, bounds, book, book_layout::dual_at(book, l)) {
            return false;
        }
    }
    true
}

// The body of the record at `start`, block by block.
fn body_ok(blocks: usize, bounds: &[u8; SPAN], book: &[u8], start: usize) -> bool
    requires { Body book.now start × Bounds book.now blocks bounds.now }
    ensures { result ≡ body_ok book.now start }
{
    let mut ok = true;
    for b in 0..blocks {
        let good = block_ok(bounds, book, start, BLOCK * b);
        ok &= good;
    }
    ok
}

// A block of it, from place `at` of the record on: the bytes that are not below their bound are counted, with no branch.
fn block_ok(bounds: &[u8; SPAN], book: &[u8], start: usize, at: usize) -> bool
    requires { (at + 64 ≤ 256) × (start + (at + 64) ≤ length book.now) }
    ensures { result ≡ all 64 (λ j. below bounds.now book.now start (at + j)) }
{
    let mut bad: u8 = 0;
    for j in 0..BLOCK {
        bad += (bounds[at + j] <= book[start + (at + j)]) as u8;
    }
    bad == 0
}
