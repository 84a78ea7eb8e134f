// The program's lines as text in a lent buffer: each function writes from index `at` on and returns the index past what it wrote.
#![tactic(auto)]

ghost use Rattle.std.specs.Prelude.{◌≡◌, ◌∷◌, [], ◌+◌, ◌*◌, ◌≤◌, ◌<◌, length};
ghost use Rattle.spec_program.specs.Line.{glyph, decimal_of, hex_of, answer_line, refusal_line};
ghost use Rattle.refusal.specs.Number.{number_of};
ghost use Rattle.stream_text.specs.Printed.{Printed};

use refusal::Refusal;

// One byte.
fn put(out: &mut [u8], at: usize, b: u8) -> usize
    requires { at < length out.old }
    ensures { Printed out.old at (b ∷ []) out.new result }
{
    out[at] = b;
    at + 1
}

// The ASCII code of a digit below 16.
fn digit(d: u8) -> u8
    requires { d < 16 }
    ensures { result ≡ glyph d }
{
    if d < 10 { 48 + d } else { 87 + d }
}

// A number below 100 in decimal.
fn put_small(out: &mut [u8], at: usize, x: u8) -> usize
    requires { (x < 100) × (at + 2 ≤ length out.old) }
    ensures printed { Printed out.old at (decimal_of x) out.new result }
    ensures upper_bound { result ≤ at + 2 }
{
    if x < 10 {
        return put(out, at, 48 + x);
    }
    let next = put(out, at, 48 + x / 10);
    put(out, next, 48 + x % 10)
}

// A number in decimal.
fn put_decimal(out: &mut [u8], at: usize, x: u8) -> usize
    requires { at + 3 ≤ length out.old }
    ensures printed { Printed out.old at (decimal_of x) out.new result }
    ensures upper_bound { result ≤ at + 3 }
{
    if x < 100 {
        return put_small(out, at, x);
    }
    let first = put(out, at, 48 + x / 100);
    let second = put(out, first, 48 + x / 10 % 10);
    put(out, second, 48 + x % 10)
}

// Two hexadecimal digits for each byte of `bytes`.
fn put_hex(out: &mut [u8], at: usize, bytes: &[u8]) -> usize
    requires { at + 2 * length bytes.now ≤ length out.old }
    ensures printed { Printed out.old at (hex_of bytes.now) out.new result }
    ensures value { result ≡ at + 2 * length bytes.now }
{
    let mut next = at;
    for i in 0..bytes.len() {
        let b = bytes[i];
        let high = put(out, next, digit(b / 16));
        next = put(out, high, digit(b % 16));
    }
    next
}

// The line of an answer: at most 10 bytes and two for each symbol.
pub fn put_answer(
    out: &mut [u8],
    at: usize,
    letter: u8,
    rounds: u8,
    changed: u8,
    answer: &[u8],
) -> usize
    requires { (rounds < 100) × (at + (10 + 2 * length answer.now) ≤ length out.old) }
    ensures printed { Printed out.old at (answer_line letter rounds changed answer.now) out.new result }
    ensures upper_bound { result ≤ at + (10 + 2 * length answer.now) }
{
    let a = put(out, at, letter);
    let b = put(out, a, b' ');
    let c = put_small(out, b, rounds);
    let d = put(out, c, b' ');
    let e = put_decimal(out, d, changed);
    let f = put(out, e, b' ');
    let g = put_hex(out, f, answer);
    put(out, g, b'\n')
}

// The line of a refusal: at most 5 bytes.
pub fn put_refusal(out: &mut [u8], at: usize, why: Refusal) -> usize
    requires { at + 5 ≤ length out.old }
    ensures printed { Printed out.old at (refusal_line (number_of why)) out.new result }
    ensures upper_bound { result ≤ at + 5 }
{
    let a = put(out, at, b'R');
    let b = put(out, a, b' ');
    let c = put_small(out, b, u8::from(why));
    put(out, c, b'\n')
}
