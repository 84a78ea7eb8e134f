// The symbols of GF(2^p), p from 1 to 6: sum, product and inverse. The contracts cite the definitions of specs/.
#![tactic(auto)]

ghost use Rattle.std.specs.Prelude.{◌≡◌, ◌*◌, ◌%◌, ◌^◌, ◌<◌, ◌≤◌};
ghost use Rattle.spec_field.specs.Symbols.{polynomial, times_x, product, inverse};
ghost use Rattle.refusal.specs.Number.{refusal_of};
ghost use Rattle.field.specs.Said.{said};
ghost use Rattle.spec_field.specs.Operations.{field_refusal, inverse_refusal, sum_answer, product_answer, inverse_answer};

use refusal::Refusal;

// The polynomials 1, 3, 7, 11, 19, 37 and 91 for p from 0 to 6, a byte each, lowest first. (An array would be laid out anew at each use.)
const POLYNOMIALS: u64 = 0x5b_25_13_0b_07_03_01;

// `a` where the lowest digit of `b` is 1, and 0 where it is 0, by a mask.
fn masked(b: u8, a: u8) -> u8
    ensures { result ≡ b % 2 * a }
{
    a & (255 * (b & 1))
}

// The polynomial of p, as a number: byte p of POLYNOMIALS.
fn polynomial(p: u8) -> u8
    requires { p ≤ 6 }
    ensures { result ≡ polynomial p }
{
    ((POLYNOMIALS >> (8 * p)) % 256) as u8
}

// `a` times x: one digit up, less the polynomial m where digit p is then set.
fn times_x(p: u8, m: u8, a: u8) -> u8
    requires { (p ≤ 6) × (m ≡ polynomial p) × (a < 2 ^ p) }
    ensures { result ≡ times_x p a }
{
    let up = a << 1;
    up ^ masked(up >> p, m)
}

// The number of symbols, q.
pub fn order(p: u8) -> u8
    requires { p ≤ 6 }
    ensures { result ≡ 2 ^ p }
{
    1u8 << p
}

// The product of two symbols. Six steps serve every p: digits of `b` from p up are 0, and add nothing.
pub fn mul(p: u8, a: u8, b: u8) -> u8
    requires { (1 ≤ p) × (p ≤ 6) × (a < 2 ^ p) × (b < 2 ^ p) }
    ensures { (result ≡ product p a b) × (result < 2 ^ p) }
{
    let m = polynomial(p);
    let mut total: u8 = 0;
    let mut shifted = a;
    let mut rest = b;
    for _ in 0u8..6 {
        total = total ^ masked(rest, shifted);
        shifted = times_x(p, m, shifted);
        rest = rest >> 1;
    }
    total
}

// A symbol times x.
pub fn double(p: u8, a: u8) -> u8
    requires { (1 ≤ p) × (p ≤ 6) × (a < 2 ^ p) }
    ensures { (result ≡ times_x p a) × (result < 2 ^ p) }
{
    times_x(p, polynomial(p), a)
}

// The inverse of a nonzero symbol: its power 2^p - 2, which is the product of its squares from the second power up.
pub fn inv(p: u8, a: u8) -> u8
    requires { (1 ≤ p) × (p ≤ 6) × (0 < a) × (a < 2 ^ p) }
    ensures { (result ≡ inverse p a) × (result < 2 ^ p) }
{
    let mut square = a;
    let mut total: u8 = 1;
    for _ in 1..p {
        square = mul(p, square, square);
        total = mul(p, total, square);
    }
    total
}

// The first refusal that applies to p, `a` and `b`.
#[tactic(auto, unfolding(spec_field::specs::Operations::field_refusal))]
fn refusal(p: u8, a: u8, b: u8) -> Result<(), Refusal>
    ensures { refusal_of result ≡ field_refusal p a b }
{
    if p == 0 {
        return Err(Refusal::Sizes);
    }
    if 6 < p {
        return Err(Refusal::Sizes);
    }
    let q = order(p);
    if q <= a {
        return Err(Refusal::InputSymbol);
    }
    if q <= b {
        return Err(Refusal::InputSymbol);
    }
    Ok(())
}

// The first refusal that applies to the inverse of `a`.
fn inverse_refusal(p: u8, a: u8) -> Result<(), Refusal>
    ensures { refusal_of result ≡ inverse_refusal p a }
{
    refusal(p, a, a)?;
    if a == 0 {
        Err(Refusal::ZeroInverse)
    } else {
        Ok(())
    }
}

// The three field operations, for all inputs.
pub fn sum(p: u8, a: u8, b: u8) -> Result<u8, Refusal>
    ensures { said result ≡ sum_answer p a b }
{
    refusal(p, a, b)?;
    Ok(a ^ b)
}

pub fn product(p: u8, a: u8, b: u8) -> Result<u8, Refusal>
    ensures { said result ≡ product_answer p a b }
{
    refusal(p, a, b)?;
    Ok(mul(p, a, b))
}

pub fn inverse(p: u8, a: u8) -> Result<u8, Refusal>
    ensures { said result ≡ inverse_answer p a }
{
    inverse_refusal(p, a)?;
    Ok(inv(p, a))
}
