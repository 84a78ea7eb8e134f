// Eight symbols in one number, so that one step works on all of them. The contracts cite the definitions of specs/.
#![tactic(auto)]

ghost use Rattle.std.specs.Prelude.{◌≡◌, length, get_or};
ghost use Rattle.spec_range.specs.Table.{table};
ghost use Rattle.spec_word.specs.Lanes.{lane, packed, Narrow};

use sizes::EIGHT;

// The number that holds eight symbols. That each is a byte, which a list of numbers does not show, is told on.
pub fn pack(e: &[u8]) -> u64
    requires { length e.now ≡ 8 }
    ensures { (result ≡ packed 8 8 (λ k. get_or e.now k 0)) × Narrow 8 8 (λ k. get_or e.now k 0) }
{
    let mut x: u64 = 0;
    for k in 0..EIGHT {
        x = x | (u64::from(e[k]) << sizes::digits_below(k));
    }
    x
}

// Writes the eight symbols that a number holds.
pub fn unpack(x: u64, e: &mut [u8])
    requires { length e.old ≡ 8 }
    ensures { e.new ≡ table 8 (λ k. lane 8 k x) }
{
    for k in 0..EIGHT {
        e[k] = ((x >> sizes::digits_below(k)) & 255) as u8;
    }
}
