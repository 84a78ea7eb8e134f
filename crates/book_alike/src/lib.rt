// Condition 8: no two dual words of a book are alike. Words that are alike have one signature, and few others do: only words with one signature
// are compared.
#![tactic(auto)]

ghost use Rattle.std.specs.Prelude.{◌≡◌, ◌*◌, ◌^◌, ◌≤◌, length};
ghost use Rattle.spec_range.specs.Fold.{all};
ghost use Rattle.sizes.specs.Blocks.{stride};
ghost use Rattle.book_alike.specs.Signed.{Signed};
ghost use Rattle.book_alike.specs.Compared.{differ, Comparable};

use sizes::TABLE;

mod compare;
mod signature;

// Whether no two of the dual words are alike.
pub fn distinct_ok(p: u8, n: usize, book: &[u8], duals: usize) -> bool
    requires { Comparable book.now p n duals }
    ensures { result ≡ all duals (differ p n book.now) }
{
    if duals < 2 {
        return true;
    }
    let s = signature::signatures(n, book, duals);
    if signature::all_differ(duals, &s) {
        return true;
    }
    let mut t = [0u8; TABLE];
    pairs_ok(p, n, book, duals, &s, &mut t)
}

// The same by comparing: no dual word is like one before it.
fn pairs_ok(p: u8, n: usize, book: &[u8], duals: usize, s: &[u16], t: &mut [u8]) -> bool
    requires { Comparable book.now p n duals × Signed book.now n duals s.now × (stride n * 2 ^ p ≤ length t.old) }
    ensures { result ≡ all duals (differ p n book.now) }
{
    for l in 0..duals {
        if compare::seen_before(p, n, book, s, l, t) {
            return false;
        }
    }
    true
}
