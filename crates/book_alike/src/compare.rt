// Dual words compared, each with those before it that have its signature.
ghost use Rattle.std.specs.Prelude.{◌≡◌, not, ◌+◌, ◌*◌, ◌^◌, ◌≤◌, ◌<◌, length};
ghost use Rattle.spec_field.specs.Symbols.{gf};
ghost use Rattle.spec_word.specs.Alike.{alike};
ghost use Rattle.sizes.specs.Blocks.{stride};
ghost use Rattle.book_duals.specs.Duals.{dual_word};
ghost use Rattle.book_alike.specs.Signed.{Signed};
ghost use Rattle.book_alike.specs.Compared.{differ, Comparable, TableOf};

// Whether dual word l is like one before it. t is room for the table of its multiples.
pub fn seen_before(p: u8, n: usize, book: &[u8], s: &[u16], l: usize, t: &mut [u8]) -> bool
    requires { Comparable book.now p n (l + 1) × Signed book.now n (l + 1) s.now × (stride n * 2 ^ p ≤ length t.old) }
    ensures { (not result ≡ differ p n book.now l) × (length t.new ≡ length t.old) }
{
    if !crate::signature::repeated(s, l) {
        return false;
    }
    word_table::tabulate(p, n, book, book_layout::dual_at(book, l) + 1, t);
    like_earlier(p, n, book, s, l, t)
}

// The same, by the table of its multiples.
fn like_earlier(p: u8, n: usize, book: &[u8], s: &[u16], l: usize, t: &[u8]) -> bool
    requires { Comparable book.now p n (l + 1) × Signed book.now n (l + 1) s.now × TableOf book.now p n l t.now }
    ensures { not result ≡ differ p n book.now l }
{
    for m in 0..l {
        if pair_alike(p, n, book, s, l, m, t) {
            return true;
        }
    }
    false
}

// Whether dual word m is like dual word l, the table of whose multiples is t. Only where their signatures are equal are they compared.
fn pair_alike(p: u8, n: usize, book: &[u8], s: &[u16], l: usize, m: usize, t: &[u8]) -> bool
    requires { Comparable book.now p n (l + 1) × Signed book.now n (l + 1) s.now × TableOf book.now p n l t.now × (m < l) }
    ensures { result ≡ alike (gf p) n (dual_word n book.now m) (dual_word n book.now l) }
{
    if s[m] != s[l] {
        return false;
    }
    word_alike::alike(p, n, book, book_layout::dual_at(book, m) + 1, t)
}
