// The products with the generator one dual word after another, for every p.
ghost use Rattle.std.specs.Prelude.{◌≡◌};
ghost use Rattle.spec_range.specs.Fold.{all};
ghost use Rattle.sizes.specs.Blocks.{stride};
ghost use Rattle.book_duals.specs.Duals.{product_ok, Tested, Table};

use sizes::SPAN;

// Whether all products are zero: those of all dual words are joined, and looked at once.
pub fn products_vanish(p: u8, n: usize, book: &[u8], duals: usize, t: &[u8]) -> bool
    requires { Tested book.now p n duals × Table (stride n) book.now p n t.now }
    ensures { result ≡ all duals (product_ok p n book.now) }
{
    let blocks = sizes::blocks(n);
    let mut left = [0u8; SPAN];
    let mut product = [0u8; SPAN];
    for l in 0..duals {
        word_table::product(
            n,
            n,
            book,
            book_layout::dual_at(book, l) + 1,
            t,
            &mut product,
        );
        crate::join(blocks, &product, &mut left);
    }
    word_array::is_zero(n, &left)
}
