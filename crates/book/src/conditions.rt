// The conditions 5 to 8, which ask for products of whole words.
ghost use Rattle.std.specs.Prelude.{◌≡◌, length};
ghost use Rattle.spec_book.specs.Layout.{duals_in, field_of, book_of};
ghost use Rattle.spec_book.specs.Conditions.{duals_ok, book_refusal};
ghost use Rattle.refusal.specs.Number.{refusal_of};
ghost use Rattle.book.specs.Params.{Read, Tabulated};
ghost use Rattle.book.specs.Opened.{Gathered};

use crate::Params;
use refusal::Refusal;

// The first refusal from 5 to 8 that applies, of a book off which c was read and whose table is t.
pub fn refusal(book: &[u8], c: Params, t: &[u8]) -> Result<(), Refusal>
    requires { Gathered book.now c t.now }
    ensures { refusal_of result ≡ book_refusal (field_of book.now) (book_of book.now) }
{
    if !crate::generator::generator_ok(book, c, t) {
        return Err(Refusal::Generator);
    }
    if !crate::generator::limits_ok(c.n, c.rounds, c.places) {
        return Err(Refusal::Limits);
    }
    if !duals_ok(c.p, c.n, c.duals, book, t) {
        return Err(Refusal::DualWords);
    }
    if !book_alike::distinct_ok(c.p, c.n, book, c.duals) {
        return Err(Refusal::Alike);
    }
    Ok(())
}

// 7: every dual word has symbol 1 at place 0, the weight of the first, and a product with g that is zero.
fn duals_ok(p: u8, n: usize, count: usize, book: &[u8], t: &[u8]) -> bool
    requires { Read book.now p n × (count ≡ duals_in book.now) × Tabulated book.now p n t.now }
    ensures { result ≡ duals_ok (field_of book.now) (book_of book.now) }
{
    if !book_duals::weights_ok(book, n, count) {
        return false;
    }
    book_duals::products_vanish(p, n, book, count, t)
}
