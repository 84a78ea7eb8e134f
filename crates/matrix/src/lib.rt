// The frequency matrix of a word, counted into a lent buffer of q * n numbers: entry (i, j) at i * n + j.
#![tactic(auto)]

ghost use Rattle.std.specs.Prelude.{◌≡◌, List, ℕ, ◌+◌, ◌%◌, ◌≤◌, length};
ghost use Rattle.spec_range.specs.Table.{table};
ghost use Rattle.spec_word.specs.Word.{at};
ghost use Rattle.sizes.specs.Blocks.{stride};
ghost use Rattle.matrix_terms.specs.Terms.{dual_of, TermsOf, Filling};
ghost use Rattle.spec_book.specs.Layout.{field_of, book_of};
ghost use Rattle.spec_decoding.specs.Matrix.{matrix};
ghost use Rattle.matrix.specs.Fill.{Fillable};

// Sets every entry to 0.
pub fn clear(m: &mut [u16])
    ensures { m.new ≡ table (length m.old) (λ k. 0) }
{
    let size = m.len();
    for k in 0..size {
        m[k] = 0;
    }
}

// Fills the matrix of the word r over the dual words whose terms are listed: by marks where symbols are few, and else by scattering.
pub fn fill(p: u8, n: usize, duals: usize, terms: &[u16], r: &[u8], m: &mut [u16])
    requires { Filling (stride n) p n duals terms.now r.now m.old × (4 ≤ p → (n + 1) % 8 ≡ 0) × (p ≤ 3 → 64 ≤ n → p ≤ 2) }
    ensures { (bytes : List ℕ) → Fillable bytes p n duals → TermsOf (stride n) p n duals (dual_of bytes) terms.now
        → m.new ≡ matrix (field_of bytes) (book_of bytes) (at n r.now) }
{
    if sizes::few(p) {
        matrix_marks::fill(p, n, duals, terms, r, m);
    } else {
        matrix_scatter::fill(p, n, duals, terms, r, m);
    }
}
