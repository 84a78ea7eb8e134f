// The rounds of the decoder. A word is held by value; the matrix is a lent buffer. Nothing is read of the book once its terms are listed.
#![tactic(auto)]

ghost use Rattle.std.specs.Prelude.{◌≡◌, false, List, ℕ};
ghost use Rattle.spec_book.specs.Layout.{field_of, book_of};
ghost use Rattle.spec_decoding.specs.Matrix.{matrix};
ghost use Rattle.spec_decoding.specs.Decode.{decode};
ghost use Rattle.spec_word.specs.Word.{at};
ghost use Rattle.sizes.specs.Blocks.{stride};
ghost use Rattle.book.specs.Params.{Describes};
ghost use Rattle.book.specs.Opened.{OpenBook};
ghost use Rattle.matrix_terms.specs.Terms.{dual_of, TermsOf};
ghost use Rattle.decode_rounds.specs.Kind.{Letters};
ghost use Rattle.decode_rounds.specs.Rounds.{step_of, listed, all_rounds, Prepared, TermsRoom, Countable, Begun, Ready, Received, Stepped, Ended};

use book::Params;
use sizes::{STRIDE, Word};

// The kind of answer.
#[derive(Clone, Copy, Debug, PartialEq, Eq)]
pub enum Kind {
    Clean,
    Mended,
    Stalled,
    Spent,
}

// Its letter, as the program prints it.
impl From<Kind> for u8 {
    ghost from_gives = { Letters };

    fn from(kind: Kind) -> u8 {
        match kind {
            Kind::Clean => b'C',
            Kind::Mended => b'M',
            Kind::Stalled => b'S',
            Kind::Spent => b'X',
        }
    }
}

// What comes of a round.
#[derive(Clone, Copy, Debug, PartialEq, Eq)]
pub enum Step {
    Empty,
    Reached,
    Going,
}

// The word after a round, which stands whatever came of it, and what that was.
#[derive(Clone, Copy)]
pub struct Rounded {
    pub step: Step,
    pub word: Word,
}

// How the rounds ended, and the answer word.
#[derive(Clone, Copy)]
pub struct End {
    pub kind: Kind,
    pub rounds: u8,
    pub word: Word,
}

// What comes of a round that changed the word: a code word is one whose remainder is zero.
fn changed(zero: bool) -> Step
    ensures { result ≡ step_of false zero }
{
    if zero {
        return Step::Reached;
    }
    Step::Going
}

// Makes the matrix of a word over the dual words whose terms are listed.
fn make_matrix(c: Params, terms: &[u16], w: Word, m: &mut [u16])
    requires { Countable c terms.now w m.old }
    ensures { (bytes : List ℕ) → Describes bytes c → TermsOf (stride c.n) c.p c.n c.duals (dual_of bytes) terms.now
        → m.new ≡ matrix (field_of bytes) (book_of bytes) (at c.n w) }
{
    matrix::fill(c.p, c.n, c.duals, terms, &w, m);
}

// One round, from the matrix of the word: makes the update set, subtracts, and divides the new word. Its remainder is left in `rest`.
fn round(c: Params, t: &[u8], w: Word, m: &[u16], rest: &mut [u8]) -> Rounded
    requires { Begun c t.now w m.now rest.old }
    ensures { (bytes : List ℕ) (make : (ℕ → ℕ) → List ℕ) → OpenBook bytes c t.now → m.now ≡ make (at c.n w)
        → Stepped bytes make w result m.now }
{
    let n = c.n;
    let e = decode_update::corrections(c.p, n, c.places, m);
    let next = word_array::add(n, &w, &e);
    if word_array::is_zero(n, &e) {
        return Rounded {
            step: Step::Empty,
            word: next,
        };
    }
    word_divide::remainder(c.p, n, c.degree, t, &next, rest);
    let step = changed(word_array::is_zero(c.degree, rest));
    Rounded { step, word: next }
}

// The rounds for a received word that is not a code word. Each begins with the matrix of the word so far.
fn go(c: Params, t: &[u8], terms: &[u16], r: Word, m: &mut [u16], rest: &mut [u8]) -> End
    requires { Ready c t.now terms.now r m.old rest.old }
    ensures { (bytes : List ℕ) → Prepared bytes c t.now terms.now
        → Ended bytes (all_rounds bytes (matrix (field_of bytes) (book_of bytes)) (listed bytes r)) result m.new }
{
    let mut w = r;
    for made in 0..c.rounds {
        make_matrix(c, terms, w, m);
        let s = round(c, t, w, m, rest);
        let step = s.step;
        let next = s.word;
        let rounds = made + 1;
        match step {
            Step::Empty => {
                return End {
                    kind: Kind::Stalled,
                    rounds,
                    word: r,
                };
            }
            Step::Reached => {
                return End {
                    kind: Kind::Mended,
                    rounds,
                    word: next,
                };
            }
            Step::Going => {
                w = next;
            }
        }
    }
    End {
        kind: Kind::Spent,
        rounds: c.rounds,
        word: r,
    }
}

// Decodes a received word: Clean where its remainder is zero, with a matrix of zeros; else by rounds, before the first of which the terms are listed.
pub fn run(
    book: &[u8],
    c: Params,
    t: &[u8],
    terms: &mut [u16],
    received: &[u8],
    m: &mut [u16],
) -> End
    requires { Received book.now c t.now terms.old received.now m.old }
    ensures { Ended book.now (decode (field_of book.now) (book_of book.now) (listed book.now received.now)) result
        m.new × TermsRoom book.now c terms.new }
{
    let r = word_array::load(received, 0, c.n);
    let mut rest = [0u8; STRIDE];
    word_divide::remainder(c.p, c.n, c.degree, t, received, &mut rest);
    if word_array::is_zero(c.degree, &rest) {
        matrix::clear(m);
        return End {
            kind: Kind::Clean,
            rounds: 0,
            word: r,
        };
    }
    matrix_terms::ready(book, c.p, c.n, c.duals, terms);
    go(c, t, terms, r, m, &mut rest)
}
