// The frequency matrix and the decoder as operations, for all inputs.
#![tactic(auto)]

ghost use Rattle.std.specs.Prelude.{◌≡◌, ◌&&◌, ◌*◌, ◌^◌, ◌≤◌, eqb, length};
ghost use Rattle.spec_operations.specs.Wrote.{Wrote};
ghost use Rattle.spec_operations.specs.Decoding.{matrix_input_refusal, matrix_refusal, matrix_bytes, decode_input_refusal, decode_refusal, decode_bytes, Decodes};
ghost use Rattle.refusal.specs.Number as done;
ghost use Rattle.book.specs.Params.{Tabulated, Describes};
ghost use Rattle.decode_rounds.specs.Rounds.{TermsRoom, RoomsFit};
ghost use Rattle.decode.specs.Decoded.{said};

use book::Params;
use decode_rounds::Kind;
use matrix_terms::{LONG_TERMS, TERMS};
use refusal::Refusal;
use sizes::{FEW_TABLE, LONG_FEW_TABLE, TABLE};

// What decode tells beside its answer word and the matrix.
#[derive(Clone, Copy, Debug, PartialEq, Eq)]
pub struct Decoded {
    pub kind: Kind,
    pub rounds: u8,
    pub changed: u8,
}

// The size of a matrix, q * n.
pub fn matrix_size(p: u8, n: usize) -> usize
    requires { (p ≤ 6) × (n ≤ 255) }
    ensures { result ≡ 2 ^ p * n }
{
    usize::from(field::order(p)) * n
}

// Whether an answer and a matrix have their exact sizes.
fn exact(p: u8, n: usize, room: usize, entries: usize) -> bool
    requires { (p ≤ 6) × (n ≤ 255) }
    ensures { result ≡ (eqb room n && eqb entries (2 ^ p * n)) }
{
    if room != n {
        return false;
    }
    entries == matrix_size(p, n)
}

// The matrix of a received word.
pub fn matrix(book: &[u8], received: &[u8], entries: &mut [u16]) -> Result<(), Refusal>
    ensures { Wrote (matrix_refusal book.now received.now (length entries.old))
        (matrix_bytes book.now received.now) entries.old (done.said result) entries.new }
{
    let mut t = [0u8; TABLE];
    let c = book::open(book, &mut t)?;
    matrix_word(book, c, received, entries)
}

// The same once the book is open.
fn matrix_word(book: &[u8], c: Params, received: &[u8], entries: &mut [u16]) -> Result<(), Refusal>
    requires { Describes book.now c }
    ensures { Wrote (matrix_input_refusal book.now received.now (length entries.old))
        (matrix_bytes book.now received.now) entries.old (done.said result) entries.new }
{
    let p = c.p;
    let n = c.n;
    let sized = entries.len() == matrix_size(p, n);
    refusals::refusal(field::order(p), received.len() == n, sized, received)?;
    let r = word_array::load(received, 0, n);
    let mut terms = [0u16; LONG_TERMS];
    matrix_terms::list(book, p, n, c.duals, &mut terms);
    matrix::fill(p, n, c.duals, &terms, &r, entries);
    Ok(())
}

// Decode a received word: the answer word, and the matrix of the last round. No room is larger than the book asks: to clear it costs time.
pub fn decode(
    book: &[u8],
    received: &[u8],
    answer: &mut [u8],
    entries: &mut [u16],
) -> Result<Decoded, Refusal>
    ensures { Decodes (decode_refusal book.now received.now (length answer.old) (length entries.old))
        (decode_bytes book.now received.now) answer.old entries.old (said result)
        answer.new entries.new }
{
    let few = book::few_symbols(book);
    if book_layout::is_long(book) {
        if few {
            return decode_in::<LONG_TERMS, LONG_FEW_TABLE>(book, received, answer, entries);
        }
        return decode_in::<LONG_TERMS, TABLE>(book, received, answer, entries);
    }
    if few {
        return decode_in::<TERMS, FEW_TABLE>(book, received, answer, entries);
    }
    decode_in::<TERMS, TABLE>(book, received, answer, entries)
}

// The same with room for so many terms and for a table of so many places. It stands apart, so that a short book has no room for a long one on the stack.
#[inline(never)]
fn decode_in<const TERM_ROOM: usize, const TABLE_ROOM: usize>(
    book: &[u8],
    received: &[u8],
    answer: &mut [u8],
    entries: &mut [u16],
) -> Result<Decoded, Refusal>
    requires { RoomsFit book.now TERM_ROOM TABLE_ROOM }
    ensures { Decodes (decode_refusal book.now received.now (length answer.old) (length entries.old))
        (decode_bytes book.now received.now) answer.old entries.old (said result)
        answer.new entries.new }
{
    let mut terms = [0u16; TERM_ROOM];
    let mut t = [0u8; TABLE_ROOM];
    let c = book::open(book, &mut t)?;
    decode_word(book, c, &t, &mut terms, received, answer, entries)
}

// The same once the book is open, for many words: t is the table of its generator, and its terms are listed with the first word that asks for them.
pub fn decode_word(
    book: &[u8],
    c: Params,
    t: &[u8],
    terms: &mut [u16],
    received: &[u8],
    answer: &mut [u8],
    entries: &mut [u16],
) -> Result<Decoded, Refusal>
    requires { Describes book.now c × Tabulated book.now c.p c.n t.now × TermsRoom book.now c terms.old }
    ensures { Decodes (decode_input_refusal book.now received.now (length answer.old) (length entries.old))
        (decode_bytes book.now received.now) answer.old entries.old (said result)
        answer.new entries.new × TermsRoom book.now c terms.new }
{
    let p = c.p;
    let n = c.n;
    let sized = exact(p, n, answer.len(), entries.len());
    refusals::refusal(field::order(p), received.len() == n, sized, received)?;
    let end = decode_rounds::run(book, c, t, terms, received, entries);
    let word = end.word;
    let reached: &[u8] = &word;
    word_array::store(reached, answer);
    let changed = word_array::distance(n, reached, received);
    Ok(Decoded {
        kind: end.kind,
        rounds: end.rounds,
        changed: changed as u8,
    })
}
