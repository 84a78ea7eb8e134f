// Bursts: M words of one codebook, received mixed, are decoded by one opening of the book.
#![tactic(auto)]

ghost use Rattle.std.specs.Prelude.{◌≡◌, ◌<◌, length};
ghost use Rattle.spec_operations.specs.Burst.{burst_input_refusal, burst_refusal, burst_word};
ghost use Rattle.book.specs.Params.{Tabulated, Describes};
ghost use Rattle.decode_rounds.specs.Rounds.{TermsRoom, RoomsFit};
ghost use Rattle.burst.specs.Said.{record_at, Answered};

use book::Params;
use matrix_terms::{LONG_TERMS, TERMS};
use refusal::Refusal;
use sizes::{BURST, FEW_TABLE, LONG_FEW_TABLE, TABLE};

mod taking; // taking.rt: which bursts are refused, once the book is open
mod words; // words.rt: the words of a burst, decoded one after another

// What is told of a word: the letter of its kind, its rounds, and how many places changed, in bytes, as C reads them.
#[repr(C)]
#[derive(Clone, Copy, Debug, PartialEq, Eq)]
pub struct Record {
    pub kind: u8,
    pub rounds: u8,
    pub changed: u8,
}

// The answer by value: how many records were made, and the records, blank from there on.
#[derive(Clone, Copy)]
pub struct Burst {
    pub count: usize,
    pub records: [Record; BURST],
}

// Record m. A caller that fills a list of records takes them one by one.
pub fn record_at(made: Burst, m: usize) -> Record
    requires { m < 16 }
    ensures { result ≡ record_at made.records m }
{
    let listed = made.records;
    listed[m]
}

// Decodes a burst once the book is open: t is the table of its generator. `list` is how many records the caller has room for.
pub fn burst_words(
    book: &[u8],
    c: Params,
    t: &[u8],
    terms: &mut [u16],
    words: u32,
    received: &[u8],
    answers: &mut [u8],
    list: usize,
    entries: &mut [u16],
) -> Result<Burst, Refusal>
    requires { Describes book.now c × Tabulated book.now c.p c.n t.now × TermsRoom book.now c terms.old }
    ensures { Answered (burst_input_refusal book.now words received.now (length answers.old) list (length entries.old))
        words (burst_word book.now words received.now) answers.old entries.old result answers.new entries.new }
{
    taking::refusal(book, c, words, received, answers.len(), list, entries.len())?;
    let count = words as usize;
    let records = words::decode_all(book, c, t, terms, count, received, answers, entries);
    Ok(Burst { count, records })
}

// Decodes a burst: the answer words one after another, a record for each, by value, and the matrix of the last word's last round. No room is larger than the
// book asks.
pub fn decode_burst(
    book: &[u8],
    words: u32,
    received: &[u8],
    answers: &mut [u8],
    list: usize,
    entries: &mut [u16],
) -> Result<Burst, Refusal>
    ensures { Answered (burst_refusal book.now words received.now (length answers.old) list (length entries.old))
        words (burst_word book.now words received.now) answers.old entries.old result answers.new entries.new }
{
    let few = book::few_symbols(book);
    if book_layout::is_long(book) {
        if few {
            return burst_in::<LONG_TERMS, LONG_FEW_TABLE>(
                book, words, received, answers, list, entries,
            );
        }
        return burst_in::<LONG_TERMS, TABLE>(book, words, received, answers, list, entries);
    }
    if few {
        return burst_in::<TERMS, FEW_TABLE>(book, words, received, answers, list, entries);
    }
    burst_in::<TERMS, TABLE>(book, words, received, answers, list, entries)
}

// The same with room for so many terms and for a table of so many places. It stands apart, so that a short book has no room for a long one on the stack.
#[inline(never)]
fn burst_in<const TERM_ROOM: usize, const TABLE_ROOM: usize>(
    book: &[u8],
    words: u32,
    received: &[u8],
    answers: &mut [u8],
    list: usize,
    entries: &mut [u16],
) -> Result<Burst, Refusal>
    requires { RoomsFit book.now TERM_ROOM TABLE_ROOM }
    ensures { Answered (burst_refusal book.now words received.now (length answers.old) list (length entries.old))
        words (burst_word book.now words received.now) answers.old entries.old result answers.new entries.new }
{
    let mut terms = [0u16; TERM_ROOM];
    let mut t = [0u8; TABLE_ROOM];
    let c = book::open(book, &mut t)?;
    burst_words(
        book, c, &t, &mut terms, words, received, answers, list, entries,
    )
}
