// The words of a burst that is not refused: unmixed, and decoded one after another.
ghost use Rattle.std.specs.Prelude.{◌≡◌, ◌+◌, ◌*◌, ◌^◌, ◌≤◌, ◌<◌, length, replicate};
ghost use Rattle.spec_range.specs.Table.{padded};
ghost use Rattle.spec_operations.specs.Burst.{burst_word};
ghost use Rattle.word_array.specs.Stored.{place};
ghost use Rattle.book.specs.Params.{Tabulated, Describes};
ghost use Rattle.decode_rounds.specs.Rounds.{TermsRoom};
ghost use Rattle.burst.specs.Said.{blank};
ghost use Rattle.burst.specs.Words.{Received, Told, DecodedWord, DecodedWords};

use crate::Record;
use book::Params;
use decode::Decoded;
use sizes::{BURST, WIDTH, Word};

// Word m of those that are mixed in a burst.
fn unmix(received: &[u8], words: usize, m: usize, n: usize) -> Word
    requires { (n ≤ 255) × (words ≤ 16) × (m < words) × (n * words ≤ length received.now) }
    ensures { result ≡ padded 255 n (λ j. place received.now (j * words + m)) }
{
    let mut w = [0u8; WIDTH];
    for j in 0..n {
        w[j] = received[j * words + m];
    }
    w
}

// What is told of a word that was decoded.
impl From<Decoded> for Record {
    ghost from_gives = { Told };

    fn from(told: Decoded) -> Record {
        Record {
            kind: u8::from(told.kind),
            rounds: told.rounds,
            changed: told.changed,
        }
    }
}

// Decodes word m of a burst that is not refused, and so the word is not.
fn decode_one(
    book: &[u8],
    c: Params,
    t: &[u8],
    terms: &mut [u16],
    words: usize,
    m: usize,
    received: &[u8],
    answer: &mut [u8],
    entries: &mut [u16],
) -> Record
    requires { Describes book.now c × Tabulated book.now c.p c.n t.now × TermsRoom book.now c terms.old
        × Received c words received.now × (m < words) × (length answer.old ≡ c.n) × (length entries.old ≡ 2 ^ c.p * c.n) }
    ensures { DecodedWord (burst_word book.now words received.now m) result answer.new entries.new
        × TermsRoom book.now c terms.new }
{
    let n = c.n;
    let w = unmix(received, words, m, n);
    let told = decode::decode_word(book, c, t, terms, &w[..n], answer, entries).unwrap();
    Record::from(told)
}

// No records.
pub fn no_records() -> [Record; BURST]
    ensures { result ≡ replicate 16 blank }
{
    let none = Record {
        kind: 0,
        rounds: 0,
        changed: 0,
    };
    [none; BURST]
}

// Decodes the words of a burst that is not refused, one after another.
pub fn decode_all(
    book: &[u8],
    c: Params,
    t: &[u8],
    terms: &mut [u16],
    words: usize,
    received: &[u8],
    answers: &mut [u8],
    entries: &mut [u16],
) -> [Record; BURST]
    requires { Describes book.now c × Tabulated book.now c.p c.n t.now × TermsRoom book.now c terms.old
        × Received c words received.now × (length answers.old ≡ c.n * words) × (length entries.old ≡ 2 ^ c.p * c.n) }
    ensures { DecodedWords words (burst_word book.now words received.now) result answers.new entries.new
        × TermsRoom book.now c terms.new }
{
    let n = c.n;
    let mut records = no_records();
    for m in 0..words {
        let start = m * n;
        let end = start + n;
        let x = decode_one(
            book,
            c,
            t,
            terms,
            words,
            m,
            received,
            &mut answers[start..end],
            entries,
        );
        records[m] = x;
    }
    records
}
