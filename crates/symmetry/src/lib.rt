// Demand 3: two calls of decode, and two bursts: what each answers and writes, and how the two are related.
#![tactic(auto)]

ghost use Rattle.std.specs.Prelude.{List, ℕ, length};
ghost use Rattle.spec_operations.specs.Decoding.{decode_refusal, decode_bytes, Decodes};
ghost use Rattle.spec_operations.specs.Twice.{Given, Related};
ghost use Rattle.spec_operations.specs.Burst.{burst_refusal, burst_word};
ghost use Rattle.spec_operations.specs.BurstTwice.{BurstSizes, GivenBursts, RelatedBursts};
ghost use Rattle.decode.specs.Decoded as decoded;
ghost use Rattle.refusal.specs.Number.{said};
ghost use Rattle.burst.specs.Said.{made_bytes, Answered};

use burst::Burst;
use decode::Decoded;
use refusal::Refusal;

// Both calls answer and write what decode's definition says, whatever is given. For all t, c and v together: where the second word is the first turned by t,
// times the nonzero symbol c, plus the code word v, the book is accepted and the outputs have their exact sizes, what they answer and write is related as
// demand 3 says, whatever the outputs held before.
pub fn decode_twice(
    book: &[u8],
    received: &[u8],
    answer: &mut [u8],
    entries: &mut [u16],
    received2: &[u8],
    answer2: &mut [u8],
    entries2: &mut [u16],
) -> (Result<Decoded, Refusal>, Result<Decoded, Refusal>)
    ensures decodes_first { Decodes (decode_refusal book.now received.now (length answer.old) (length entries.old))
        (decode_bytes book.now received.now) answer.old entries.old (decoded.said result.0)
        answer.new entries.new }
    ensures decodes_second { Decodes (decode_refusal book.now received2.now (length answer2.old) (length entries2.old))
        (decode_bytes book.now received2.now) answer2.old entries2.old (decoded.said result.1)
        answer2.new entries2.new }
    ensures moved { (t c : ℕ) (v : List ℕ)
        → Given book.now t c v received.now received2.now (length answer.old) (length entries.old)
        (length answer2.old) (length entries2.old)
        → Related book.now t c v (decoded.said result.0) (decoded.said result.1) answer.new answer2.new entries.new
        entries2.new }
{
    let first = decode::decode(book, received, answer, entries);
    let second = decode::decode(book, received2, answer2, entries2);
    (first, second)
}

// The same of two bursts of one count of words: both answer and write what the definition says, whatever is given. For all words w, and for all turns t,
// factors c and code words v, one for each word: where the first burst is w mixed, and the second the moved words mixed, every word's results are related as
// demand 3 says.
pub fn burst_twice(
    book: &[u8],
    words: u32,
    received: &[u8],
    answers: &mut [u8],
    list: usize,
    entries: &mut [u16],
    received2: &[u8],
    answers2: &mut [u8],
    list2: usize,
    entries2: &mut [u16],
) -> (Result<Burst, Refusal>, Result<Burst, Refusal>)
    ensures answered_first { Answered (burst_refusal book.now words received.now (length answers.old) list (length entries.old))
        words (burst_word book.now words received.now) answers.old entries.old result.0 answers.new
        entries.new }
    ensures answered_second { Answered (burst_refusal book.now words received2.now (length answers2.old) list2 (length entries2.old))
        words (burst_word book.now words received2.now) answers2.old entries2.old result.1 answers2.new
        entries2.new }
    ensures moved { (w : ℕ → List ℕ) (t c : ℕ → ℕ) (v : ℕ → List ℕ)
        → GivenBursts book.now words w t c v received.now received2.now
        → BurstSizes book.now words (length answers.old) list (length entries.old)
        → BurstSizes book.now words (length answers2.old) list2 (length entries2.old)
        → RelatedBursts book.now words t c v (said result.0) (said result.1) answers.new answers2.new
        (made_bytes result.0) (made_bytes result.1) entries.new entries2.new }
{
    let first = burst::decode_burst(book, words, received, answers, list, entries);
    let second = burst::decode_burst(book, words, received2, answers2, list2, entries2);
    (first, second)
}
