// The lines of words, as text in a lent buffer.
#![tactic(auto)]

ghost use Rattle.std.specs.Prelude.{◌≡◌, ◌+◌, ◌*◌, ◌≤◌, length};
ghost use Rattle.decode_rounds.specs.Rounds.{TermsRoom};
ghost use Rattle.stream_text.specs.Printed.{Printed};
ghost use Rattle.spec_program.specs.Output.{word_line, lines_of};
ghost use Rattle.stream_words.specs.Ready.{Ready};

use book::Params;

// The line of one word, from index `at` on. Answer and matrix are lent, so that no word clears them anew.
pub fn put_word(
    book: &[u8],
    c: Params,
    t: &[u8],
    terms: &mut [u16],
    word: &[u8],
    answer: &mut [u8],
    entries: &mut [u16],
    out: &mut [u8],
    at: usize,
) -> usize
    requires { Ready book.now c t.now terms.old answer.old entries.old × (at + (10 + 2 * c.n) ≤ length out.old) }
    ensures { Printed out.old at (word_line book.now word.now) out.new result
        × (result ≤ at + (10 + 2 * c.n)) × TermsRoom book.now c terms.new }
{
    match decode::decode_word(book, c, t, terms, word, answer, entries) {
        Ok(told) => {
            let letter = u8::from(told.kind);
            stream_text::put_answer(out, at, letter, told.rounds, told.changed, answer)
        }
        Err(why) => stream_text::put_refusal(out, at, why),
    }
}

// The lines of a row of `count` whole words, from index `at` on. A line has at most 6 bytes for each symbol.
pub fn put_words(
    book: &[u8],
    c: Params,
    t: &[u8],
    terms: &mut [u16],
    count: usize,
    words: &[u8],
    answer: &mut [u8],
    entries: &mut [u16],
    out: &mut [u8],
    at: usize,
) -> usize
    requires { Ready book.now c t.now terms.old answer.old entries.old × (length words.now ≡ count * c.n)
        × (at + 6 * length words.now ≤ length out.old) }
    ensures { Printed out.old at (lines_of book.now count words.now) out.new result
        × (result ≤ at + 6 * length words.now) × TermsRoom book.now c terms.new }
{
    let mut next = at;
    for word in words.chunks_exact(c.n) {
        next = put_word(book, c, t, terms, word, answer, entries, out, next);
    }
    next
}
