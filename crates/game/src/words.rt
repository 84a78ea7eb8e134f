// A game once the book is open: its words are decoded, and where none is held their messages are read.
ghost use Rattle.std.specs.Prelude.{◌≡◌, List, ℕ, ◌-◌, ◌*◌, ◌^◌, ◌≤◌, length, Ok};
ghost use Rattle.spec_operations.specs.Game.{game_input_refusal, Games};
ghost use Rattle.book.specs.Params.{Tabulated, Describes};
ghost use Rattle.book.specs.Opened.{OpenBook};
ghost use Rattle.decode_rounds.specs.Rounds.{TermsRoom};
ghost use Rattle.game.specs.Said.{said};
ghost use Rattle.game.specs.Rooms.{MatrixRoom, AnswersRoom};
ghost use Rattle.game.specs.Words.{Readable, SomeWords, messages_in};

use crate::{Game, taking};
use book::Params;
use refusal::Refusal;

// Reads the messages of answer words that stand one after another, each of which is a code word.
fn read_all(c: Params, t: &[u8], words: usize, answers: &[u8], messages: &mut [u8])
    requires { SomeWords c t.now words answers.now × (words ≤ 16) × (length answers.now ≡ c.n * words) × (length messages.old ≡ (c.n - c.degree) * words) }
    ensures { (bytes : List ℕ) → OpenBook bytes c t.now → Readable bytes words answers.now
        → messages.new ≡ messages_in bytes words answers.now }
{
    let n = c.n;
    let k = n - c.degree;
    for m in 0..words {
        let from = m * n;
        let to = m * k;
        coder::read_word(c, t, &answers[from..from + n], &mut messages[to..to + k]).unwrap();
    }
}

// Takes a game that is not refused, and so its burst is not, with room of the exact sizes for its answer words and a matrix. Nothing is written before the last
// word is decoded.
fn take_words(
    book: &[u8],
    c: Params,
    t: &[u8],
    terms: &mut [u16],
    answers: &mut [u8],
    entries: &mut [u16],
    words: u32,
    received: &[u8],
    messages: &mut [u8],
) -> Game
    requires { Describes book.now c × Tabulated book.now c.p c.n t.now × TermsRoom book.now c terms.old
        × (length answers.old ≡ c.n * words) × (length entries.old ≡ 2 ^ c.p * c.n) × (game_input_refusal book.now words received.now (length messages.old) ≡ 0) }
    ensures { Games book.now 0 words received.now messages.old (said (Ok result)) messages.new }
{
    let count = words as usize;
    let made = burst::burst_words(
        book, c, t, terms, words, received, answers, count, entries,
    ).unwrap();
    let held = taking::held(made);
    if held != 0 {
        return Game::Held(held);
    }
    read_all(c, t, count, answers, messages);
    Game::Whole
}

// The same for all inputs: t is the table of the book's generator.
pub fn game_words(
    book: &[u8],
    c: Params,
    t: &[u8],
    terms: &mut [u16],
    answers: &mut [u8],
    entries: &mut [u16],
    words: u32,
    received: &[u8],
    messages: &mut [u8],
) -> Result<Game, Refusal>
    requires { Describes book.now c × Tabulated book.now c.p c.n t.now × TermsRoom book.now c terms.old × AnswersRoom book.now answers.old
        × MatrixRoom book.now entries.old }
    ensures { Games book.now (game_input_refusal book.now words received.now (length messages.old)) words
        received.now messages.old (said result) messages.new }
{
    let p = c.p;
    let n = c.n;
    let k = n - c.degree;
    let q = field::order(p);
    refusals::words_refusal(q, words, received, n, messages.len(), k)?;
    let size = n * (words as usize);
    let matrix = decode::matrix_size(p, n);
    Ok(take_words(
        book,
        c,
        t,
        terms,
        &mut answers[..size],
        &mut entries[..matrix],
        words,
        received,
        messages,
    ))
}
