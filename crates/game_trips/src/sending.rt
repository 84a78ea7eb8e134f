// The messages of a game, each coded by a call of code, and their words mixed into a burst.
ghost use Rattle.std.specs.Prelude.{◌≡◌, ◌*◌, ◌≤◌, ◌<◌, length};
ghost use Rattle.spec_operations.specs.Wrote.{Wrote};
ghost use Rattle.spec_operations.specs.GameTrips.{send_input_refusal, send_refusal, sent};
ghost use Rattle.refusal.specs.Number.{said};
ghost use Rattle.book.specs.Params.{Describes};
ghost use Rattle.game_trips.specs.Mixing.{Put};

use book::Params;
use refusal::Refusal;
use sizes::{TABLE, WIDTH};

// Puts word m in its places of a burst.
fn mix(word: &[u8], n: usize, words: usize, m: usize, out: &mut [u8])
    requires { (n ≤ 255) × (words ≤ 16) × (m < words) × (n ≤ length word.now) × (n * words ≤ length out.old) }
    ensures { Put n words m word.now out.old out.new }
{
    for j in 0..n {
        out[j * words + m] = word[j];
    }
}

// Codes and mixes messages that are not refused. There is room for a word.
fn code_all(book: &[u8], c: Params, words: usize, messages: &[u8], word: &mut [u8], out: &mut [u8])
    requires { Describes book.now c × (send_input_refusal book.now words messages.now (length out.old) ≡ 0) × (length word.old ≡ c.n) }
    ensures { out.new ≡ sent book.now words messages.now }
{
    let n = c.n;
    let k = n - c.degree;
    for m in 0..words {
        let from = m * k;
        coder::code(book, &messages[from..from + k], word).unwrap();
        mix(word, n, words, m, out);
    }
}

// The same once the book is open, for all inputs.
fn send_words(
    book: &[u8],
    c: Params,
    words: u32,
    messages: &[u8],
    out: &mut [u8],
) -> Result<(), Refusal>
    requires { Describes book.now c }
    ensures { Wrote (send_input_refusal book.now words messages.now (length out.old))
        (sent book.now words messages.now) out.old (said result) out.new }
{
    let n = c.n;
    refusals::words_refusal(
        field::order(c.p),
        words,
        messages,
        n - c.degree,
        out.len(),
        n,
    )?;
    let mut word = [0u8; WIDTH];
    code_all(book, c, words as usize, messages, &mut word[..n], out);
    Ok(())
}

// Codes the messages of a game and mixes their words.
pub fn send(book: &[u8], words: u32, messages: &[u8], out: &mut [u8]) -> Result<(), Refusal>
    ensures { Wrote (send_refusal book.now words messages.now (length out.old))
        (sent book.now words messages.now) out.old (said result) out.new }
{
    let mut t = [0u8; TABLE];
    let c = book::open(book, &mut t)?;
    send_words(book, c, words, messages, out)
}
