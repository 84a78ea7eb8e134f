// The refusals 9 to 11, which every operation on a book has, and the test for 14.
#![tactic(auto)]

ghost use Rattle.std.specs.Prelude.{◌≡◌, ◌*◌, ◌≤◌, eqb, length};
ghost use Rattle.spec_book.specs.Conditions.{unless, words_ok, message_fits, input_ok, input_refusal};
ghost use Rattle.refusal.specs.Number.{refusal_of};

use refusal::Refusal;

// Whether a burst has 1 to 16 words.
#[tactic(auto, unfolding(spec_book::specs::Conditions::words_ok))]
pub fn words_ok(words: u32) -> bool
    ensures { result ≡ words_ok words }
{
    1 <= words && words <= 16
}

// Whether a message has 1 to k symbols.
#[tactic(auto, unfolding(spec_book::specs::Conditions::message_fits))]
pub fn message_fits(k: usize, size: usize) -> bool
    ensures { result ≡ message_fits k size }
{
    1 <= size && size <= k
}

// Whether every symbol of the input is below q: all are read, with no branch, so that the loop is vector steps.
pub fn symbols_ok(q: u8, input: &[u8]) -> bool
    ensures { result ≡ input_ok q input.now }
{
    let mut ok = true;
    for symbol in input {
        ok &= *symbol < q;
    }
    ok
}

// The first refusal from 9 to 11 that applies: whether the input has the length that is asked, and the output its own, is known.
pub fn refusal(q: u8, fits: bool, exact: bool, input: &[u8]) -> Result<(), Refusal>
    ensures { refusal_of result ≡ input_refusal q fits exact input.now }
{
    if !fits {
        return Err(Refusal::InputLength);
    }
    if !exact {
        return Err(Refusal::OutputLength);
    }
    if !symbols_ok(q, input) {
        return Err(Refusal::InputSymbol);
    }
    Ok(())
}

// The same for M words at once, after 14: the input has `size` symbols a word, and of the output's `room` bytes `wanted` are asked a word. Nothing is multiplied
// by M before M is known to be small.
pub fn words_refusal(
    q: u8,
    words: u32,
    input: &[u8],
    size: usize,
    room: usize,
    wanted: usize,
) -> Result<(), Refusal>
    requires { (size ≤ 255) × (wanted ≤ 255) }
    ensures { refusal_of result ≡ unless (words_ok words) 14
        (input_refusal q (eqb (length input.now) (size * words)) (eqb room (wanted * words)) input.now) }
{
    if !words_ok(words) {
        return Err(Refusal::WordCount);
    }
    let count = words as usize;
    refusal(
        q,
        input.len() == size * count,
        room == wanted * count,
        input,
    )
}
