// A game beside other calls: messages that were coded come back whole, and a game is Held exactly where its burst has a word that is.
#![tactic(auto)]

ghost use Rattle.std.specs.Prelude.{◌≡◌, length};
ghost use Rattle.spec_operations.specs.Wrote.{Wrote};
ghost use Rattle.spec_operations.specs.Burst.{burst_refusal, burst_word};
ghost use Rattle.spec_operations.specs.Game.{game_size, game_refusal, Games};
ghost use Rattle.spec_operations.specs.GameTrips.{send_refusal, sent, BackWhole, GameOfBurst};
ghost use Rattle.refusal.specs.Number.{said};
ghost use Rattle.burst.specs.Said.{made_bytes, Answered};
ghost use Rattle.game.specs.Said as games;

use burst::Burst;
use game::Game;
use refusal::Refusal;

pub mod sending; // sending.rt: messages coded into a burst

// Both calls answer and write what the definitions say, whatever is given; and messages that are accepted come back from the burst that they were coded into,
// by a game that is Whole.
pub fn send_then_game(
    book: &[u8],
    words: u32,
    messages: &[u8],
    out: &mut [u8],
    back: &mut [u8],
) -> (Result<(), Refusal>, Result<Game, Refusal>)
    ensures wrote { Wrote (send_refusal book.now words messages.now (length out.old))
        (sent book.now words messages.now) out.old (said result.0) out.new }
    ensures games { Games book.now (game_refusal book.now words out.new (length back.old)) words
        out.new back.old (games.said result.1) back.new }
    ensures back_whole { send_refusal book.now words messages.now (length out.old) ≡ 0
        → length back.old ≡ game_size book.now words
        → BackWhole (said result.0) (games.said result.1) messages.now back.new }
{
    let first = sending::send(book, words, messages, out);
    let second = game::take(book, words, out, back);
    (first, second)
}

// Both calls answer and write what the definitions say, whatever is given; and of a burst that is taken, the game is Held exactly where one of the burst's
// records has the letter of a word that is, with their count, and else its messages are what read reads of the burst's answer words.
pub fn burst_then_game(
    book: &[u8],
    words: u32,
    received: &[u8],
    answers: &mut [u8],
    list: usize,
    entries: &mut [u16],
    messages: &mut [u8],
) -> (Result<Burst, Refusal>, Result<Game, Refusal>)
    ensures answered { Answered (burst_refusal book.now words received.now (length answers.old) list (length entries.old))
        words (burst_word book.now words received.now) answers.old entries.old result.0 answers.new
        entries.new }
    ensures games { Games book.now (game_refusal book.now words received.now (length messages.old)) words
        received.now messages.old (games.said result.1) messages.new }
    ensures game_of_burst { burst_refusal book.now words received.now (length answers.old) list (length entries.old) ≡ 0
        → length messages.old ≡ game_size book.now words
        → GameOfBurst book.now words answers.new (made_bytes result.0) messages.old (games.said result.1)
        messages.new }
{
    let first = burst::decode_burst(book, words, received, answers, list, entries);
    let second = game::take(book, words, received, messages);
    (first, second)
}
