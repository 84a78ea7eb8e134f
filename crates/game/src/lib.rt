// A game: the messages of all words of a burst, or of none.
#![tactic(auto)]

ghost use Rattle.std.specs.Prelude.{length};
ghost use Rattle.spec_operations.specs.Game.{game_refusal, Games};
ghost use Rattle.game.specs.Said.{said};

use matrix_terms::{LONG_TERMS, TERMS};
use refusal::Refusal;
use sizes::{
    BURST_PLACES, FEW_MATRIX, FEW_TABLE, LONG_BURST_PLACES, LONG_FEW_MATRIX, LONG_FEW_TABLE,
    MATRIX, TABLE,
};

mod rooms; // rooms.rt: the room that a book asks
mod taking; // taking.rt: which words of a burst are held
mod words; // words.rt: a game once the book is open

// Every word is Clean or Mended; or how many are not.
#[derive(Clone, Copy, Debug, PartialEq, Eq)]
pub enum Game {
    Whole,
    Held(u8),
}

// Takes a game: decodes the words of a burst, and writes the messages of all of them, or nothing. No room is larger than the book asks.
pub fn take(book: &[u8], words: u32, received: &[u8], messages: &mut [u8]) -> Result<Game, Refusal>
    ensures { Games book.now (game_refusal book.now words received.now (length messages.old)) words
        received.now messages.old (said result) messages.new }
{
    let few = book::few_symbols(book);
    if book_layout::is_long(book) {
        if few {
            return rooms::take_in::<LONG_TERMS, LONG_FEW_TABLE, LONG_BURST_PLACES, LONG_FEW_MATRIX>(
                book, words, received, messages,
            );
        }
        return rooms::take_in::<LONG_TERMS, TABLE, LONG_BURST_PLACES, MATRIX>(
            book, words, received, messages,
        );
    }
    if few {
        return rooms::take_in::<TERMS, FEW_TABLE, BURST_PLACES, FEW_MATRIX>(
            book, words, received, messages,
        );
    }
    rooms::take_in::<TERMS, TABLE, BURST_PLACES, MATRIX>(book, words, received, messages)
}
