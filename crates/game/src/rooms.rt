// The room that a game takes on the stack, by the sizes of its arrays.
ghost use Rattle.std.specs.Prelude.{length};
ghost use Rattle.spec_operations.specs.Game.{game_refusal, Games};
ghost use Rattle.game.specs.Said.{said};
ghost use Rattle.game.specs.Rooms.{GameFits};

use crate::Game;
use crate::words::game_words;
use refusal::Refusal;

// Takes a game with room for so many terms, a table and answer words of so many places, and a matrix of so many entries. It stands apart, so that a book has
// no room on the stack for one that asks for more.
#[inline(never)]
pub fn take_in<
    const TERM_ROOM: usize,
    const TABLE_ROOM: usize,
    const ANSWER_ROOM: usize,
    const MATRIX_ROOM: usize,
>(book: &[u8], words: u32, received: &[u8], messages: &mut [u8]) -> Result<Game, Refusal>
    requires { GameFits book.now TERM_ROOM TABLE_ROOM ANSWER_ROOM MATRIX_ROOM }
    ensures { Games book.now (game_refusal book.now words received.now (length messages.old)) words
        received.now messages.old (said result) messages.new }
{
    let mut terms = [0u16; TERM_ROOM];
    let mut t = [0u8; TABLE_ROOM];
    let mut answers = [0u8; ANSWER_ROOM];
    let mut entries = [0u16; MATRIX_ROOM];
    let c = book::open(book, &mut t)?;
    game_words(
        book,
        c,
        &t,
        &mut terms,
        &mut answers,
        &mut entries,
        words,
        received,
        messages,
    )
}
