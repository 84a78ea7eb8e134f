// What the C boundary offers, which the crate shiftsum_c exports: version, check, code, read, remainder, decode, burst and game on numbers and slices. The
// matrix is a local buffer.
#![tactic(auto)]

ghost use Rattle.std.specs.Prelude.{◌≡◌, [], length};
ghost use Rattle.spec_operations.specs.Check.{check_answer};
ghost use Rattle.spec_operations.specs.Coding.{code_refusal, coded, read_refusal, message_of};
ghost use Rattle.spec_operations.specs.Remainder.{remainder_refusal, remainder_of};
ghost use Rattle.spec_operations.specs.Decoding.{matrix_size, decode_refusal, decode_bytes, values};
ghost use Rattle.spec_operations.specs.Burst.{burst_refusal, burst_word, ReturnsBurst};
ghost use Rattle.spec_operations.specs.Game.{game_refusal, game_held, game_values, game_messages};
ghost use Rattle.spec_operations.specs.Packed.{result_of, Returns};
ghost use Rattle.book.specs.Opened.{MatrixFits};
ghost use Rattle.burst.specs.Said.{list_bytes};
ghost use Rattle.shiftsum.specs.Made.{Made};
ghost use Rattle.spec_operations.specs.Version.{version};

use burst::{Burst, Record, record_at};
use refusal::Refusal;
use sizes::{FEW_MATRIX, LONG_FEW_MATRIX, MATRIX};

// Tell the version.
pub fn shiftsum_version() -> u32
    ensures { result ≡ version 0 8 0 }
{
    0x000800
}

// Check a codebook.
pub fn shiftsum_check(book: &[u8]) -> u32
    ensures { result ≡ result_of (check_answer book.now) }
{
    packing::pack_checked(book::check(book))
}

// Code a message.
pub fn shiftsum_code(book: &[u8], message: &[u8], word: &mut [u8]) -> u32
    ensures { Returns (code_refusal book.now message.now (length word.old))
        [] (coded book.now message.now) word.old result word.new }
{
    packing::pack_done(coder::code(book, message, word))
}

// Read a code word.
pub fn shiftsum_read(book: &[u8], word: &[u8], message: &mut [u8]) -> u32
    ensures { Returns (read_refusal book.now word.now (length message.old))
        [] (message_of book.now word.now) message.old result message.new }
{
    packing::pack_done(coder::read(book, word, message))
}

// Write the remainder of a word.
pub fn shiftsum_remainder(book: &[u8], word: &[u8], remainder: &mut [u8]) -> u32
    ensures { Returns (remainder_refusal book.now word.now (length remainder.old))
        [] (remainder_of book.now word.now) remainder.old result remainder.new }
{
    packing::pack_done(coder::remainder(book, word, remainder))
}

// Decode a received word with room for a matrix of so many entries. It stands apart, so that a book has no room on the stack for one that asks for more.
#[inline(never)]
fn decode_in<const ENTRIES: usize>(book: &[u8], received: &[u8], answer: &mut [u8]) -> u32
    requires { MatrixFits book.now ENTRIES }
    ensures { Returns (decode_refusal book.now received.now (length answer.old) (matrix_size book.now))
        (values (decode_bytes book.now received.now)) (decode_bytes book.now received.now).answer
        answer.old result answer.new }
{
    let size = book::matrix_bound(book);
    let mut room = [0u16; ENTRIES];
    packing::pack_decoded(decode::decode(book, received, answer, &mut room[..size]))
}

// Decode a received word. The matrix is of the exact size, so refusal 10 tells of the answer alone. No room is larger than the book asks: to clear it costs time.
pub fn shiftsum_decode(book: &[u8], received: &[u8], answer: &mut [u8]) -> u32
    ensures { Returns (decode_refusal book.now received.now (length answer.old) (matrix_size book.now))
        (values (decode_bytes book.now received.now)) (decode_bytes book.now received.now).answer
        answer.old result answer.new }
{
    let few = book::few_symbols(book);
    if book_layout::is_long(book) {
        if few {
            return decode_in::<LONG_FEW_MATRIX>(book, received, answer);
        }
        return decode_in::<MATRIX>(book, received, answer);
    }
    if few {
        return decode_in::<FEW_MATRIX>(book, received, answer);
    }
    decode_in::<MATRIX>(book, received, answer)
}

// Decode a burst with room for a matrix of so many entries, of which the exact size is lent: its records come by value.
#[inline(never)]
fn burst_in<const ENTRIES: usize>(
    book: &[u8],
    words: u32,
    received: &[u8],
    answers: &mut [u8],
    list: usize,
) -> Result<Burst, Refusal>
    requires { MatrixFits book.now ENTRIES }
    ensures { Made (burst_refusal book.now words received.now (length answers.old) list (matrix_size book.now))
        words (burst_word book.now words received.now) answers.old result answers.new }
{
    let size = book::matrix_bound(book);
    let mut room = [0u16; ENTRIES];
    burst::decode_burst(book, words, received, answers, list, &mut room[..size])
}

// The same with the room that the book asks.
fn burst_made(
    book: &[u8],
    words: u32,
    received: &[u8],
    answers: &mut [u8],
    list: usize,
) -> Result<Burst, Refusal>
    ensures { Made (burst_refusal book.now words received.now (length answers.old) list (matrix_size book.now))
        words (burst_word book.now words received.now) answers.old result answers.new }
{
    let few = book::few_symbols(book);
    if book_layout::is_long(book) {
        if few {
            return burst_in::<LONG_FEW_MATRIX>(book, words, received, answers, list);
        }
        return burst_in::<MATRIX>(book, words, received, answers, list);
    }
    if few {
        return burst_in::<FEW_MATRIX>(book, words, received, answers, list);
    }
    burst_in::<MATRIX>(book, words, received, answers, list)
}

// Decode a burst, and write its records into the caller's list. This is the one function over a slice of structs: all else is done by
// value before, and where the burst is refused there is no record to write.
pub fn shiftsum_burst(
    book: &[u8],
    words: u32,
    received: &[u8],
    answers: &mut [u8],
    records: &mut [Record],
) -> u32
    ensures { ReturnsBurst (burst_refusal book.now words received.now (length answers.old) (length records.old)
        (matrix_size book.now)) words (burst_word book.now words received.now) answers.old (list_bytes records.old) result
        answers.new (list_bytes records.new) }
{
    let made = match burst_made(book, words, received, answers, records.len()) {
        Ok(made) => made,
        Err(why) => return packing::pack_refusal(why),
    };
    for m in 0..made.count {
        records[m] = record_at(made, m);
    }
    0
}

// Take a game: its messages, all or none.
pub fn shiftsum_game(book: &[u8], words: u32, received: &[u8], messages: &mut [u8]) -> u32
    ensures { Returns (game_refusal book.now words received.now (length messages.old))
        (game_values (game_held book.now words received.now))
        (game_messages book.now words received.now messages.old) messages.old result messages.new }
{
    packing::pack_game(game::take(book, words, received, messages))
}
