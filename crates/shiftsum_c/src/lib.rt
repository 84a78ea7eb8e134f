// The C boundary: the functions of the crate shiftsum under their own names, each with the clauses that it has there. A `&[u8]` is a pointer and a length in C.
#![tactic(auto)]

ghost use Rattle.std.specs.Prelude.{◌≡◌, [], length};
ghost use Rattle.spec_operations.specs.Check.{check_answer};
ghost use Rattle.spec_operations.specs.Coding.{code_refusal, coded, read_refusal, message_of};
ghost use Rattle.spec_operations.specs.Remainder.{remainder_refusal, remainder_of};
ghost use Rattle.spec_operations.specs.Decoding.{matrix_size, decode_refusal, decode_bytes, values};
ghost use Rattle.spec_operations.specs.Burst.{burst_refusal, burst_word, ReturnsBurst};
ghost use Rattle.spec_operations.specs.Game.{game_refusal, game_held, game_values, game_messages};
ghost use Rattle.spec_operations.specs.Packed.{result_of, Returns};
ghost use Rattle.burst.specs.Said.{list_bytes};
ghost use Rattle.spec_operations.specs.Version.{version};

use burst::Record;

// Tell the version.
#[unsafe(no_mangle)]
pub extern "C" fn shiftsum_version() -> u32
    ensures { result ≡ version 0 8 0 }
{
    shiftsum::shiftsum_version()
}

// Check a codebook.
#[unsafe(no_mangle)]
pub extern "C" fn shiftsum_check(book: &[u8]) -> u32
    ensures { result ≡ result_of (check_answer book.now) }
{
    shiftsum::shiftsum_check(book)
}

// Code a message.
#[unsafe(no_mangle)]
pub extern "C" fn shiftsum_code(book: &[u8], message: &[u8], word: &mut [u8]) -> u32
    ensures { Returns (code_refusal book.now message.now (length word.old))
        [] (coded book.now message.now) word.old result word.new }
{
    shiftsum::shiftsum_code(book, message, word)
}

// Read a code word.
#[unsafe(no_mangle)]
pub extern "C" fn shiftsum_read(book: &[u8], word: &[u8], message: &mut [u8]) -> u32
    ensures { Returns (read_refusal book.now word.now (length message.old))
        [] (message_of book.now word.now) message.old result message.new }
{
    shiftsum::shiftsum_read(book, word, message)
}

// Write the remainder of a word.
#[unsafe(no_mangle)]
pub extern "C" fn shiftsum_remainder(book: &[u8], word: &[u8], remainder: &mut [u8]) -> u32
    ensures { Returns (remainder_refusal book.now word.now (length remainder.old))
        [] (remainder_of book.now word.now) remainder.old result remainder.new }
{
    shiftsum::shiftsum_remainder(book, word, remainder)
}

// Decode a received word.
#[unsafe(no_mangle)]
pub extern "C" fn shiftsum_decode(book: &[u8], received: &[u8], answer: &mut [u8]) -> u32
    ensures { Returns (decode_refusal book.now received.now (length answer.old) (matrix_size book.now))
        (values (decode_bytes book.now received.now)) (decode_bytes book.now received.now).answer
        answer.old result answer.new }
{
    shiftsum::shiftsum_decode(book, received, answer)
}

// Decode a burst, and write its records into the caller's list.
#[unsafe(no_mangle)]
pub extern "C" fn shiftsum_burst(
    book: &[u8],
    words: u32,
    received: &[u8],
    answers: &mut [u8],
    records: &mut [Record],
) -> u32
    ensures { ReturnsBurst (burst_refusal book.now words received.now (length answers.old) (length records.old)
        (matrix_size book.now)) words (burst_word book.now words received.now) answers.old (list_bytes records.old) result
        answers.new (list_bytes records.new) }
{
    shiftsum::shiftsum_burst(book, words, received, answers, records)
}

// Take a game: its messages, all or none.
#[unsafe(no_mangle)]
pub extern "C" fn shiftsum_game(
    book: &[u8],
    words: u32,
    received: &[u8],
    messages: &mut [u8],
) -> u32
    ensures { Returns (game_refusal book.now words received.now (length messages.old))
        (game_values (game_held book.now words received.now))
        (game_messages book.now words received.now messages.old) messages.old result messages.new }
{
    shiftsum::shiftsum_game(book, words, received, messages)
}
