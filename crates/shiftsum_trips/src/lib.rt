// What a C caller sees of two calls: each function here calls functions of `shiftsum`, which `shiftsum_c` exports, and its contract speaks of
// the numbers that they return and of the buffers. A burst's are said in the crate symmetry, of the records by value.
#![tactic(auto)]

ghost use Rattle.std.specs.Prelude.{◌≡◌, List, [], ℕ, length};
ghost use Rattle.spec_book.specs.Book.{message_length};
ghost use Rattle.spec_book.specs.Layout.{book_of};
ghost use Rattle.spec_coding.specs.Coder.{written_out};
ghost use Rattle.spec_operations.specs.Packed.{Returns};
ghost use Rattle.spec_operations.specs.Coding.{code_refusal, coded, read_refusal, message_of};
ghost use Rattle.spec_operations.specs.Remainder.{remainder_refusal, remainder_of, GivenTwo};
ghost use Rattle.spec_operations.specs.Decoding.{matrix_size, decode_refusal, decode_bytes, values};
ghost use Rattle.spec_operations.specs.Game.{game_size, game_refusal, game_held, game_values, game_messages};
ghost use Rattle.spec_operations.specs.GameTrips.{send_refusal, sent};
ghost use Rattle.spec_operations.specs.Twice.{Given};
ghost use Rattle.spec_operations.specs.Short.{GivenWrittenOut};
ghost use Rattle.spec_operations.specs.OverC.{GivenBackOverC, RelatedOverC, SortedOverC, SameWordOverC, BackWholeOverC};

// Demand 3. Both calls return and write what decode's definition says, whatever is given. For all t, c and v together: where the second word is the first
// turned by t, times the nonzero symbol c, plus the code word v, the book is accepted and the answers have the exact size, neither call is refused, the two
// numbers are equal, and the second answer word is the first one moved in the same way.
pub fn decode_twice(
    book: &[u8],
    received: &[u8],
    answer: &mut [u8],
    received2: &[u8],
    answer2: &mut [u8],
) -> (u32, u32)
    ensures returns_first { Returns (decode_refusal book.now received.now (length answer.old) (matrix_size book.now))
        (values (decode_bytes book.now received.now)) (decode_bytes book.now received.now).answer
        answer.old result.0 answer.new }
    ensures returns_second { Returns (decode_refusal book.now received2.now (length answer2.old) (matrix_size book.now))
        (values (decode_bytes book.now received2.now)) (decode_bytes book.now received2.now).answer
        answer2.old result.1 answer2.new }
    ensures moved { (t c : ℕ) (v : List ℕ)
        → Given book.now t c v received.now received2.now (length answer.old) (matrix_size book.now)
        (length answer2.old) (matrix_size book.now)
        → RelatedOverC book.now t c v result.0 result.1 answer.new answer2.new }
{
    let first = shiftsum::shiftsum_decode(book, received, answer);
    let second = shiftsum::shiftsum_decode(book, received2, answer2);
    (first, second)
}

// Both calls return and write what the definitions say, whatever is given; and a message that is accepted is read back, written out, from the word that it was
// coded into.
pub fn code_then_read(book: &[u8], message: &[u8], word: &mut [u8], back: &mut [u8]) -> (u32, u32)
    ensures returns_there { Returns (code_refusal book.now message.now (length word.old))
        [] (coded book.now message.now) word.old result.0 word.new }
    ensures returns_back { Returns (read_refusal book.now word.new (length back.old))
        [] (message_of book.now word.new) back.old result.1 back.new }
    ensures given_back { code_refusal book.now message.now (length word.old) ≡ 0
        → length back.old ≡ message_length (book_of book.now)
        → GivenBackOverC result.0 result.1 (written_out (book_of book.now) message.now) back.new }
{
    let first = shiftsum::shiftsum_code(book, message, word);
    let second = shiftsum::shiftsum_read(book, word, back);
    (first, second)
}

// The same the other way round: a code word that is accepted is made again from the message that was read.
pub fn read_then_code(book: &[u8], word: &[u8], message: &mut [u8], back: &mut [u8]) -> (u32, u32)
    ensures returns_there { Returns (read_refusal book.now word.now (length message.old))
        [] (message_of book.now word.now) message.old result.0 message.new }
    ensures returns_back { Returns (code_refusal book.now message.new (length back.old))
        [] (coded book.now message.new) back.old result.1 back.new }
    ensures given_back { read_refusal book.now word.now (length message.old) ≡ 0
        → length back.old ≡ (book_of book.now).n
        → GivenBackOverC result.0 result.1 word.now back.new }
{
    let first = shiftsum::shiftsum_read(book, word, message);
    let second = shiftsum::shiftsum_code(book, message, back);
    (first, second)
}

// Both calls return and write what the definition says, whatever is given; and where the second message is the first written out, they return and write
// the same.
pub fn code_twice(
    book: &[u8],
    message: &[u8],
    word: &mut [u8],
    whole: &[u8],
    word2: &mut [u8],
) -> (u32, u32)
    ensures returns_first { Returns (code_refusal book.now message.now (length word.old))
        [] (coded book.now message.now) word.old result.0 word.new }
    ensures returns_second { Returns (code_refusal book.now whole.now (length word2.old))
        [] (coded book.now whole.now) word2.old result.1 word2.new }
    ensures same_word { GivenWrittenOut book.now message.now whole.now (length word.old) (length word2.old)
        → SameWordOverC result.0 result.1 word.new word2.new }
{
    let first = shiftsum::shiftsum_code(book, message, word);
    let second = shiftsum::shiftsum_code(book, whole, word2);
    (first, second)
}

// Both calls return and write what the definition says, whatever is given; and of two words the remainders are equal exactly if the words differ by a
// code word.
pub fn remainder_twice(
    book: &[u8],
    word: &[u8],
    remainder: &mut [u8],
    word2: &[u8],
    remainder2: &mut [u8],
) -> (u32, u32)
    ensures returns_first { Returns (remainder_refusal book.now word.now (length remainder.old))
        [] (remainder_of book.now word.now) remainder.old result.0 remainder.new }
    ensures returns_second { Returns (remainder_refusal book.now word2.now (length remainder2.old))
        [] (remainder_of book.now word2.now) remainder2.old result.1 remainder2.new }
    ensures sorted { GivenTwo book.now word.now word2.now (length remainder.old) (length remainder2.old)
        → SortedOverC book.now word.now word2.now result.0 result.1 remainder.new remainder2.new }
{
    let first = shiftsum::shiftsum_remainder(book, word, remainder);
    let second = shiftsum::shiftsum_remainder(book, word2, remainder2);
    (first, second)
}

// One call of game, after calls of code: it returns and writes what the definition says, whatever is given. For all messages f: where the burst is their words,
// each as code writes it, mixed, the game is Whole and its messages are f.
pub fn game_of_coded(book: &[u8], words: u32, received: &[u8], messages: &mut [u8]) -> u32
    ensures returns_game { Returns (game_refusal book.now words received.now (length messages.old))
        (game_values (game_held book.now words received.now))
        (game_messages book.now words received.now messages.old) messages.old result messages.new }
    ensures given_back { (f : List ℕ) → send_refusal book.now words f (length received.now) ≡ 0
        → received.now ≡ sent book.now words f → length messages.old ≡ game_size book.now words
        → BackWholeOverC result f messages.new }
{
    shiftsum::shiftsum_game(book, words, received, messages)
}
