// Two calls, one after the other: a message is read back from its word, and a code word is made again from its message.
ghost use Rattle.std.specs.Prelude.{◌≡◌, length};
ghost use Rattle.spec_book.specs.Book.{message_length};
ghost use Rattle.spec_book.specs.Layout.{book_of};
ghost use Rattle.spec_coding.specs.Coder.{written_out};
ghost use Rattle.spec_operations.specs.Wrote.{Wrote};
ghost use Rattle.spec_operations.specs.Coding.{code_refusal, coded, read_refusal, message_of};
ghost use Rattle.spec_operations.specs.Trips.{GivenBack};
ghost use Rattle.refusal.specs.Number.{said};

use refusal::Refusal;

// Both calls answer and write what the definitions say, whatever is given; and a message that is accepted is read back, written out, from the word that
// it was coded into.
pub fn code_then_read(
    book: &[u8],
    message: &[u8],
    word: &mut [u8],
    back: &mut [u8],
) -> (Result<(), Refusal>, Result<(), Refusal>)
    ensures wrote_there { Wrote (code_refusal book.now message.now (length word.old))
        (coded book.now message.now) word.old (said result.0) word.new }
    ensures wrote_back { Wrote (read_refusal book.now word.new (length back.old))
        (message_of book.now word.new) back.old (said result.1) back.new }
    ensures given_back { code_refusal book.now message.now (length word.old) ≡ 0
        → length back.old ≡ message_length (book_of book.now)
        → GivenBack (said result.0) (said result.1) (written_out (book_of book.now) message.now) back.new }
{
    let first = coder::code(book, message, word);
    let second = coder::read(book, word, back);
    (first, second)
}

// The same the other way round: a code word that is accepted is made again from the message that was read.
pub fn read_then_code(
    book: &[u8],
    word: &[u8],
    message: &mut [u8],
    back: &mut [u8],
) -> (Result<(), Refusal>, Result<(), Refusal>)
    ensures wrote_there { Wrote (read_refusal book.now word.now (length message.old))
        (message_of book.now word.now) message.old (said result.0) message.new }
    ensures wrote_back { Wrote (code_refusal book.now message.new (length back.old))
        (coded book.now message.new) back.old (said result.1) back.new }
    ensures given_back { read_refusal book.now word.now (length message.old) ≡ 0
        → length back.old ≡ (book_of book.now).n
        → GivenBack (said result.0) (said result.1) word.now back.new }
{
    let first = coder::read(book, word, message);
    let second = coder::code(book, message, back);
    (first, second)
}
