// Two calls of code: who gives a short message and who writes its zeros out get the same word.
ghost use Rattle.std.specs.Prelude.{length};
ghost use Rattle.spec_operations.specs.Wrote.{Wrote};
ghost use Rattle.spec_operations.specs.Coding.{code_refusal, coded};
ghost use Rattle.spec_operations.specs.Short.{GivenWrittenOut, SameWord};
ghost use Rattle.refusal.specs.Number.{said};

use refusal::Refusal;

// Both calls answer and write what the definition says, whatever is given; and where the second message is the first written out, they answer and write
// the same.
pub fn code_twice(
    book: &[u8],
    message: &[u8],
    whole: &[u8],
    first: &mut [u8],
    second: &mut [u8],
) -> (Result<(), Refusal>, Result<(), Refusal>)
    ensures wrote_first { Wrote (code_refusal book.now message.now (length first.old))
        (coded book.now message.now) first.old (said result.0) first.new }
    ensures wrote_second { Wrote (code_refusal book.now whole.now (length second.old))
        (coded book.now whole.now) second.old (said result.1) second.new }
    ensures same_word { GivenWrittenOut book.now message.now whole.now (length first.old) (length second.old)
        → SameWord (said result.0) (said result.1) first.new second.new }
{
    let a = coder::code(book, message, first);
    let b = coder::code(book, whole, second);
    (a, b)
}
