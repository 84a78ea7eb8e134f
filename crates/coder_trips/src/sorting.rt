// Two calls of remainder. Words are sorted by error pattern so: a pattern leaves the same remainder on whichever code word was sent, and words with equal
// remainders differ by a code word.
ghost use Rattle.std.specs.Prelude.{length};
ghost use Rattle.spec_operations.specs.Wrote.{Wrote};
ghost use Rattle.spec_operations.specs.Remainder.{remainder_refusal, remainder_of, GivenTwo, Sorted};
ghost use Rattle.refusal.specs.Number.{said};

use refusal::Refusal;

// Both calls answer and write what the definition says, whatever is given; and of two words the remainders are equal exactly if the words differ by a
// code word.
pub fn remainder_twice(
    book: &[u8],
    one: &[u8],
    two: &[u8],
    first: &mut [u8],
    second: &mut [u8],
) -> (Result<(), Refusal>, Result<(), Refusal>)
    ensures wrote_first { Wrote (remainder_refusal book.now one.now (length first.old))
        (remainder_of book.now one.now) first.old (said result.0) first.new }
    ensures wrote_second { Wrote (remainder_refusal book.now two.now (length second.old))
        (remainder_of book.now two.now) second.old (said result.1) second.new }
    ensures sorted { GivenTwo book.now one.now two.now (length first.old) (length second.old)
        → Sorted book.now one.now two.now (said result.0) (said result.1) first.new second.new }
{
    let a = coder::remainder(book, one, first);
    let b = coder::remainder(book, two, second);
    (a, b)
}
