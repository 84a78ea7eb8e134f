// The matrix as an exported function, for tests alone: the C boundary keeps it behind decode.
#![tactic(auto)]

ghost use Rattle.std.specs.Prelude.{[], length};
ghost use Rattle.spec_operations.specs.Decoding.{matrix_refusal, matrix_bytes};
ghost use Rattle.spec_operations.specs.Packed.{Returns};

#[unsafe(no_mangle)]
pub extern "C" fn matrix_probe(book: &[u8], received: &[u8], entries: &mut [u16]) -> u32
    ensures { Returns (matrix_refusal book.now received.now (length entries.old))
        [] (matrix_bytes book.now received.now) entries.old result entries.new }
{
    packing::pack_done(decode::matrix(book, received, entries))
}
