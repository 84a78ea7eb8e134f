// A part of the input that comes in pieces: the length field, the codebook or a word.
ghost use Rattle.std.specs.Prelude.{◌-◌, ◌/◌, ◌≤◌, ◌<◌, length};
ghost use Rattle.spec_program.specs.Output.{most_words};
ghost use Rattle.stream_state.specs.Part.{Least, Filled};

// How many words of n bytes are read whole from `size` bytes, after `count` words.
pub fn whole_words(count: usize, size: usize, n: usize) -> usize
    requires { (count ≤ most_words) × (0 < n) }
    ensures { Least (most_words - count) (size / n) result }
{
    (crate::MOST - count).min(size / n)
}

// Fills a part that has the first `have` of its `size` bytes: as many bytes join it as it lacks, or as there are.
pub fn fill(part: &mut [u8], have: usize, size: usize, bytes: &[u8]) -> usize
    requires { (have ≤ size) × (size ≤ length part.old) }
    ensures { Filled part.old have size bytes.now part.new result }
{
    let count = (size - have).min(bytes.len());
    for k in 0..count {
        part[have + k] = bytes[k];
    }
    count
}
