// Chunks of what a reader has, one after the other.
#![tactic(auto)]

ghost use Rattle.std.specs.Prelude.{IfOk};
ghost use Rattle.std.specs.Result.{OnErr};
ghost use Rattle.chunks.specs.Chunks.{BrokenOff, Filled};

use std::io;
use std::io::Read;

// Fills the chunk as far as the input goes, and answers how many bytes were read: all that the chunk has room for, or fewer
// at the end of the input, which is 0 where nothing is left. Where a read fails, its error is answered, whatever was
// read before it, which stands at the front of the chunk. An interrupted read is a failed one.
pub fn fill<R: Read>(input: &mut R, chunk: &mut [u8]) -> io::Result<usize>
    ensures filled { IfOk result (λ n. Filled (R.remaining input.old) (R.remaining input.new) chunk.new n) }
    ensures broken { OnErr result (BrokenOff (R.remaining input.old) (R.remaining input.new) chunk.new) }
{
    let mut at = 0;
    while at < chunk.len() {
        let n = input.read(&mut chunk[at..])?;
        if n == 0 {
            break;
        }
        at += n;
    }
    Ok(at)
}
