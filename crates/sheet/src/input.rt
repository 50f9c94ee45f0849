// Reading as many bytes of the input as there is room for.
ghost use Rattle.std.specs.Prelude.{◌≤◌, ◌<◌, length, take, IfOk};
ghost use Rattle.std.specs.Io.KnownBytes.{Consumes, IsAtEnd};

use std::io;
use std::io::Read;

// Reads until the buffer is full or the input ends. Answers how many bytes came, which stand at its front.
pub fn read_full<R: Read>(input: &mut R, buffer: &mut [u8]) -> io::Result<usize>
    ensures within { IfOk result (λ came. came ≤ length buffer.new) }
    ensures bytes { IfOk result (λ came. Consumes (R.remaining input.old) (R.remaining input.new) (take came buffer.new)) }
    ensures end { IfOk result (λ came. came < length buffer.new → IsAtEnd (R.remaining input.new)) }
{
    let mut came = 0;
    while came < buffer.len() {
        let size = input.read(&mut buffer[came..])?;
        if size == 0 {
            break;
        }
        came += size;
    }
    Ok(came)
}

// A reader of which a read that fails counts as the end of the input, so that what came before it is still shown.
#[derive(Drop)]
pub struct UntilFailure<R>(pub R);

impl<R: Read> Read for UntilFailure<R> {
    fn read(&mut self, buffer: &mut [u8]) -> io::Result<usize> {
        Ok(self.0.read(buffer).unwrap_or(0))
    }
}
