//! Reading a request's body.
ghost use Rattle.std.specs.Prelude.{◌-◌, ◌^◌, ◌<◌, [], ◌++◌, length, IfOk, IfSome};
ghost use Rattle.gr_http.specs.Streams.{CountsFailure};
ghost use Rattle.gr_http.specs.Reads.{Reads, AreNeeded, AreSoMany};
ghost use Rattle.gr_http.specs.Body.{TakesBody, Fills};

use crate::input::Input;
use crate::streams::Failed;

/// Fills `body`, first from the bytes that came with the head, and then from the input. Answers
/// whether there were enough: `false` where the input ended before. `Failed`: a read failed.
pub fn read_body<I: Input>(input: &mut I, came: &[u8], body: &mut [u8]) -> Result<bool, Failed>
    requires { I.failed input.old < 2 ^ 64 - 1 }
    ensures failures { CountsFailure (I.failed input.old) (I.failed input.new) result }
    ensures body { IfOk result (λ enough.
        IfSome (I.coming input.old) (λ more. TakesBody (came.now ++ more) body.new enough)) }
    ensures needed { Reads (I.taken input.old) (I.taken input.new)
        (AreNeeded (AreSoMany (length body.new)) came.now) }
{
    let here = came.len().min(body.len());
    let (front, back) = body.split_at_mut(here);
    front.copy_from_slice(&came[..here]);
    let count = fill(input, back)?;
    Ok(count == back.len())
}

/// Reads until the buffer is full or the input ends, and answers how many bytes it read.
fn fill<I: Input>(input: &mut I, buffer: &mut [u8]) -> Result<usize, Failed>
    requires { I.failed input.old < 2 ^ 64 - 1 }
    ensures failures { CountsFailure (I.failed input.old) (I.failed input.new) result }
    ensures fills { IfOk result (Fills (I.coming input.old) (I.coming input.new) buffer.new) }
    ensures needed { Reads (I.taken input.old) (I.taken input.new)
        (AreNeeded (AreSoMany (length buffer.new)) []) }
{
    let mut filled = 0;
    while filled < buffer.len() {
        let count = input.take(&mut buffer[filled..])?;
        if count == 0 {
            break;
        }
        filled += count;
    }
    Ok(filled)
}
