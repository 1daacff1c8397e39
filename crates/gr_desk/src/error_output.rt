//! What is said on error output.
ghost use Rattle.std.specs.Prelude.{◌-◌, ◌^◌, ◌<◌, Some};
ghost use Rattle.std.specs.List.{flat_map};
ghost use Rattle.gr_desk.specs.ErrorOutput.{Says};

use gr_http::output::{Output, write_all};

/// Says the text that these pieces make up, the first of them first. Takes no memory. Where a write
/// fails, that is passed over, and the rest of the text is left out.
pub(crate) fn say<E: Output>(errors: &mut E, pieces: &[&str])
    requires { E.failed errors.old < 2 ^ 64 - 1 }
    ensures { Says (E.written errors.old) (E.written errors.new) (E.failed errors.old)
        (E.failed errors.new) (Some (flat_map (λ piece. piece.now) pieces.now)) }
{
    for piece in pieces {
        let Ok(()) = write_all(errors, piece.as_bytes()) else {
            return;
        };
    }
}
