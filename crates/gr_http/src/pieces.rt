//! Pieces of text, put one after the other into a text of fixed size. It takes no memory.
ghost use Rattle.std.specs.Prelude.{◌≡◌, ◌+◌, ◌≤◌, ◌++◌, length};
ghost use Rattle.std.specs.List.{flat_map};
ghost use Rattle.arrayvec.specs.ArrayString.{array_string_len};

use arrayvec::ArrayString;

/// Adds pieces that fit, the first of them first.
pub fn add_all<const BYTES: usize>(text: &mut ArrayString<BYTES>, pieces: &[&str])
    requires { array_string_len text.old + length (flat_map (λ piece. piece.now) pieces.now)
        ≤ BYTES }
    ensures { text.new.bytes ≡ text.old.bytes ++ flat_map (λ piece. piece.now) pieces.now }
{
    for piece in pieces {
        text.push_str(piece);
    }
}

/// The text of pieces that fit, the first of them first.
pub fn text_of<const BYTES: usize>(pieces: &[&str]) -> ArrayString<BYTES>
    requires { length (flat_map (λ piece. piece.now) pieces.now) ≤ BYTES }
    ensures { result.bytes ≡ flat_map (λ piece. piece.now) pieces.now }
{
    let mut text = ArrayString::new();
    add_all(&mut text, pieces);
    text
}
