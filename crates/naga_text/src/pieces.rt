//! Bytes, parted by a separator.

ghost use Rattle.std.specs.List.{slice_split};
ghost use Rattle.std.specs.Prelude.{◌≡◌, ◌==◌, ◌<◌, ◌∷◌, [], IfNone, IfSome, length};

/// The bytes before the first separator, and those after it if there is one. A caller goes on with the latter, so that
/// no list of all pieces is made.
#[inline]
pub fn split_first(bytes: &[u8], separator: u8) -> (&[u8], Option<&[u8]>)
    ensures last { IfNone result.1 (slice_split (λ b. b == separator) bytes.now ≡ result.0.now ∷ []) }
    ensures more { IfSome result.1 (λ rest. slice_split (λ b. b == separator) bytes.now
        ≡ result.0.now ∷ slice_split (λ b. b == separator) rest.now) }
    ensures shorter { IfSome result.1 (λ rest. length rest.now < length bytes.now) }
{
    for (i, byte) in bytes.iter().enumerate() {
        if *byte == separator {
            return (&bytes[..i], Some(&bytes[i + 1..]));
        }
    }
    (bytes, None)
}
