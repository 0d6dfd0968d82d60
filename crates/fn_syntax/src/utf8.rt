ghost use Rattle.std.specs.Prelude.{◌≡◌, ◌<◌, MatchResult, length};
ghost use Rattle.std.specs.Str.Lossy.{utf8_valid_len};

/// Bytes as text, or the place of the first byte where they stop being UTF-8: the length of their
/// greatest front that is.
pub(crate) fn utf8_text(bytes: &[u8]) -> Result<&str, u64>
    ensures { MatchResult result (λ text. (text.now ≡ bytes.now) × (utf8_valid_len bytes.now ≡ length bytes.now)) (λ at. (at ≡ utf8_valid_len bytes.now) × (at < length bytes.now)) }
{
    match str::from_utf8(bytes) {
        Ok(text) => Ok(text),
        Err(error) => Err(error.valid_up_to() as u64),
    }
}
