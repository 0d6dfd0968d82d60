ghost use Rattle.std.specs.Prelude.{◌≡◌, IfOk, IfSome};
ghost use Rattle.cv_json.specs.Timestamps.{ts_text, read_ts};

use crate::base64_text::eight_bytes_of;
use base64::engine::general_purpose::STANDARD;
use cv_values::{Memory, Text};
use std::alloc::Global;

/// The text of a timestamp: the base64 text (standard alphabet, with padding) of its eight bytes,
/// the lowest first. It has twelve characters.
pub fn ts_text(alloc: Global, ts: u64) -> Result<Text, Memory>
    ensures { IfOk result (λ text. text ≡ ts_text ts) }
{
    let text = STANDARD.encode(alloc, &ts.to_le_bytes())?;
    Ok(Text::from_string(text))
}

/// The timestamp that a text is the text of, or none exactly where the text isn't what [`ts_text`]
/// gives for some timestamp. It takes no memory.
pub fn read_ts(text: &Text) -> Option<u64>
    ensures value { result ≡ read_ts text.now }
    ensures canonical { IfSome result (λ ts. text.now ≡ ts_text ts) }
{
    let bytes = eight_bytes_of(text.as_str())?;
    Some(u64::from_le_bytes(bytes))
}
