ghost use Rattle.std.specs.Prelude.{◌≡◌, IfOk, IfSome, option_map};
ghost use Rattle.base64.specs.GeneralPurpose.{IsBytes};
ghost use Rattle.cv_json.specs.Base64.{base64_text, bytes_of, eight_bytes_of};

use base64::DecodeAllocError;
use base64::engine::general_purpose::STANDARD;
use cv_values::Memory;
use std::alloc::Global;

// The bytes that a base64 text is the text of.
pub(crate) fn bytes_of(alloc: Global, text: &str) -> Result<Option<Vec<u8>>, Memory>
    ensures { IfOk result (λ o. option_map (λ v. v.items) o ≡ bytes_of text.now) }
{
    match STANDARD.decode(alloc, text.as_bytes()) {
        Ok(bytes) => Ok(Some(bytes)),
        Err(DecodeAllocError::DecodeError(_)) => Ok(None),
        Err(DecodeAllocError::OutOfMemory) => Err(Memory),
    }
}

// The eight bytes that a base64 text is the text of. It takes no memory.
pub(crate) fn eight_bytes_of(text: &str) -> Option<[u8; 8]>
    ensures value { result ≡ eight_bytes_of text.now }
    ensures canonical { IfSome result (λ bs. text.now ≡ base64_text bs) }
    ensures bytes { IfSome result IsBytes }
{
    let mut bytes = [0; 8];
    match STANDARD.decode_slice(text.as_bytes(), &mut bytes) {
        Ok(8) => Some(bytes),
        _ => None,
    }
}
