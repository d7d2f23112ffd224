//! The text of a file, or why it has none. `specs/Decoding.antt` has the definitions.

ghost use Rattle.std.specs.Prelude.{◌≡◌, ◌≤◌, ◌*◌, IfOk, IfErr, length, drop, string_bytes};
ghost use Rattle.std.specs.Str.{IsUtf8};
ghost use Rattle.ux_decode.specs.Decoding.{IsTextOf, Refuses, RefusesUtf8};

use crate::encoding::{Encoding, encoding_of};
use crate::error::DecodeError;
use crate::utf16::read_utf16;
use std::alloc::Global;

/// The text of a file's bytes, without the mark at their front. UTF-8 is kept where it stands.
pub fn decode(alloc: Global, bytes: Vec<u8>) -> Result<String, DecodeError>
    ensures ok { IfOk result (λ text. IsTextOf bytes.items (string_bytes text)) }
    ensures size { IfOk result (λ text. 2 * length (string_bytes text) ≤ 3 * length bytes.items) }
    ensures err { IfErr result (Refuses bytes.items) }
{
    match encoding_of(&bytes) {
        Encoding::Utf8 => read_utf8(bytes, 0),
        Encoding::MarkedUtf8 => read_utf8(without_mark(bytes), 3),
        Encoding::Utf16(order) => read_utf16(alloc, order, &bytes),
    }
}

/// The text of bytes in UTF-8, before which the file has a mark of so many bytes.
fn read_utf8(bytes: Vec<u8>, mark: usize) -> Result<String, DecodeError>
    requires { mark ≤ 3 }
    ensures ok { IfOk result (λ text. (string_bytes text ≡ bytes.items) × IsUtf8 bytes.items) }
    ensures err { IfErr result (RefusesUtf8 mark bytes.items) }
{
    match String::from_utf8(bytes) {
        Ok(text) => {
            let _text = text.as_str();
            Ok(text)
        },
        Err(error) => Err(DecodeError::BadUtf8 {
            place: mark + error.utf8_error().valid_up_to(),
        }),
    }
}

/// The bytes behind a mark of three bytes, moved to the front.
fn without_mark(mut bytes: Vec<u8>) -> Vec<u8>
    requires { 3 ≤ length bytes.items }
    ensures { result.items ≡ drop 3 bytes.items }
{
    bytes.drain(..3);
    bytes
}
