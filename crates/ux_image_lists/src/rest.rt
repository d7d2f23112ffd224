//! What is left of a file, and the fields at its front.

ghost use Rattle.std.specs.Prelude.{◌≡◌, ◌^◌, ◌<◌, IfErr, IfOk, MatchOption};
ghost use Rattle.ux_image.specs.Layout.{number_bytes};
ghost use Rattle.ux_image_lists.specs.Fields.{bytes_of, number, Stops};
ghost use Rattle.ux_image_lists.specs.Lists.{text_of, IsText};

use std::alloc::Global;
use ux_base::Txt;
use ux_image_reader::ImageError;

/// What is left of a file.
#[derive(Drop)]
pub struct Rest<'a> {
    /// The bytes.
    pub bytes: &'a [u8],
}

/// Reads a number.
pub(crate) fn read_number(rest: &mut Rest<'_>) -> Result<u32, ImageError>
    ensures ok { IfOk result (λ n. number.Begins rest.old.bytes.now n rest.new.bytes.now) }
    ensures err { IfErr result (number.Refuses rest.old.bytes.now) }
{
    match rest.bytes.split_first_chunk::<4>() {
        Some((four, behind)) => {
            rest.bytes = behind;
            Ok(number_of(*four))
        }
        None => Err(ImageError::Short),
    }
}

/// The number of four bytes, the least first.
fn number_of(four: [u8; 4]) -> u32
    ensures bytes { number_bytes result ≡ four }
    ensures fits { result < 2 ^ 32 }
{
    u32::from_le_bytes(four)
}

/// Reads so many bytes.
fn read_bytes<'a>(rest: &mut Rest<'a>, many: usize) -> Result<&'a [u8], ImageError>
    ensures ok { IfOk result (λ bytes.
        (bytes_of many).Begins rest.old.bytes.now bytes.now rest.new.bytes.now) }
    ensures err { IfErr result ((bytes_of many).Refuses rest.old.bytes.now) }
{
    match rest.bytes.split_at_checked(many) {
        Some((bytes, behind)) => {
            rest.bytes = behind;
            Ok(bytes)
        }
        None => Err(ImageError::Short),
    }
}

/// Reads a text of so many bytes, of the code of this number.
pub(crate) fn read_text(
    alloc: Global,
    many: u32,
    code: usize,
    rest: &mut Rest<'_>,
) -> Result<Txt, ImageError>
    ensures ok { IfOk result (λ text.
        (text_of many code).Begins rest.old.bytes.now text rest.new.bytes.now) }
    ensures err { IfErr result (Stops (text_of many code) rest.old.bytes.now) }
{
    let bytes = read_bytes(rest, many as usize)?;
    match text_in(bytes) {
        Some(text) => Ok(Txt::from_str(alloc, text)?),
        None => Err(ImageError::BadCode { number: code }),
    }
}

/// The text that the bytes are, if they are one without a line feed.
fn text_in(bytes: &[u8]) -> Option<&str>
    ensures { MatchOption result (IsText bytes.now → ⊥)
        (λ text. (text.now ≡ bytes.now) × IsText bytes.now) }
{
    let text = str::from_utf8(bytes).ok()?;
    if bytes.contains(&b'\n') {
        return None;
    }
    Some(text)
}
