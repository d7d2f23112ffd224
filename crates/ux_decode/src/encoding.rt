//! The encoding of a file, by the mark at its front. `specs/Encoding.antt` has the definitions.

ghost use Rattle.std.specs.Prelude.{◌≡◌};
ghost use Rattle.ux_decode.specs.Encoding.{encoding_of};

/// Which byte of a unit comes first.
#[derive(Clone, Copy)]
pub(crate) enum Order {
    /// The less significant byte.
    Little,
    /// The more significant byte.
    Big,
}

/// How a file spells its text.
#[derive(Clone, Copy)]
pub(crate) enum Encoding {
    /// UTF-8 without a mark.
    Utf8,
    /// UTF-8 behind a mark.
    MarkedUtf8,
    /// UTF-16 behind a mark, which tells the order.
    Utf16(Order),
}

/// The encoding that the mark at the front names: UTF-8, where there is none.
pub(crate) fn encoding_of(bytes: &[u8]) -> Encoding
    ensures { result ≡ encoding_of bytes.now }
{
    if bytes.starts_with(b"\xff\xfe") {
        return Encoding::Utf16(Order::Little);
    }
    if bytes.starts_with(b"\xfe\xff") {
        return Encoding::Utf16(Order::Big);
    }
    if bytes.starts_with(b"\xef\xbb\xbf") {
        return Encoding::MarkedUtf8;
    }
    Encoding::Utf8
}
