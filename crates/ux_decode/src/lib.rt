//! The text of a file, whose first bytes may name its encoding.
//!
//! `decode` takes a file's bytes and gives its text. A mark at the front names UTF-16 in one of its
//! two orders, or UTF-8; any other file is UTF-8. `specs/Encoding.antt` says which bytes name which
//! encoding, `specs/Decoding.antt` when bytes have a text and when they are refused. Inside,
//! `encoding` looks for the mark, and `utf16` reads units two bytes at a time.
//!
//! ```text
//! let file = vec![in rt.alloc(); 0xff, 0xfe, 0xe9, 0x00]?;
//! let text = decode(rt.alloc(), file)?;      // é
//! ```
#![tactic(auto)]

mod encoding;
pub mod error;
pub mod reading;
mod utf16;

pub use error::DecodeError;
pub use reading::decode;
