//! White space: each longest run of it becomes one space before tokens are cut.
//!
//! Nearly all white space of a text is a space alone, which stays as it is. So white space is
//! joined where the text lies, by prefixes that end only at other runs, and not word by word. A prefix
//! is looked at in blocks, and moved only once what is before it became shorter.

ghost use Rattle.std.specs.Prelude.{◌≡◌, ℕ, ◌<◌, ◌≤◌, ◌+◌, List, ◌++◌, ◌∷◌, IfOk, IsTrue, false, true, length, take, drop, slice_index, string_bytes};
ghost use Rattle.std.specs.List.{prefix_len};
ghost use Rattle.ux_alphabet.specs.Letters.{is_separator};
ghost use Rattle.ux_tokens.specs.Spaces.{FirstStay, IsJoined, IsMoved, Stays};
ghost use Rattle.ux_tokens.specs.Tokens.{with_single_spaces, begins_with_separator};

use std::alloc::{AllocError, Global};

/// How many bytes are looked at together.
const BLOCK: usize = 16;

/// The text in which each longest run of white space is one space.
pub fn single_spaced(alloc: Global, text: &str) -> Result<String, AllocError>
    ensures { IfOk result (λ out. string_bytes out ≡ with_single_spaces text.now) }
{
    let copy = String::from_str(alloc, text)?;
    Ok(into_single_spaced(copy))
}

/// The same of a text that isn't needed any more. Takes no memory.
pub fn into_single_spaced(text: String) -> String
    ensures { string_bytes result ≡ with_single_spaces (string_bytes text) }
{
    let mut bytes = text.into_bytes();
    let len = join_white_space(bytes.as_mut_slice());
    bytes.truncate(len);
    // A run of white space and the space for it are ASCII, so no character is split.
    match String::from_utf8(bytes) {
        Ok(text) => text,
        Err(_) => unreachable!(),
    }
}

/// Makes one space of each longest run of white space. Answers the length of what comes of it,
/// which stands at the front.
fn join_white_space(bytes: &mut [u8]) -> usize
    ensures len { length bytes.new ≡ length bytes.old }
    ensures within { result ≤ length bytes.new }
    ensures joined { take result bytes.new ≡ with_single_spaces bytes.old }
{
    let mut place = 0;
    let mut joined = 0;
    while place < bytes.len() {
        let front = join_front(bytes, place, joined);
        place += front;
        joined += front;
        if place == bytes.len() {
            return joined;
        }
        place += join_run(bytes, place, joined);
        joined += 1;
    }
    joined
}

/// Puts the prefix of the rest that stays as it is after what is joined. Answers its length.
fn join_front(bytes: &mut [u8], place: usize, joined: usize) -> usize
    requires in_order { joined ≤ place }
    requires within { place ≤ length bytes.old }
    ensures within { place + result ≤ length bytes.new }
    ensures len { length bytes.new ≡ length bytes.old }
    ensures joined { (text : List ℕ) → IsJoined text bytes.old joined place →
        IsJoined text bytes.new (joined + result) (place + result) }
    ensures ends { place + result < length bytes.new →
        begins_with_separator (drop (place + result) bytes.new) ≡ true }
{
    let front = front_len(&bytes[place..]);
    move_down(bytes, place, front, joined);
    front
}

/// Puts one space for the white space at the place after what is joined. Answers the length of
/// that white space.
fn join_run(bytes: &mut [u8], place: usize, joined: usize) -> usize
    requires in_order { joined ≤ place }
    requires within { place < length bytes.old }
    requires white { begins_with_separator (drop place bytes.old) ≡ true }
    ensures within { place + result ≤ length bytes.new }
    ensures len { length bytes.new ≡ length bytes.old }
    ensures some { 0 < result }
    ensures joined { (text : List ℕ) → IsJoined text bytes.old joined place →
        IsJoined text bytes.new (joined + 1) (place + result) }
{
    let run = run_len(&bytes[place..]);
    bytes[joined] = b' ';
    run
}

/// Moves so many bytes from a place down to another one, by blocks. Does nothing where both places
/// are one.
fn move_down(bytes: &mut [u8], from: usize, len: usize, to: usize)
    requires within { from + len ≤ length bytes.old }
    requires down { to ≤ from }
    ensures { IsMoved bytes.old bytes.new from to len }
{
    if to == from {
        return;
    }
    let mut moved = 0;
    while len - moved >= BLOCK {
        move_block(bytes, from + moved, to + moved);
        moved += BLOCK;
    }
    bytes.copy_within(from + moved..from + len, to + moved);
}

/// Moves a block down. It is read whole before it is written, since most places overlap.
fn move_block(bytes: &mut [u8], from: usize, to: usize)
    requires within { from + BLOCK ≤ length bytes.old }
    requires down { to ≤ from }
    ensures { IsMoved bytes.old bytes.new from to BLOCK }
{
    match bytes[from..].first_chunk::<BLOCK>() {
        Some(block) => {
            let block = *block;
            bytes[to..to + BLOCK].copy_from_slice(&block);
        }
        None => unreachable!(),
    }
}

/// The length of the prefix that stays as it is. After it stands white space, or nothing.
fn front_len(text: &[u8]) -> usize
    ensures within { result ≤ length text.now }
    ensures stays { with_single_spaces text.now
        ≡ take result text.now ++ with_single_spaces (drop result text.now) }
    ensures ends { result < length text.now → begins_with_separator (drop result text.now) ≡ true }
{
    for place in blocks_len(text)..text.len() {
        if !stays(text, place) {
            return place;
        }
    }
    text.len()
}

/// The length of the blocks at the front in which each byte stays as it is.
fn blocks_len(text: &[u8]) -> usize
    ensures within { result ≤ length text.now }
    ensures stays { with_single_spaces text.now
        ≡ take result text.now ++ with_single_spaces (drop result text.now) }
{
    let mut len = 0;
    while is_block(text, len) {
        len += BLOCK;
    }
    len
}

/// Whether a block begins at a place in which each byte stays as it is.
fn is_block(text: &[u8], start: usize) -> bool
    requires { start ≤ length text.now }
    ensures within { IsTrue result → start + BLOCK < length text.now }
    ensures stays { IsTrue result → FirstStay BLOCK (drop start text.now) }
{
    text.len() - start > BLOCK && first_stay(&text[start..start + BLOCK + 1])
}

/// Whether each byte but the last stays as it is. All are looked at, without a branch, since the
/// processor then takes many at once.
fn first_stay(block: &[u8]) -> bool
    requires { length block.now ≡ BLOCK + 1 }
    ensures { IsTrue result → FirstStay BLOCK block.now }
{
    let mut all = true;
    for place in 0..BLOCK {
        all &= stays_before(block[place], block[place + 1]);
    }
    all
}

/// Whether the byte stays as it is before the next one. Takes control characters for white space, so
/// that it is two comparisons: a block with one is looked at byte by byte.
fn stays_before(byte: u8, next: u8) -> bool
    ensures { IsTrue result → Stays byte next }
{
    (byte > b' ') | ((byte == b' ') & (next > b' '))
}

/// Whether the byte at a place stays as it is: it is no white space, or a space with no white space
/// after it.
fn stays(text: &[u8], place: usize) -> bool
    requires { place < length text.now }
    ensures yes { IsTrue result → with_single_spaces (drop place text.now)
        ≡ slice_index text.now place ∷ with_single_spaces (drop (place + 1) text.now) }
    ensures no { result ≡ false → begins_with_separator (drop place text.now) ≡ true }
{
    let byte = text[place];
    !is_white_space(byte) || (byte == b' ' && !is_white_space_at(text, place + 1))
}

/// Whether white space stands at a place.
fn is_white_space_at(text: &[u8], place: usize) -> bool
    ensures { result ≡ begins_with_separator (drop place text.now) }
{
    match text.get(place) {
        Some(byte) => is_white_space(*byte),
        None => false,
    }
}

/// The length of the white space at the front.
fn run_len(text: &[u8]) -> usize
    ensures { result ≡ prefix_len is_separator text.now }
{
    for place in 0..text.len() {
        if !is_white_space(text[place]) {
            return place;
        }
    }
    text.len()
}

/// Whether the byte is white space. It is ASCII, so no byte of another character is one.
fn is_white_space(byte: u8) -> bool
    ensures { result ≡ is_separator byte }
{
    matches!(byte, b' ' | b'\t' | b'\r' | b'\n')
}
