//! The names of files, and the folders in them.

ghost use Rattle.std.specs.Prelude.{◌≡◌, ◌==◌, ◌⊎◌, ◌+◌, ◌-◌, ◌<◌, ◌≤◌, ◌^◌, if◌then◌else◌, length, take, slice_index};
ghost use Rattle.ux_plan.specs.FileNames.{SLASH, base_of, folder_of as folder_of_word};

/// The folder of a word: all of it up to its last slash, the slash with it.
pub fn folder_of(word: &str) -> &str
    ensures { result.now ≡ folder_of_word word.now }
{
    &word[..folder_end(word)]
}

/// What stands after the folder.
pub fn base_of(word: &str) -> &str
    ensures { result.now ≡ base_of word.now }
{
    &word[folder_end(word)..]
}

/// The place after the last slash, or 0.
fn folder_end(word: &str) -> usize
    ensures folder { take result word.now ≡ folder_of_word word.now }
    ensures within { result ≤ length word.now }
    ensures slash { (result ≡ 0) ⊎ (slice_index word.now (result - 1) ≡ SLASH) }
{
    let mut end = 0;
    for (place, byte) in word.as_bytes().iter().enumerate() {
        end = end_after(*byte, place, end);
    }
    end
}

/// Where the folder ends after this byte, if it ended here before.
fn end_after(byte: u8, place: usize, end: usize) -> usize
    requires { place + 1 < 2 ^ 64 }
    ensures { result ≡ (if byte == SLASH then place + 1 else end) }
{
    if byte == b'/' { place + 1 } else { end }
}
