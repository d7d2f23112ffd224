//! Reading an alphabet file, line by line. `specs/File.antt` has the definitions.

ghost use Rattle.std.specs.Prelude.{◌≡◌, ◌↔◌, ◌<◌, ◌≤◌, IsTrue, ◌∷◌, ◌⊎◌, [], MatchOption, IfOk, IfErr};
ghost use Rattle.std.specs.Option.{option_to_list};
ghost use Rattle.std.specs.Str.{chars};
ghost use Rattle.ux_alphabet.specs.File.{AreLines, LineSays, Refuses, RefusesLine, without_blanks, EndsInBlank, IsLessOneBlank};
ghost use Rattle.ux_alphabet.specs.declared.line.Line.TheVariants.{Range};
ghost use Rattle.ux_alphabet.specs.declared.error.AlphabetError.TheVariants.{EmptyRange, NoMemory};

use crate::error::AlphabetError;
use crate::line::Line;
use std::alloc::Global;

/// The lines of an alphabet file that say something, or why its first bad line is refused.
pub(crate) fn read_lines(alloc: Global, text: &str) -> Result<Vec<Line>, AlphabetError>
    ensures ok { IfOk result (λ lines. AreLines text.now lines.items) }
    ensures err { IfErr result (λ error. (error ≡ NoMemory) ⊎ Refuses text.now error) }
{
    // A text has at most as many lines as bytes, so that a line's number fits.
    let _bytes = text.len();
    let mut lines = Vec::new(alloc);
    let mut number = 0;
    for line in ux_base::lines(text) {
        number += 1;
        if let Some(line) = read_line(line, number)? {
            lines.push(line)?;
        }
    }
    Ok(lines)
}

/// What the line with this number says: nothing, where it is empty.
fn read_line(text: &str, number: usize) -> Result<Option<Line>, AlphabetError>
    ensures ok { IfOk result (λ line. LineSays text.now (option_to_list line)) }
    ensures err { IfErr result (RefusesLine text.now number) }
{
    let Some((first, rest)) = split_first_char(trimmed(text)) else {
        return Ok(None);
    };
    let Some((second, rest)) = split_first_char(rest) else {
        return Ok(Some(Line::Single(first)));
    };
    let Some((third, rest)) = split_first_char(rest) else {
        return Ok(Some(Line::Pair(first, second)));
    };
    match split_first_char(rest) {
        None if first == '#' => Ok(Some(read_range(second, third, number)?)),
        _ => Err(AlphabetError::BadLine { line: number }),
    }
}

/// The range from the first to the last character.
fn read_range(first: char, last: char, number: usize) -> Result<Line, AlphabetError>
    ensures ok { IfOk result (λ line. (line ≡ Range first last) × (first ≤ last)) }
    ensures err { IfErr result (λ error. (error ≡ EmptyRange number) × (last < first)) }
{
    if last < first {
        return Err(AlphabetError::EmptyRange { line: number });
    }
    Ok(Line::Range(first, last))
}

/// The first character of a text, and what stands after it.
fn split_first_char(text: &str) -> Option<(char, &str)>
    ensures { MatchOption result (chars text.now ≡ [])
        (λ (c, rest). chars text.now ≡ c ∷ chars rest.now) }
{
    let mut chars = text.chars();
    match chars.next() {
        Some(c) => Some((c, chars.as_str())),
        None => None,
    }
}

/// The line without the spaces and tabs at its end.
fn trimmed(line: &str) -> &str
    ensures { result.now ≡ without_blanks line.now }
{
    let mut rest = line;
    while let Some(prefix) = strip_blank(rest) {
        rest = prefix;
    }
    rest
}

/// The line without the space or tab at its end, where it has one.
fn strip_blank(line: &str) -> Option<&str>
    ensures { MatchOption result (without_blanks line.now ≡ line.now)
        (λ prefix. IsLessOneBlank line.now prefix.now) }
{
    if ends_in_blank(line) {
        return Some(&line[..line.len() - 1]);
    }
    None
}

/// Whether a space or a tab ends the line.
fn ends_in_blank(line: &str) -> bool
    ensures { IsTrue result ↔ EndsInBlank line.now }
{
    match line.as_bytes().last() {
        Some(last) => *last == b' ' || *last == b'\t',
        None => false,
    }
}
