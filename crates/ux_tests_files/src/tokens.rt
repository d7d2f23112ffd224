//! A text with its tokens, and their file. How each text is cut, and the kinds of its tokens, is shown
//! by rows of `unitex_rows`; what each token has, and the file of a text that is kept, in no command.

ghost use Rattle.std.specs.Prelude.{◌<◌, length};

use crate::comparing::compare;
use std::alloc::Global;
use ux_alphabet::Alphabet;
use ux_base::Mem;
use ux_dela::print_delaf;
use ux_tokens::{Text, print_tokens};

/// A text that is read.
fn read(alloc: Global, text: &str) -> Option<Text> {
    let alphabet = Alphabet::read(alloc, "#AZ\n#az\né\n").ok()?;
    let text = String::from_str(alloc, text).ok()?;
    Text::read(alloc, text, &alphabet).ok()
}

/// A token as its kind, its number and its text, and the entry of a tag.
fn token_text(alloc: Global, text: &Text, i: usize) -> Mem<String>
    requires { i < length text.now }
{
    let mut out = format!(in alloc; "{:?}{}[{}]", text.kind(i), text.number(i), text.token(i))?;
    if let Some(entry) = text.tag(i) {
        out.push_str(print_delaf(alloc, entry)?.as_str())?;
    }
    Ok(out)
}

/// The tokens, and then their file.
fn listed(alloc: Global, text: &Text) -> Mem<String> {
    let mut out = String::new(alloc);
    for i in 0..text.len() {
        out.push_str(token_text(alloc, text, i)?.as_str())?;
    }
    out.push_str(print_tokens(alloc, text)?.as_str())?;
    Ok(out)
}

/// The same, of a text that is read.
fn told(alloc: Global, text: &str) -> Option<String> {
    let text = read(alloc, text)?;
    listed(alloc, &text).ok()
}

#[test]
fn reads_a_text_and_tells_its_tokens(rt: HostRuntime) {
    const ROWS: &[(&str, &str)] = &[(
        "I  {am,be.V+x:P1s}\t1{S}I",
        "Word0[I]Space1[ ]Tag2[{am,be.V+x:P1s}]am,be.V+x:P1sSpace1[ ]Other3[1]Sentence4[{S}]Word0[I]5\nI\n \n{am,be.V+x:P1s}\n1\n{S}\n",
    )];
    for (text, want) in ROWS {
        let got = told(rt.alloc(), text);
        compare(&rt, text, got.as_deref(), Some(*want));
    }
}
