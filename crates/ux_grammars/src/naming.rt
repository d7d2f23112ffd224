//! The names of graphs, and their files.

ghost use Rattle.std.specs.Prelude.{◌≡◌, IfOk, string_bytes};
ghost use Rattle.ux_grammars.specs.Naming.{callee_file as file_of_callee, file_of as file_of_graph, graph_file as file_of_graph_named, is_compiled as is_compiled_of, main_name as main_name_of, named_file as file_of_named, without_ending as without_ending_of};

use std::alloc::Global;
use ux_base::Mem;
use ux_plan::{base_of, folder_of};

/// Whether the word names the file of a compiled grammar.
pub(crate) fn is_compiled(word: &str) -> bool
    ensures { result ≡ is_compiled_of word.now }
{
    word.as_bytes().ends_with(b".fst2")
}

/// The name of the main graph, whose file the word names.
pub(crate) fn main_name(word: &str) -> &str
    ensures { result.now ≡ main_name_of word.now }
{
    without_ending(base_of(word))
}

/// The file of the graph that is read at this place: the word names the first.
pub(crate) fn file_of(alloc: Global, word: &str, place: usize, name: &str) -> Mem<String>
    ensures { IfOk result (λ file. string_bytes file ≡ file_of_graph word.now place name.now) }
{
    if place == 0 {
        return Ok(String::from_str(alloc, word)?);
    }
    callee_file(alloc, word, name)
}

/// The file of a graph by its name.
pub fn named_file(alloc: Global, word: &str, name: &str) -> Mem<String>
    ensures { IfOk result (λ file. string_bytes file ≡ file_of_named word.now name.now) }
{
    if name == main_name(word) {
        return Ok(String::from_str(alloc, word)?);
    }
    callee_file(alloc, word, name)
}

/// The file in which a graph of the grammar stands: a compiled grammar is one file.
pub fn graph_file(alloc: Global, word: &str, name: &str) -> Mem<String>
    ensures { IfOk result (λ file. string_bytes file ≡ file_of_graph_named word.now name.now) }
{
    if is_compiled(word) {
        return Ok(String::from_str(alloc, word)?);
    }
    named_file(alloc, word, name)
}

/// The file of a graph that is called: in the folder of the main graph's file.
pub fn callee_file(alloc: Global, word: &str, name: &str) -> Mem<String>
    ensures { IfOk result (λ file. string_bytes file ≡ file_of_callee word.now name.now) }
{
    let mut file = String::from_str(alloc, folder_of(word))?;
    file.push_str(name)?;
    file.push_str(".grf")?;
    Ok(file)
}

/// A name without `.grf` at its end.
fn without_ending(name: &str) -> &str
    ensures { result.now ≡ without_ending_of name.now }
{
    if name.as_bytes().ends_with(b".grf") {
        &name[..name.len() - 4]
    } else {
        name
    }
}
