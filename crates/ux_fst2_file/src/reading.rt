//! Reading a compiled grammar, line by line: the first line, the graphs, and the tags as texts.

ghost use Rattle.std.specs.Prelude.{◌≡◌, ◌+◌, ◌⊎◌, ◌∷◌, ◌++◌, [], ℕ, List, IfOk, IfErr, length};
ghost use Rattle.ux_fst2_file.specs.Files.{AreTags, Says};
ghost use Rattle.ux_fst2_file.specs.Reading.{BeginSoMany, IsFirst, IsNextGraph, IsNextStates, StopsNextGraph, StopsAtLine};
ghost use Rattle.ux_fst2_file.specs.Refusals.{Refuses, StopGraphs, StopStates};
ghost use Rattle.ux_fst2_file.specs.declared.error.Fst2Error.TheVariants.{BadCount, NoMemory};

use crate::cursor::Cursor;
use crate::error::Fst2Error;
use crate::file::{Fst2File, Fst2Graph, Fst2State};
use crate::line::{is_end, read_count, read_head, read_state};
use crate::text::Fst2Text;
use indexmap::IndexSet;
use std::alloc::Global;
use ux_base::{Lst, Mem, Txt};

/// The states that a graph has at most.
const MOST_STATES: usize = 4_294_967_295;

/// What the text of a compiled grammar says, whatever its tags and labels are.
///
/// Takes time in the text, and no more memory than what was read needs, whatever the counts say.
pub fn read(alloc: Global, text: &str) -> Result<Fst2Text, Fst2Error>
    ensures ok { IfOk result (λ said. Says text.now said.file said.is_ended) }
    ensures err { IfErr result (λ error. (error ≡ NoMemory) ⊎ Refuses text.now error) }
{
    let mut cursor = Cursor::of(text);
    let count = read_first(&mut cursor)?;
    let graphs = read_graphs(alloc, count, &mut cursor)?;
    let (tags, is_ended) = read_tags(alloc, &mut cursor)?;
    Ok(Fst2Text {
        file: Fst2File {
            graphs: Lst::new(graphs),
            tags: Lst::new(tags),
        },
        is_ended,
    })
}

/// Reads the first line: how many graphs there are.
fn read_first(cursor: &mut Cursor<'_>) -> Result<u32, Fst2Error>
    ensures ok { IfOk result (λ count. IsFirst cursor.old.lines cursor.new.lines count
        × (cursor.new.number ≡ cursor.old.number + 1)) }
    ensures err { IfErr result (λ error. (error ≡ BadCount)
        × ((count : ℕ) (lines : List (List ℕ)) → IsFirst cursor.old.lines lines count → ⊥)) }
{
    let Some(line) = cursor.next_line() else {
        return Err(Fst2Error::BadCount);
    };
    read_count(line).ok_or(Fst2Error::BadCount)
}

/// Reads the states of a graph, and its `f`.
fn read_states(alloc: Global, cursor: &mut Cursor<'_>) -> Result<Vec<Fst2State>, Fst2Error>
    ensures ok { IfOk result (λ states. IsNextStates cursor.old cursor.new states.items) }
    ensures err { IfErr result (λ error. (error ≡ NoMemory)
        ⊎ StopsAtLine (StopStates 0 (cursor.old.number + 1) cursor.old.lines) error) }
{
    let mut states = Vec::new(alloc);
    while let Some(line) = cursor.next_line() {
        if is_end(line) {
            if states.is_empty() {
                return Err(Fst2Error::BadLine {
                    line: cursor.number,
                });
            }
            return Ok(states);
        }
        let Some(state) = read_state(alloc, line)? else {
            return Err(Fst2Error::BadLine {
                line: cursor.number,
            });
        };
        if states.len() >= MOST_STATES {
            return Err(Fst2Error::BadLine {
                line: cursor.number,
            });
        }
        states.push(state)?;
    }
    Err(Fst2Error::BadLine {
        line: cursor.number + 1,
    })
}

/// Reads the next graph, which has this number, and adds its name to those of the graphs before it.
fn read_graph(
    alloc: Global,
    number: u32,
    names: &mut IndexSet<Txt>,
    cursor: &mut Cursor<'_>,
) -> Result<Fst2Graph, Fst2Error>
    requires number { number ≡ length names.old.keys + 1 }
    ensures ok { IfOk result (λ graph.
        IsNextGraph names.old.keys cursor.old cursor.new graph
        × (names.new.keys ≡ names.old.keys ++ graph.name ∷ [])) }
    ensures err { IfErr result (λ error. (error ≡ NoMemory)
        ⊎ StopsAtLine
        (StopsNextGraph names.old.keys (cursor.old.number + 1) cursor.old.lines) error) }
{
    let Some(line) = cursor.next_line() else {
        return Err(Fst2Error::BadLine {
            line: cursor.number + 1,
        });
    };
    let Some(name) = read_head(line, number) else {
        return Err(Fst2Error::BadLine {
            line: cursor.number,
        });
    };
    let known = Txt::from_str(alloc, name)?;
    let name = Txt::from_str(alloc, name)?;
    if !names.insert(known)? {
        return Err(Fst2Error::BadLine {
            line: cursor.number,
        });
    }
    let states = read_states(alloc, cursor)?;
    Ok(Fst2Graph {
        name,
        states: Lst::new(states),
    })
}

/// Reads so many graphs.
fn read_graphs(
    alloc: Global,
    count: u32,
    cursor: &mut Cursor<'_>,
) -> Result<Vec<Fst2Graph>, Fst2Error>
    ensures ok { IfOk result (λ graphs. BeginSoMany count cursor.old cursor.new graphs.items) }
    ensures err { IfErr result (λ error. (error ≡ NoMemory)
        ⊎ StopsAtLine (StopGraphs count [] (cursor.old.number + 1) cursor.old.lines) error) }
{
    let mut names = IndexSet::new(alloc);
    let mut graphs = Vec::new(alloc);
    for index in 0..count {
        let graph = read_graph(alloc, index + 1, &mut names, cursor)?;
        graphs.push(graph)?;
    }
    Ok(graphs)
}

/// Reads the tags and the last `f`, and tells whether it is there.
fn read_tags(alloc: Global, cursor: &mut Cursor<'_>) -> Mem<(Vec<Txt>, bool)>
    ensures { IfOk result (λ (tags, is_ended). AreTags cursor.old.lines tags.items is_ended) }
{
    let mut tags = Vec::new(alloc);
    while let Some(line) = cursor.next_line() {
        if is_end(line) {
            return Ok((tags, true));
        }
        tags.push(Txt::from_str(alloc, line)?)?;
    }
    Ok((tags, false))
}
