//! The fields of an image, each put behind the bytes so far. What has a number that 32 bits don't
//! hold is not put.

ghost use Rattle.std.specs.Prelude.{◌≡◌, ◌++◌, ◌<◌, ◌^◌, OnOk, length};
ghost use Rattle.ux_image.specs.Layout.{number_bytes, text_bytes, counted, edge_bytes, pair_bytes, code_bytes, list_bytes, AllFit, EdgeFits, PairFits, CodeFits, ListFits};

use crate::code::{Code, CodeList, Pair};
use crate::listing::number_of;
use ux_base::Mem;
use ux_dawg::Edge;

/// Puts the number, its lowest byte first.
pub(crate) fn put_number(bytes: &mut Vec<u8>, number: u32) -> Mem<()>
    ensures bytes { OnOk result (bytes.new.items ≡ bytes.old.items ++ number_bytes number) }
    ensures fits { OnOk result (number < 2 ^ 32) }
{
    bytes.extend_from_slice(&number.to_le_bytes())?;
    Ok(())
}

/// Puts how many there are.
pub(crate) fn put_count(bytes: &mut Vec<u8>, count: usize) -> Mem<()>
    ensures bytes { OnOk result (bytes.new.items ≡ bytes.old.items ++ number_bytes count) }
    ensures fits { OnOk result (count < 2 ^ 32) }
{
    put_number(bytes, number_of(count)?)
}

/// Puts the edges of a state.
pub(crate) fn put_edges(bytes: &mut Vec<u8>, edges: &[Edge]) -> Mem<()>
    ensures bytes { OnOk result (bytes.new.items
        ≡ bytes.old.items ++ counted edge_bytes edges.now) }
    ensures fits { OnOk result (AllFit EdgeFits edges.now) }
{
    put_count(bytes, edges.len())?;
    for edge in edges {
        put_edge(bytes, edge)?;
    }
    Ok(())
}

fn put_edge(bytes: &mut Vec<u8>, edge: &Edge) -> Mem<()>
    ensures bytes { OnOk result (bytes.new.items ≡ bytes.old.items ++ edge_bytes edge.now) }
    ensures fits { OnOk result (EdgeFits edge.now) }
{
    put_number(bytes, u32::from(edge.letter))?;
    put_number(bytes, edge.target)
}

/// Puts a list of codes.
pub(crate) fn put_list(bytes: &mut Vec<u8>, list: &CodeList) -> Mem<()>
    ensures bytes { OnOk result (bytes.new.items ≡ bytes.old.items ++ list_bytes list.now) }
    ensures fits { OnOk result (ListFits list.now) }
{
    put_codes(bytes, list.codes.as_slice())
}

fn put_codes(bytes: &mut Vec<u8>, codes: &[Code]) -> Mem<()>
    ensures bytes { OnOk result (bytes.new.items
        ≡ bytes.old.items ++ counted code_bytes codes.now) }
    ensures fits { OnOk result (AllFit CodeFits codes.now) }
{
    put_count(bytes, codes.len())?;
    for code in codes {
        put_code(bytes, code)?;
    }
    Ok(())
}

fn put_code(bytes: &mut Vec<u8>, code: &Code) -> Mem<()>
    ensures bytes { OnOk result (bytes.new.items ≡ bytes.old.items ++ code_bytes code.now) }
    ensures fits { OnOk result (CodeFits code.now) }
{
    put_pairs(bytes, code.pairs.as_slice())?;
    put_text(bytes, code.codes.as_str())
}

fn put_pairs(bytes: &mut Vec<u8>, pairs: &[Pair]) -> Mem<()>
    ensures bytes { OnOk result (bytes.new.items
        ≡ bytes.old.items ++ counted pair_bytes pairs.now) }
    ensures fits { OnOk result (AllFit PairFits pairs.now) }
{
    put_count(bytes, pairs.len())?;
    for pair in pairs {
        put_pair(bytes, pair)?;
    }
    Ok(())
}

fn put_pair(bytes: &mut Vec<u8>, pair: &Pair) -> Mem<()>
    ensures bytes { OnOk result (bytes.new.items ≡ bytes.old.items ++ pair_bytes pair.now) }
    ensures fits { OnOk result (PairFits pair.now) }
{
    put_number(bytes, pair.taken)?;
    put_text(bytes, pair.added.as_str())
}

/// Puts a text, its length in bytes first.
fn put_text(bytes: &mut Vec<u8>, text: &str) -> Mem<()>
    ensures bytes { OnOk result (bytes.new.items ≡ bytes.old.items ++ text_bytes text.now) }
    ensures fits { OnOk result (length text.now < 2 ^ 32) }
{
    put_count(bytes, text.len())?;
    bytes.extend_from_slice(text.as_bytes())?;
    Ok(())
}
