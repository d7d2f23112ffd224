//! Automata of reading lists, and how they are read backwards.

ghost use Rattle.std.specs.Prelude.{◌≡◌, ◌↔◌, ◌+◌, IfOk, IsTrue};
ghost use Rattle.ux_subsets.specs.Paths.{reversed};
ghost use Rattle.ux_subsets.specs.Turning.{HasEnd};

use ux_base::{Mem, NoMemory};

/// A link of an automaton: a reading leads from a state to a greater one. Links are in order by the
/// states that they leave, then by their readings.
#[derive(Clone, Copy, PartialEq, Eq, PartialOrd, Ord, Debug)]
pub struct Link {
    pub from: u32,
    pub reading: u32,
    pub to: u32,
}

/// An automaton: its states are 0 to `last`.
#[derive(Drop)]
pub struct Automaton {
    pub last: usize,
    pub links: Vec<Link>,
}

/// The automaton read backwards. Takes no memory.
pub fn reversed_links(last: u32, mut links: Vec<Link>) -> Vec<Link>
    ensures { result.items ≡ reversed last links.items }
{
    turn_each(links.as_mut_slice(), last);
    links
}

/// Turns each link round.
fn turn_each(links: &mut [Link], last: u32)
    ensures { links.new ≡ reversed last links.old }
{
    for place in 0..links.len() {
        let link = links[place];
        links[place] = Link {
            from: last.saturating_sub(link.to),
            reading: link.reading,
            to: last.saturating_sub(link.from),
        };
    }
}

/// Whether the link leads to the state.
fn leads_to(link: &Link, state: u32) -> bool
    ensures { IsTrue result ↔ (link.now.to ≡ state) }
{
    link.to == state
}

/// Whether a link leads to the state.
pub(crate) fn has_end(links: &[Link], state: u32) -> bool
    ensures { IsTrue result ↔ HasEnd state links.now }
{
    links.iter().any(|link| leads_to(link, state))
}

/// The number in 32 bits. A greater one is want of memory.
pub(crate) fn narrowed(number: usize) -> Mem<u32>
    ensures { IfOk result (λ narrow. narrow ≡ number) }
{
    if number > u32::MAX as usize {
        return Err(NoMemory);
    }
    Ok(number as u32)
}

/// The number so far behind another. One of more than 32 bits is want of memory.
pub(crate) fn number_behind(number: u32, more: usize) -> Mem<u32>
    ensures { IfOk result (λ sum. sum ≡ number + more) }
{
    let Some(sum) = (number as usize).checked_add(more) else {
        return Err(NoMemory);
    };
    narrowed(sum)
}
