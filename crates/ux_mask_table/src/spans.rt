//! Ends of spans, by the number of the mask that accepts the span.

ghost use Rattle.std.specs.Prelude.{◌≡◌, ℕ, ◌++◌, ◌<◌, ◌≤◌, ◌↔◌, [], Contains, OnOk, length, map, slice_index};
ghost use Rattle.std.specs.List.Sorted.{IsNonDecreasing, IsStrictlyIncreasing};
ghost use Rattle.ux_mask_table.specs.Spans.{HasEnd, IsOrdered};

use std::alloc::Global;
use ux_base::Mem;

/// A stretch of a list: from one place up to another.
#[derive(Clone, Copy)]
pub struct Stretch {
    /// The place of the first item.
    pub from: usize,
    /// The place after the last item.
    pub to: usize,
}

/// Ends of spans, and beside each the number of the mask that accepts the span. Those of one place
/// stand together, by number and then by end, so the ends of one mask there are a slice.
#[derive(Drop)]
pub struct Spans {
    /// The numbers of the masks.
    pub numbers: Vec<usize>,
    /// The positions after the spans.
    pub ends: Vec<usize>,
}

impl Spans {
    /// No spans. Takes no memory.
    pub fn new(alloc: Global) -> Spans
        ensures numbers { result.numbers.items ≡ [] }
        ensures ends { result.ends.items ≡ [] }
    {
        Spans {
            numbers: Vec::new(alloc),
            ends: Vec::new(alloc),
        }
    }

    /// Adds the ends of a mask's spans.
    pub fn push_all(&mut self, number: usize, ends: &[usize]) -> Mem<()>
        ensures numbers { OnOk result
            (self.new.numbers.items ≡ self.old.numbers.items ++ map (λ k. number) ends.now) }
        ensures ends { OnOk result (self.new.ends.items ≡ self.old.ends.items ++ ends.now) }
    {
        self.ends.extend_from_slice(ends)?;
        for _end in ends {
            self.numbers.push(number)?;
        }
        Ok(())
    }

    /// The ends in a row that have the number, ascending. They are looked up by halving.
    pub fn ends_of(&self, row: Stretch, number: usize) -> &[usize]
        requires { IsOrdered self.now row }
        ensures exactly { (k : ℕ) → Contains result.now k ↔ HasEnd self.now row number k }
        ensures ascending { IsStrictlyIncreasing result.now }
    {
        let from = row.from;
        let numbers = &self.numbers[from..row.to];
        let first = count_below(numbers, number);
        let last = count_up_to(numbers, number);
        &self.ends[from + first..from + last]
    }
}

/// How many of the numbers are below this one.
fn count_below(numbers: &[usize], number: usize) -> usize
    requires { IsNonDecreasing numbers.now }
    ensures within { result ≤ length numbers.now }
    ensures before { (k : ℕ) → k < result → slice_index numbers.now k < number }
    ensures after { (k : ℕ) → result ≤ k → k < length numbers.now →
        number ≤ slice_index numbers.now k }
{
    numbers.partition_point(|other| *other < number)
}

/// How many of the numbers aren't above this one.
fn count_up_to(numbers: &[usize], number: usize) -> usize
    requires { IsNonDecreasing numbers.now }
    ensures within { result ≤ length numbers.now }
    ensures before { (k : ℕ) → k < result → slice_index numbers.now k ≤ number }
    ensures after { (k : ℕ) → result ≤ k → k < length numbers.now →
        number < slice_index numbers.now k }
{
    numbers.partition_point(|other| *other <= number)
}
