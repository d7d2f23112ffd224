//! The priorities of dictionaries, and how a file's name gives one.
//!
//! Where a dictionary of a higher priority has entries for a span, those of lower priorities aren't
//! asked for it.

ghost use Rattle.std.specs.Prelude.{◌≡◌, MatchOption, Contains};
ghost use Rattle.ux_apply.specs.Applying.{is_same};
ghost use Rattle.ux_apply.specs.Names.{Gives, IsLastDot, IsPriorityOf, IsStem, DOT};

/// The priority of a dictionary.
#[derive(Clone, Copy)]
pub enum Priority {
    /// Asked first.
    High,
    /// Asked where no dictionary of high priority has an entry.
    Normal,
    /// Asked where no other dictionary has an entry.
    Low,
}

impl Priority {
    /// The priority of the dictionary in a file of this name: high where the name without its
    /// extension ends in a hyphen, low where it ends in a plus sign. Takes no memory.
    pub fn of(name: &str) -> Priority
        ensures { IsPriorityOf name.now result }
    {
        ending(stem(name))
    }

    /// Whether both are the same.
    pub(crate) fn is(self, other: Priority) -> bool
        ensures { result ≡ is_same self other }
    {
        self == other
    }
}

/// The priority of a name that ends so.
fn ending(stem: &[u8]) -> Priority
    ensures { Gives stem.now result }
{
    match stem.last() {
        Some(b'-') => Priority::High,
        Some(b'+') => Priority::Low,
        _ => Priority::Normal,
    }
}

/// The name without its extension.
fn stem(name: &str) -> &[u8]
    ensures { IsStem name.now result.now }
{
    match last_dot(name) {
        Some(place) => &name.as_bytes()[..place],
        None => name.as_bytes(),
    }
}

/// The place of the last dot.
fn last_dot(name: &str) -> Option<usize>
    ensures { MatchOption result (Contains name.now DOT → ⊥) (IsLastDot name.now) }
{
    name.rfind('.')
}
