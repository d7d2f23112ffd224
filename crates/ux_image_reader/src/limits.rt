//! What a state of a file is tested against.

ghost use Rattle.std.specs.Prelude.{◌↔◌, ◌≡◌, ◌+◌, ◌<◌, ◌^◌, IsTrue, max};
ghost use Rattle.ux_image_reader.specs.Tests.{IsAlive, IsList};

/// What a state is tested against.
#[derive(Clone, Copy)]
pub struct Limits {
    /// How many states the file tells.
    pub count: u32,
    /// How many lists of codes the file tells.
    pub lists: u32,
    /// The number of the state.
    pub number: u32,
    /// How many lists the states before it use.
    pub used: u32,
}

/// Whether the state may have this list, of which 0 means none.
pub(crate) fn is_list(limits: Limits, list: u32) -> bool
    ensures { IsTrue result ↔ IsList limits list }
{
    // No sum, since it may be too large.
    list <= limits.lists && (list == 0 || list - 1 <= limits.used)
}

/// Whether the state may have so many edges with this list.
pub(crate) fn is_alive(limits: Limits, list: u32, many: u32) -> bool
    ensures { IsTrue result ↔ IsAlive limits list many }
{
    list != 0 || many != 0 || limits.count == 1
}
