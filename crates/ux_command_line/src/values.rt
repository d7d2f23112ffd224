//! The values that options take.

ghost use Rattle.std.specs.Prelude.{◌≡◌};
ghost use Rattle.ux_command_line.specs.Tables.{mode_named, policy_named, sort_named, width_of, depth_of};

use crate::number::number;
use ux_base::{Mode, Policy, Sort};

/// The value of `--mode`.
pub fn mode(value: &str) -> Option<Mode>
    ensures { result ≡ mode_named value.now }
{
    match value {
        "ignore" => Some(Mode::Ignore),
        "merge" => Some(Mode::Merge),
        "replace" => Some(Mode::Replace),
        _ => None,
    }
}

/// The value of `--policy`.
pub fn policy(value: &str) -> Option<Policy>
    ensures { result ≡ policy_named value.now }
{
    match value {
        "shortest" => Some(Policy::Shortest),
        "longest" => Some(Policy::Longest),
        "all" => Some(Policy::All),
        _ => None,
    }
}

/// The value of `--sort`.
pub fn sort(value: &str) -> Option<Sort>
    ensures { result ≡ sort_named value.now }
{
    match value {
        "TO" => Some(Sort::TO),
        "LC" => Some(Sort::LC),
        "LR" => Some(Sort::LR),
        "CL" => Some(Sort::CL),
        "CR" => Some(Sort::CR),
        "RL" => Some(Sort::RL),
        "RC" => Some(Sort::RC),
        _ => None,
    }
}

/// The number of characters beside a hit, the value of `--left` and of `--right`.
pub fn width(value: &str) -> Option<u32>
    ensures { result ≡ width_of value.now }
{
    number(value, 4, 0, 1000)
}

/// How deep calls are written out, the value of `--depth`.
pub fn depth(value: &str) -> Option<u32>
    ensures { result ≡ depth_of value.now }
{
    number(value, 3, 0, 100)
}
