//! The values of options that clap found.
//!
//! Contracts see `Options` by `values_with`: the value that each option has, which is empty for a
//! flag, and none of an option that isn't given.

ghost use Rattle.std.specs.Prelude.{◌≡◌, option_map, is_some};
ghost use Rattle.std.specs.List.{list_all};
ghost use Rattle.ux_base.specs.declared.settings.Mode.TheVariants.{Ignore};
ghost use Rattle.ux_base.specs.declared.settings.Policy.TheVariants.{All};
ghost use Rattle.ux_base.specs.declared.settings.Sort.TheVariants.{TO};
ghost use Rattle.ux_command_line.specs.declared.command.OptionName.TheVariants as option;
ghost use Rattle.ux_command_line.specs.Matching.{matched, first_value, is_right, is_set, values_in, values_with};
ghost use Rattle.ux_command_line.specs.Requests.{chosen};
ghost use Rattle.ux_command_line.specs.Tables.{ALL_OPTIONS, is_flag, mode_named, policy_named, sort_named, width_of, depth_of};

use crate::command::OptionName;
use crate::values::{depth, mode, policy, sort, width};
use clap::ArgMatches;
use ux_base::{Mode, Policy, Sort};

/// What the options are set to.
#[derive(Drop)]
pub struct Options<'a> {
    matches: ArgMatches<'a>,
}

impl<'a> Options<'a> {
    /// The options that are found, if each value is one of its option's.
    pub fn of(matches: ArgMatches<'a>) -> Option<Options<'a>>
        ensures { option_map values_with result ≡ values_in (matched matches.entry) }
    {
        if are_right(&matches) {
            Some(Options { matches })
        } else {
            None
        }
    }

    /// What becomes of outputs, which are left out by default.
    pub fn mode(&self) -> Mode
        ensures { result ≡ chosen mode_named Ignore (values_with self.now option.Mode) }
    {
        match value_in(&self.matches, OptionName::Mode) {
            Some(value) => mode(value).unwrap_or(Mode::Ignore),
            None => Mode::Ignore,
        }
    }

    /// Which hits are kept, by default all.
    pub fn policy(&self) -> Policy
        ensures { result ≡ chosen policy_named All (values_with self.now option.Policy) }
    {
        match value_in(&self.matches, OptionName::Policy) {
            Some(value) => policy(value).unwrap_or(Policy::All),
            None => Policy::All,
        }
    }

    /// The order of a concordance, by default that of the text.
    pub fn sort(&self) -> Sort
        ensures { result ≡ chosen sort_named TO (values_with self.now option.Sort) }
    {
        match value_in(&self.matches, OptionName::Sort) {
            Some(value) => sort(value).unwrap_or(Sort::TO),
            None => Sort::TO,
        }
    }

    /// The characters before a hit, by default 40.
    pub fn left(&self) -> u32
        ensures { result ≡ chosen width_of 40 (values_with self.now option.Left) }
    {
        match value_in(&self.matches, OptionName::Left) {
            Some(value) => width(value).unwrap_or(WIDTH),
            None => WIDTH,
        }
    }

    /// The characters after a hit, by default 40.
    pub fn right(&self) -> u32
        ensures { result ≡ chosen width_of 40 (values_with self.now option.Right) }
    {
        match value_in(&self.matches, OptionName::Right) {
            Some(value) => width(value).unwrap_or(WIDTH),
            None => WIDTH,
        }
    }

    /// How deep calls are written out, by default 10.
    pub fn depth(&self) -> u32
        ensures { result ≡ chosen depth_of 10 (values_with self.now option.Depth) }
    {
        match value_in(&self.matches, OptionName::Depth) {
            Some(value) => depth(value).unwrap_or(DEPTH),
            None => DEPTH,
        }
    }

    /// Whether an output without its variable drops the hit.
    pub fn novar(&self) -> bool
        ensures { result ≡ is_some (values_with self.now option.NoVar) }
    {
        is_given(&self.matches, OptionName::NoVar)
    }

    /// Whether each letter is a token of its own.
    pub fn chars(&self) -> bool
        ensures { result ≡ is_some (values_with self.now option.Chars) }
    {
        is_given(&self.matches, OptionName::Chars)
    }

    /// Whether a dictionary is one of stems.
    pub fn delas(&self) -> bool
        ensures { result ≡ is_some (values_with self.now option.Delas) }
    {
        is_given(&self.matches, OptionName::Delas)
    }

    /// Whether each round of a cascade is told.
    pub fn trace(&self) -> bool
        ensures { result ≡ is_some (values_with self.now option.Trace) }
    {
        is_given(&self.matches, OptionName::Trace)
    }
}

/// The characters beside a hit of a concordance where no option says otherwise.
const WIDTH: u32 = 40;

/// How deep calls are written out where no option says otherwise.
const DEPTH: u32 = 10;

fn are_right(matches: &ArgMatches<'_>) -> bool
    ensures { result ≡ list_all (is_right (matched matches.now)) ALL_OPTIONS }
{
    OptionName::all()
        .iter()
        .all(|option| has_right_value(matches, *option))
}

/// Whether the option is a flag, isn't given, or has a value of its own.
fn has_right_value(matches: &ArgMatches<'_>, option: OptionName) -> bool
    ensures { result ≡ is_right (matched matches.now) option }
{
    if option.is_flag() {
        return true;
    }
    match value_in(matches, option) {
        Some(value) => option.takes().accepts(value),
        None => true,
    }
}

/// Whether clap found `true`, as it does for a flag that is given.
fn is_given(matches: &ArgMatches<'_>, option: OptionName) -> bool
    ensures { result ≡ is_set (first_value option (matched matches.now)) }
{
    match value_in(matches, option) {
        Some(value) => value == "true",
        None => false,
    }
}

/// The value that was found first for an option.
fn value_in<'a>(matches: &ArgMatches<'a>, option: OptionName) -> Option<&'a str>
    ensures { option_map (λ value. value.now) result ≡ first_value option (matched matches.now) }
{
    matches.get_str(option.name())
}
