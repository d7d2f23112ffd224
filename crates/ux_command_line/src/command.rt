//! The commands, by their words, and the options that each takes.

ghost use Rattle.std.specs.Prelude.{◌≡◌};
ghost use Rattle.ux_command_line.specs.Tables.{command_named, options_of, name_of, takes_of, is_flag, is_nothing, accepts, ALL_OPTIONS};

use crate::values::{depth, mode, policy, sort, width};

/// What the program is asked to do.
#[derive(Clone, Copy)]
pub enum Command {
    /// Lists the places where a graph is found.
    Locate,
    /// Lists them with what stands around them.
    Concord,
    /// Cuts a text into tokens.
    Tokenize,
    /// Counts the entries of a dictionary.
    Check,
    /// Applies dictionaries to a text.
    Dico,
    /// Compiles a graph.
    Fst2,
    /// Inflects the stems of a dictionary.
    Inflect,
    /// Packs a dictionary.
    Compress,
    /// Makes the automata of a text's sentences.
    Tfst,
    /// Thins such automata by rules.
    Elag,
    /// Searches a text that is made up.
    Bench,
    /// Rewrites a text by one graph after the other.
    Cascade,
    /// Compiles a graph with its calls written out.
    Flatten,
    /// Searches the automata of a text's sentences.
    Tfind,
    /// Searches inside the words of a text.
    Morpho,
}

/// An option, by its name.
#[derive(Clone, Copy)]
pub enum OptionName {
    /// `--mode`: what becomes of outputs.
    Mode,
    /// `--policy`: which hits are kept.
    Policy,
    /// `--novar`, a flag: an output without its variable drops the hit.
    NoVar,
    /// `--chars`, a flag: each letter is a token of its own.
    Chars,
    /// `--left`: the characters before a hit.
    Left,
    /// `--right`: the characters after a hit.
    Right,
    /// `--sort`: the order of a concordance.
    Sort,
    /// `--delas`, a flag: the dictionary is one of stems.
    Delas,
    /// `--trace`, a flag: each round of a cascade is told.
    Trace,
    /// `--depth`: how deep calls are written out.
    Depth,
}

/// Which values an option takes.
#[derive(Clone, Copy)]
pub enum Takes {
    /// None: it is a flag.
    Nothing,
    /// What becomes of outputs.
    Mode,
    /// Which hits are kept.
    Policy,
    /// A number of characters beside a hit.
    Width,
    /// The order of a concordance.
    Sort,
    /// How deep calls are written out.
    Depth,
}

impl Command {
    /// The command that the word names.
    pub fn named(word: &str) -> Option<Command>
        ensures { result ≡ command_named word.now }
    {
        match word {
            "locate" => Some(Command::Locate),
            "concord" => Some(Command::Concord),
            "tokenize" => Some(Command::Tokenize),
            "check" => Some(Command::Check),
            "dico" => Some(Command::Dico),
            "fst2" => Some(Command::Fst2),
            "inflect" => Some(Command::Inflect),
            "compress" => Some(Command::Compress),
            "txt2tfst" => Some(Command::Tfst),
            "elag" => Some(Command::Elag),
            "bench" => Some(Command::Bench),
            "cascade" => Some(Command::Cascade),
            "flatten" => Some(Command::Flatten),
            "tfind" => Some(Command::Tfind),
            "morpho" => Some(Command::Morpho),
            _ => None,
        }
    }

    /// The options that the command takes.
    pub fn options(self) -> &'static [OptionName]
        ensures { result.now ≡ options_of self }
    {
        match self {
            Command::Locate => LOCATE_OPTIONS.as_slice(),
            Command::Concord => CONCORD_OPTIONS.as_slice(),
            Command::Tokenize | Command::Dico | Command::Fst2 | Command::Tfst => {
                TOKENS_OPTIONS.as_slice()
            }
            Command::Check => CHECK_OPTIONS.as_slice(),
            Command::Cascade => CASCADE_OPTIONS.as_slice(),
            Command::Flatten => FLATTEN_OPTIONS.as_slice(),
            Command::Inflect
            | Command::Compress
            | Command::Elag
            | Command::Bench
            | Command::Tfind
            | Command::Morpho => &[],
        }
    }
}

static LOCATE_OPTIONS: [OptionName; 4] = [
    OptionName::Mode,
    OptionName::Policy,
    OptionName::NoVar,
    OptionName::Chars,
];

static CONCORD_OPTIONS: [OptionName; 7] = [
    OptionName::Left,
    OptionName::Right,
    OptionName::Sort,
    OptionName::Mode,
    OptionName::Policy,
    OptionName::NoVar,
    OptionName::Chars,
];

static TOKENS_OPTIONS: [OptionName; 1] = [OptionName::Chars];

static CHECK_OPTIONS: [OptionName; 1] = [OptionName::Delas];

static CASCADE_OPTIONS: [OptionName; 1] = [OptionName::Trace];

static FLATTEN_OPTIONS: [OptionName; 1] = [OptionName::Depth];

static ALL_OPTIONS: [OptionName; 10] = [
    OptionName::Mode,
    OptionName::Policy,
    OptionName::NoVar,
    OptionName::Chars,
    OptionName::Left,
    OptionName::Right,
    OptionName::Sort,
    OptionName::Delas,
    OptionName::Trace,
    OptionName::Depth,
];

impl OptionName {
    /// Every option of every command.
    pub fn all() -> &'static [OptionName]
        ensures { result.now ≡ ALL_OPTIONS }
    {
        ALL_OPTIONS.as_slice()
    }

    /// The option's name, without the hyphens before it.
    pub fn name<'a>(self) -> &'a str
        ensures { result.now ≡ name_of self }
    {
        self.row().0
    }

    /// Which values the option takes.
    pub fn takes(self) -> Takes
        ensures { result ≡ takes_of self }
    {
        self.row().1
    }

    /// The table of options: the name, and which values the option takes.
    fn row<'a>(self) -> (&'a str, Takes)
        ensures name { result.0.now ≡ name_of self }
        ensures takes { result.1 ≡ takes_of self }
    {
        match self {
            OptionName::Mode => ("mode", Takes::Mode),
            OptionName::Policy => ("policy", Takes::Policy),
            OptionName::NoVar => ("novar", Takes::Nothing),
            OptionName::Chars => ("chars", Takes::Nothing),
            OptionName::Left => ("left", Takes::Width),
            OptionName::Right => ("right", Takes::Width),
            OptionName::Sort => ("sort", Takes::Sort),
            OptionName::Delas => ("delas", Takes::Nothing),
            OptionName::Trace => ("trace", Takes::Nothing),
            OptionName::Depth => ("depth", Takes::Depth),
        }
    }

    /// Whether the option is a flag, which takes no value.
    pub fn is_flag(self) -> bool
        ensures { result ≡ is_flag self }
    {
        self.takes().is_nothing()
    }
}

impl Takes {
    /// Whether no value is taken.
    fn is_nothing(self) -> bool
        ensures { result ≡ is_nothing self }
    {
        match self {
            Takes::Nothing => true,
            Takes::Mode | Takes::Policy | Takes::Width | Takes::Sort | Takes::Depth => false,
        }
    }

    /// Whether this is one of the values.
    pub fn accepts(self, value: &str) -> bool
        ensures { result ≡ accepts self value.now }
    {
        match self {
            Takes::Nothing => false,
            Takes::Mode => mode(value).is_some(),
            Takes::Policy => policy(value).is_some(),
            Takes::Width => width(value).is_some(),
            Takes::Sort => sort(value).is_some(),
            Takes::Depth => depth(value).is_some(),
        }
    }
}
