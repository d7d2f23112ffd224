//! Why a file is refused.

use ux_alphabet::AlphabetError;
use ux_boxes::NetError;
use ux_decode::DecodeError;
use ux_dela::DelaError;
use ux_flatten::FlattenError;
use ux_fst2::Fst2Error;
use ux_grf::GrfError;
use ux_image_reader::ImageError;
use ux_inflect::InflectError;
use ux_marks::MorphError;
use ux_plan::OfDecode;
use ux_reading_match::TfstError;
use ux_rules::RuleError;
use ux_sentence::SentenceError;

/// Why a file is refused.
#[derive(Drop)]
pub enum Reason {
    /// Why the file has no text.
    Decode(DecodeError),
    /// The alphabet's own reason.
    Alphabet(AlphabetError),
    /// The graph's own reason.
    Grf(GrfError),
    /// The grammar's own reason.
    Net(NetError),
    /// The reason of a file of a compiled grammar.
    Fst2(Fst2Error),
    /// The dictionary's own reason.
    Dela(DelaError),
    /// The image's own reason.
    Image(ImageError),
    /// The sentence automata's own reason.
    Sentence(SentenceError),
    /// The reason of a graph that is no rule.
    Rule(RuleError),
    /// The reason of a stem that isn't inflected.
    Inflect(InflectError),
    /// The reason of a grammar that isn't flattened.
    Flatten(FlattenError),
    /// The reason of a grammar of the morphological mode.
    Morph(MorphError),
    /// The reason of a grammar that isn't sought in sentence automata.
    Tfst(TfstError),
    /// The grammar has 65,535 graphs before this one.
    TooManyGraphs,
}

impl OfDecode for Reason {
    ghost use Rattle.ux_reasons.specs.declared.reason.Reason.TheVariants as reason;

    ghost decode_as = { reason.Decode };

    fn of_decode(error: DecodeError) -> Reason {
        Reason::Decode(error)
    }
}
