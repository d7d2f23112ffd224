//! The line on standard error that tells why a file is refused. It is written in pieces, without memory.
//!
//! Some errors of readers never reach a run: out of memory has a status of its own, and each graph that
//! is called was read before. The readers' types have them, so they have a line here.

ghost use Rattle.std.specs.Prelude.{◌≤◌, ◌∷◌, [], OnOk, OnErr, codes, map};
ghost use Rattle.std.specs.Fmt.{decimal};
ghost use Rattle.ux_base.specs.Outside.{Rose, Appended, AppendedFront};
ghost use Rattle.ux_reasons.specs.Reasons.{joined, refusal, reason_of, at_node, bad_mask, decode_reason, alphabet_reason, fst2_reason, grf_reason, net_reason, at_place, dela_reason, image_reason, sentence_reason, rule_reason, inflect_reason, flatten_reason, morph_reason, tfst_reason};

use crate::reason::Reason;
use itoa::Buffer;
use ux_alphabet::AlphabetError;
use ux_base::{Sink, SinkError, Txt};
use ux_boxes::NetError;
use ux_decode::DecodeError;
use ux_dela::DelaError;
use ux_flatten::FlattenError;
use ux_fst2::Fst2Error;
use ux_grf::GrfError;
use ux_image_reader::ImageError;
use ux_inflect::InflectError;
use ux_marks::MorphError;
use ux_reading_match::TfstError;
use ux_rules::RuleError;
use ux_sentence::SentenceError;

/// Writes texts, one after the other.
pub fn say<E: Sink>(err: &mut E, texts: &[&str]) -> Result<(), SinkError>
    ensures later { E.faults err.old ≤ E.faults err.new }
    ensures cause { OnErr result (Rose (E.faults err.old) (E.faults err.new)) }
    ensures line { OnOk result (Appended (E.written err.old) (E.written err.new)
        (joined (map (λ text. text.now) texts.now))) }
    ensures front { OnErr result (AppendedFront (E.written err.old) (E.written err.new)
        (joined (map (λ text. text.now) texts.now))) }
{
    for text in texts {
        err.write_all(text.as_bytes())?;
    }
    Ok(())
}

/// Writes the line of a file that is refused.
pub fn say_refusal<E: Sink>(err: &mut E, file: &str, reason: &Reason) -> Result<(), SinkError>
    ensures later { E.faults err.old ≤ E.faults err.new }
    ensures cause { OnErr result (Rose (E.faults err.old) (E.faults err.new)) }
    ensures line { OnOk result (Appended (E.written err.old) (E.written err.new)
        (refusal file.now (reason_of reason.now))) }
    ensures front { OnErr result (AppendedFront (E.written err.old) (E.written err.new)
        (refusal file.now (reason_of reason.now))) }
{
    match reason {
        Reason::Decode(error) => say_decode_error(err, file, error),
        Reason::Alphabet(error) => say_alphabet_error(err, file, error),
        Reason::Grf(error) => say_grf_error(err, file, error),
        Reason::Net(error) => say_net_error(err, file, error),
        Reason::Dela(error) => say_dela_error(err, file, error),
        Reason::Image(error) => say_image_error(err, file, error),
        Reason::Fst2(error) => say_fst2_error(err, file, error),
        Reason::Sentence(error) => say_sentence_error(err, file, error),
        Reason::Rule(error) => say_rule_error(err, file, error),
        Reason::Inflect(error) => say_inflect_error(err, file, error),
        Reason::Flatten(error) => say_flatten_error(err, file, error),
        Reason::Morph(error) => say_morph_error(err, file, error),
        Reason::Tfst(error) => say_tfst_error(err, file, error),
        Reason::TooManyGraphs => say_name(err, file, "TooManyGraphs"),
    }
}

/// Writes the line of a file that is refused by a name alone.
fn say_name<E: Sink>(err: &mut E, file: &str, name: &str) -> Result<(), SinkError>
    ensures later { E.faults err.old ≤ E.faults err.new }
    ensures cause { OnErr result (Rose (E.faults err.old) (E.faults err.new)) }
    ensures line { OnOk result (Appended (E.written err.old) (E.written err.new)
        (refusal file.now (name.now ∷ []))) }
    ensures front { OnErr result (AppendedFront (E.written err.old) (E.written err.new)
        (refusal file.now (name.now ∷ []))) }
{
    say(err, &["refused: ", file, ": ", name, "\n"])
}

/// Writes the line of a file that is refused with a text, as in `MissingGraph name=np`.
fn say_text<E: Sink>(err: &mut E, file: &str, what: &str, text: &str) -> Result<(), SinkError>
    ensures later { E.faults err.old ≤ E.faults err.new }
    ensures cause { OnErr result (Rose (E.faults err.old) (E.faults err.new)) }
    ensures line { OnOk result (Appended (E.written err.old) (E.written err.new)
        (refusal file.now (what.now ∷ text.now ∷ []))) }
    ensures front { OnErr result (AppendedFront (E.written err.old) (E.written err.new)
        (refusal file.now (what.now ∷ text.now ∷ []))) }
{
    say(err, &["refused: ", file, ": ", what, text, "\n"])
}

/// Writes the same by a text that is owned.
fn say_named<E: Sink>(err: &mut E, file: &str, what: &str, text: &Txt) -> Result<(), SinkError>
    ensures later { E.faults err.old ≤ E.faults err.new }
    ensures cause { OnErr result (Rose (E.faults err.old) (E.faults err.new)) }
    ensures line { OnOk result (Appended (E.written err.old) (E.written err.new)
        (refusal file.now (what.now ∷ text.now ∷ []))) }
    ensures front { OnErr result (AppendedFront (E.written err.old) (E.written err.new)
        (refusal file.now (what.now ∷ text.now ∷ []))) }
{
    say_text(err, file, what, text.as_str())
}

/// Writes the line of a file that is refused with a number, as in `BadLine line=3`.
fn say_number<E: Sink>(err: &mut E, file: &str, what: &str, number: usize) -> Result<(), SinkError>
    ensures later { E.faults err.old ≤ E.faults err.new }
    ensures cause { OnErr result (Rose (E.faults err.old) (E.faults err.new)) }
    ensures line { OnOk result (Appended (E.written err.old) (E.written err.new)
        (refusal file.now (what.now ∷ decimal number ∷ []))) }
    ensures front { OnErr result (AppendedFront (E.written err.old) (E.written err.new)
        (refusal file.now (what.now ∷ decimal number ∷ []))) }
{
    let mut buffer = Buffer::new();
    say_text(err, file, what, buffer.format(number))
}

/// Writes the line of a file that is refused at a place, as in `NoComma line=3 place=8`.
fn say_place<E: Sink>(
    err: &mut E,
    file: &str,
    what: &str,
    number: usize,
    place: usize,
) -> Result<(), SinkError>
    ensures later { E.faults err.old ≤ E.faults err.new }
    ensures cause { OnErr result (Rose (E.faults err.old) (E.faults err.new)) }
    ensures line { OnOk result (Appended (E.written err.old) (E.written err.new)
        (refusal file.now (at_place what.now number place))) }
    ensures front { OnErr result (AppendedFront (E.written err.old) (E.written err.new)
        (refusal file.now (at_place what.now number place))) }
{
    let mut first = Buffer::new();
    let mut second = Buffer::new();
    let number = first.format(number);
    let place = second.format(place);
    say(
        err,
        &[
            "refused: ",
            file,
            ": ",
            what,
            number,
            " place=",
            place,
            "\n",
        ],
    )
}

/// Writes the line of a grammar that calls a graph which isn't there.
fn say_missing<E: Sink>(err: &mut E, file: &str, name: &Txt) -> Result<(), SinkError>
    ensures later { E.faults err.old ≤ E.faults err.new }
    ensures cause { OnErr result (Rose (E.faults err.old) (E.faults err.new)) }
    ensures line { OnOk result (Appended (E.written err.old) (E.written err.new)
        (refusal file.now (codes "MissingGraph name=" ∷ name.now ∷ []))) }
    ensures front { OnErr result (AppendedFront (E.written err.old) (E.written err.new)
        (refusal file.now (codes "MissingGraph name=" ∷ name.now ∷ []))) }
{
    say_text(err, file, "MissingGraph name=", name.as_str())
}

/// Writes the line of a grammar with a context that may not follow and uses what has it.
fn say_recursion<E: Sink>(err: &mut E, file: &str, graph: &Txt) -> Result<(), SinkError>
    ensures later { E.faults err.old ≤ E.faults err.new }
    ensures cause { OnErr result (Rose (E.faults err.old) (E.faults err.new)) }
    ensures line { OnOk result (Appended (E.written err.old) (E.written err.new)
        (refusal file.now (codes "NegativeRecursion graph=" ∷ graph.now ∷ []))) }
    ensures front { OnErr result (AppendedFront (E.written err.old) (E.written err.new)
        (refusal file.now (codes "NegativeRecursion graph=" ∷ graph.now ∷ []))) }
{
    say_text(err, file, "NegativeRecursion graph=", graph.as_str())
}

/// Writes the line of a grammar that is refused at a node of a graph.
fn say_node<E: Sink>(
    err: &mut E,
    file: &str,
    what: &str,
    graph: &Txt,
    node: u32,
) -> Result<(), SinkError>
    ensures later { E.faults err.old ≤ E.faults err.new }
    ensures cause { OnErr result (Rose (E.faults err.old) (E.faults err.new)) }
    ensures line { OnOk result (Appended (E.written err.old) (E.written err.new)
        (refusal file.now (at_node what.now graph.now node))) }
    ensures front { OnErr result (AppendedFront (E.written err.old) (E.written err.new)
        (refusal file.now (at_node what.now graph.now node))) }
{
    let mut buffer = Buffer::new();
    say_at(err, file, what, graph.as_str(), buffer.format(node))
}

/// Writes the same by the node's digits.
fn say_at<E: Sink>(
    err: &mut E,
    file: &str,
    what: &str,
    graph: &str,
    node: &str,
) -> Result<(), SinkError>
    ensures later { E.faults err.old ≤ E.faults err.new }
    ensures cause { OnErr result (Rose (E.faults err.old) (E.faults err.new)) }
    ensures line { OnOk result (Appended (E.written err.old) (E.written err.new)
        (refusal file.now (what.now ∷ graph.now ∷ codes " node=" ∷ node.now ∷ []))) }
    ensures front { OnErr result (AppendedFront (E.written err.old) (E.written err.new)
        (refusal file.now (what.now ∷ graph.now ∷ codes " node=" ∷ node.now ∷ []))) }
{
    say(
        err,
        &["refused: ", file, ": ", what, graph, " node=", node, "\n"],
    )
}

/// Writes the line of a grammar with a bad mask text, as in `BadMask graph=np node=2 place=2`.
fn say_bad_mask<E: Sink>(
    err: &mut E,
    file: &str,
    graph: &Txt,
    node: u32,
    place: usize,
) -> Result<(), SinkError>
    ensures later { E.faults err.old ≤ E.faults err.new }
    ensures cause { OnErr result (Rose (E.faults err.old) (E.faults err.new)) }
    ensures line { OnOk result (Appended (E.written err.old) (E.written err.new)
        (refusal file.now (bad_mask graph.now node place))) }
    ensures front { OnErr result (AppendedFront (E.written err.old) (E.written err.new)
        (refusal file.now (bad_mask graph.now node place))) }
{
    let mut first = Buffer::new();
    let mut second = Buffer::new();
    let node = first.format(node);
    let place = second.format(place);
    say_bad_mask_at(err, file, graph.as_str(), node, place)
}

/// Writes the same by the digits of the node and the place.
fn say_bad_mask_at<E: Sink>(
    err: &mut E,
    file: &str,
    graph: &str,
    node: &str,
    place: &str,
) -> Result<(), SinkError>
    ensures later { E.faults err.old ≤ E.faults err.new }
    ensures cause { OnErr result (Rose (E.faults err.old) (E.faults err.new)) }
    ensures line { OnOk result (Appended (E.written err.old) (E.written err.new)
        (refusal file.now (codes "BadMask graph=" ∷ graph.now ∷ codes " node=" ∷ node.now
        ∷ codes " place=" ∷ place.now ∷ []))) }
    ensures front { OnErr result (AppendedFront (E.written err.old) (E.written err.new)
        (refusal file.now (codes "BadMask graph=" ∷ graph.now ∷ codes " node=" ∷ node.now
        ∷ codes " place=" ∷ place.now ∷ []))) }
{
    say(
        err,
        &[
            "refused: ",
            file,
            ": ",
            "BadMask graph=",
            graph,
            " node=",
            node,
            " place=",
            place,
            "\n",
        ],
    )
}

/// Writes the line of a file that has no text.
fn say_decode_error<E: Sink>(err: &mut E, file: &str, error: &DecodeError) -> Result<(), SinkError>
    ensures later { E.faults err.old ≤ E.faults err.new }
    ensures cause { OnErr result (Rose (E.faults err.old) (E.faults err.new)) }
    ensures line { OnOk result (Appended (E.written err.old) (E.written err.new)
        (refusal file.now (decode_reason error.now))) }
    ensures front { OnErr result (AppendedFront (E.written err.old) (E.written err.new)
        (refusal file.now (decode_reason error.now))) }
{
    match error {
        DecodeError::BadUtf8 { place } => say_number(err, file, "BadUtf8 place=", *place),
        DecodeError::LoneSurrogate { place } => {
            say_number(err, file, "LoneSurrogate place=", *place)
        },
        DecodeError::OddLength => say_name(err, file, "OddLength"),
        DecodeError::NoMemory => say_name(err, file, "NoMemory"),
    }
}

/// Writes the line of an alphabet that is refused.
fn say_alphabet_error<E: Sink>(
    err: &mut E,
    file: &str,
    error: &AlphabetError,
) -> Result<(), SinkError>
    ensures later { E.faults err.old ≤ E.faults err.new }
    ensures cause { OnErr result (Rose (E.faults err.old) (E.faults err.new)) }
    ensures line { OnOk result (Appended (E.written err.old) (E.written err.new)
        (refusal file.now (alphabet_reason error.now))) }
    ensures front { OnErr result (AppendedFront (E.written err.old) (E.written err.new)
        (refusal file.now (alphabet_reason error.now))) }
{
    match error {
        AlphabetError::BadLine { line } => say_number(err, file, "BadLine line=", *line),
        AlphabetError::EmptyRange { line } => say_number(err, file, "EmptyRange line=", *line),
        AlphabetError::NoMemory => say_name(err, file, "NoMemory"),
    }
}

/// Writes the line of a graph that is refused.
fn say_grf_error<E: Sink>(err: &mut E, file: &str, error: &GrfError) -> Result<(), SinkError>
    ensures later { E.faults err.old ≤ E.faults err.new }
    ensures cause { OnErr result (Rose (E.faults err.old) (E.faults err.new)) }
    ensures line { OnOk result (Appended (E.written err.old) (E.written err.new)
        (refusal file.now (grf_reason error.now))) }
    ensures front { OnErr result (AppendedFront (E.written err.old) (E.written err.new)
        (refusal file.now (grf_reason error.now))) }
{
    match error {
        GrfError::NoHeader => say_name(err, file, "NoHeader"),
        GrfError::BadCount => say_name(err, file, "BadCount"),
        GrfError::BadBoxLine { node } => {
            say_number(err, file, "BadBoxLine node=", *node as usize)
        },
        GrfError::BadTarget { node } => say_number(err, file, "BadTarget node=", *node as usize),
        GrfError::BadContent { node, place } => {
            say_place(err, file, "BadContent node=", *node as usize, *place)
        },
        GrfError::NoMemory => say_name(err, file, "NoMemory"),
    }
}

/// Writes the line of a grammar that is refused.
fn say_net_error<E: Sink>(err: &mut E, file: &str, error: &NetError) -> Result<(), SinkError>
    ensures later { E.faults err.old ≤ E.faults err.new }
    ensures cause { OnErr result (Rose (E.faults err.old) (E.faults err.new)) }
    ensures line { OnOk result (Appended (E.written err.old) (E.written err.new)
        (refusal file.now (net_reason error.now))) }
    ensures front { OnErr result (AppendedFront (E.written err.old) (E.written err.new)
        (refusal file.now (net_reason error.now))) }
{
    match error {
        NetError::MissingGraph { name } => say_missing(err, file, name),
        NetError::BadMask { graph, node, place } => {
            say_bad_mask(err, file, graph, *node, *place)
        },
        NetError::ContextClose { graph, node } => {
            say_node(err, file, "ContextClose graph=", graph, *node)
        },
        NetError::NegativeRecursion { graph } => say_recursion(err, file, graph),
        NetError::EmptyLoop { graph, node } => {
            say_node(err, file, "EmptyLoop graph=", graph, *node)
        },
        NetError::LeftRecursion { graph, node } => {
            say_node(err, file, "LeftRecursion graph=", graph, *node)
        },
        NetError::NoMemory => say_name(err, file, "NoMemory"),
    }
}

/// Writes the line of a dictionary that is refused.
fn say_dela_error<E: Sink>(err: &mut E, file: &str, error: &DelaError) -> Result<(), SinkError>
    ensures later { E.faults err.old ≤ E.faults err.new }
    ensures cause { OnErr result (Rose (E.faults err.old) (E.faults err.new)) }
    ensures line { OnOk result (Appended (E.written err.old) (E.written err.new)
        (refusal file.now (dela_reason error.now))) }
    ensures front { OnErr result (AppendedFront (E.written err.old) (E.written err.new)
        (refusal file.now (dela_reason error.now))) }
{
    match error {
        DelaError::NoComma { line, place } => say_place(err, file, "NoComma line=", *line, *place),
        DelaError::NoDot { line, place } => say_place(err, file, "NoDot line=", *line, *place),
        DelaError::EmptyForm { line, place } => {
            say_place(err, file, "EmptyForm line=", *line, *place)
        },
        DelaError::EmptyCode { line, place } => {
            say_place(err, file, "EmptyCode line=", *line, *place)
        },
        DelaError::BadEscape { line, place } => {
            say_place(err, file, "BadEscape line=", *line, *place)
        },
        DelaError::BadClass { line, place } => say_place(
            err,
            file,
            "BadClass line=",
            *line,
            *place,
        ),
        DelaError::NoMemory => say_name(err, file, "NoMemory"),
    }
}

/// Writes the line of an image that is refused.
fn say_image_error<E: Sink>(err: &mut E, file: &str, error: &ImageError) -> Result<(), SinkError>
    ensures later { E.faults err.old ≤ E.faults err.new }
    ensures cause { OnErr result (Rose (E.faults err.old) (E.faults err.new)) }
    ensures line { OnOk result (Appended (E.written err.old) (E.written err.new)
        (refusal file.now (image_reason error.now))) }
    ensures front { OnErr result (AppendedFront (E.written err.old) (E.written err.new)
        (refusal file.now (image_reason error.now))) }
{
    match error {
        ImageError::BadMagic => say_name(err, file, "BadMagic"),
        ImageError::Short => say_name(err, file, "Short"),
        ImageError::BadState { offset } => say_number(err, file, "BadState offset=", *offset),
        ImageError::BadCode { number } => say_number(err, file, "BadCode n=", *number),
        ImageError::Trailing => say_name(err, file, "Trailing"),
        ImageError::TooMany => say_name(err, file, "TooMany"),
        ImageError::NoMemory => say_name(err, file, "NoMemory"),
    }
}

/// Writes the line of a file that is no compiled grammar.
fn say_fst2_error<E: Sink>(err: &mut E, file: &str, error: &Fst2Error) -> Result<(), SinkError>
    ensures later { E.faults err.old ≤ E.faults err.new }
    ensures cause { OnErr result (Rose (E.faults err.old) (E.faults err.new)) }
    ensures line { OnOk result (Appended (E.written err.old) (E.written err.new)
        (refusal file.now (fst2_reason error.now))) }
    ensures front { OnErr result (AppendedFront (E.written err.old) (E.written err.new)
        (refusal file.now (fst2_reason error.now))) }
{
    match error {
        Fst2Error::BadCount => say_name(err, file, "BadCount"),
        Fst2Error::BadLine { line } => say_number(err, file, "BadLine line=", *line),
        Fst2Error::BadTag { n } => say_number(err, file, "BadTag n=", *n),
        Fst2Error::BadLabel { line } => say_number(err, file, "BadLabel line=", *line),
        Fst2Error::NoMemory => say_name(err, file, "NoMemory"),
    }
}

/// Writes the line of sentence automata that are refused.
fn say_sentence_error<E: Sink>(
    err: &mut E,
    file: &str,
    error: &SentenceError,
) -> Result<(), SinkError>
    ensures later { E.faults err.old ≤ E.faults err.new }
    ensures cause { OnErr result (Rose (E.faults err.old) (E.faults err.new)) }
    ensures line { OnOk result (Appended (E.written err.old) (E.written err.new)
        (refusal file.now (sentence_reason error.now))) }
    ensures front { OnErr result (AppendedFront (E.written err.old) (E.written err.new)
        (refusal file.now (sentence_reason error.now))) }
{
    match error {
        SentenceError::BadLine { line } => say_number(err, file, "BadLine line=", *line),
        SentenceError::BadEdge { line } => say_number(err, file, "BadEdge line=", *line),
        SentenceError::Backward { line } => say_number(err, file, "Backward line=", *line),
        SentenceError::NoMemory => say_name(err, file, "NoMemory"),
    }
}

/// Writes the line of a graph that is no rule.
fn say_rule_error<E: Sink>(err: &mut E, file: &str, error: &RuleError) -> Result<(), SinkError>
    ensures later { E.faults err.old ≤ E.faults err.new }
    ensures cause { OnErr result (Rose (E.faults err.old) (E.faults err.new)) }
    ensures line { OnOk result (Appended (E.written err.old) (E.written err.new)
        (refusal file.now (rule_reason error.now))) }
    ensures front { OnErr result (AppendedFront (E.written err.old) (E.written err.new)
        (refusal file.now (rule_reason error.now))) }
{
    match error {
        RuleError::NoIf => say_name(err, file, "NoIf"),
        RuleError::BadMarks { node } => say_number(err, file, "BadMarks node=", *node as usize),
        RuleError::Call { node } => say_number(err, file, "Call node=", *node as usize),
        RuleError::BadItem { node } => say_number(err, file, "BadItem node=", *node as usize),
        RuleError::NoMemory => say_name(err, file, "NoMemory"),
    }
}

/// Writes the line of a stem that isn't inflected.
fn say_inflect_error<E: Sink>(
    err: &mut E,
    file: &str,
    error: &InflectError,
) -> Result<(), SinkError>
    ensures later { E.faults err.old ≤ E.faults err.new }
    ensures cause { OnErr result (Rose (E.faults err.old) (E.faults err.new)) }
    ensures line { OnOk result (Appended (E.written err.old) (E.written err.new)
        (refusal file.now (inflect_reason error.now))) }
    ensures front { OnErr result (AppendedFront (E.written err.old) (E.written err.new)
        (refusal file.now (inflect_reason error.now))) }
{
    match error {
        InflectError::Cyclic { graph } => say_named(err, file, "Cyclic graph=", graph),
        InflectError::BadItem { graph, node } => {
            say_node(err, file, "BadItem graph=", graph, *node)
        },
        InflectError::StackEnd { path } => say_named(err, file, "StackEnd path=", path),
        InflectError::BadCodes { path } => say_named(err, file, "BadCodes path=", path),
        InflectError::NoMemory => say_name(err, file, "NoMemory"),
    }
}

/// Writes the line of a grammar that isn't flattened.
fn say_flatten_error<E: Sink>(
    err: &mut E,
    file: &str,
    error: &FlattenError,
) -> Result<(), SinkError>
    ensures later { E.faults err.old ≤ E.faults err.new }
    ensures cause { OnErr result (Rose (E.faults err.old) (E.faults err.new)) }
    ensures line { OnOk result (Appended (E.written err.old) (E.written err.new)
        (refusal file.now (flatten_reason error.now))) }
    ensures front { OnErr result (AppendedFront (E.written err.old) (E.written err.new)
        (refusal file.now (flatten_reason error.now))) }
{
    match error {
        FlattenError::TooBig => say_name(err, file, "TooBig"),
        FlattenError::NegativeCut { graph, node } => {
            say_node(err, file, "NegativeCut graph=", graph, *node)
        },
        FlattenError::NoMemory => say_name(err, file, "NoMemory"),
    }
}

/// Writes the line of a grammar that isn't matched inside words.
fn say_morph_error<E: Sink>(err: &mut E, file: &str, error: &MorphError) -> Result<(), SinkError>
    ensures later { E.faults err.old ≤ E.faults err.new }
    ensures cause { OnErr result (Rose (E.faults err.old) (E.faults err.new)) }
    ensures line { OnOk result (Appended (E.written err.old) (E.written err.new)
        (refusal file.now (morph_reason error.now))) }
    ensures front { OnErr result (AppendedFront (E.written err.old) (E.written err.new)
        (refusal file.now (morph_reason error.now))) }
{
    match error {
        MorphError::BadMarks { graph, node } => {
            say_node(err, file, "BadMarks graph=", graph, *node)
        },
        MorphError::BadOutput { token } => say_named(err, file, "BadOutput token=", token),
        MorphError::NoMemory => say_name(err, file, "NoMemory"),
    }
}

/// Writes the line of a grammar that isn't sought in sentence automata.
fn say_tfst_error<E: Sink>(err: &mut E, file: &str, error: &TfstError) -> Result<(), SinkError>
    ensures later { E.faults err.old ≤ E.faults err.new }
    ensures cause { OnErr result (Rose (E.faults err.old) (E.faults err.new)) }
    ensures line { OnOk result (Appended (E.written err.old) (E.written err.new)
        (refusal file.now (tfst_reason error.now))) }
    ensures front { OnErr result (AppendedFront (E.written err.old) (E.written err.new)
        (refusal file.now (tfst_reason error.now))) }
{
    match error {
        TfstError::BadItem { graph, node } => say_node(err, file, "BadItem graph=", graph, *node),
        TfstError::NoMemory => say_name(err, file, "NoMemory"),
    }
}
