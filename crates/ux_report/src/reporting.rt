//! The report as text: three sections, each with its lines.

ghost use Rattle.std.specs.Prelude.{◌≡◌, ◌++◌, IfOk, OnOk, string_bytes};
ghost use Rattle.std.specs.List.{flat_map};
ghost use Rattle.ux_tokens.specs.TokenFile.{file_of, line_of};
ghost use Rattle.ux_report.specs.Report.{AreTablesOf, IsReport, report_of, section};

use crate::lines::{compound_lines, in_order, simple_lines, unknown_lines};
use crate::words::word_places;
use std::alloc::{AllocError, Global};
use ux_base::{Mem, Txt};
use ux_lexical_tables::LexicalTables;
use ux_tokens::Text;

/// The report on the entries that apply to the text: a section of simple entries, one of compound
/// entries and one of unknown words, each line once. Asks each different word once.
pub fn report(alloc: Global, text: &Text, applied: &LexicalTables) -> Mem<String>
    // `applied` was made of this text.
    requires { AreTablesOf text.now applied.now }
    ensures { IfOk result (λ report. IsReport text.now applied.now (string_bytes report)) }
{
    let places = word_places(alloc, text)?;
    let simple = in_order(alloc, simple_lines(alloc, applied, &places)?)?;
    let compound = in_order(alloc, compound_lines(alloc, applied, text.len())?)?;
    let unknown = in_order(alloc, unknown_lines(alloc, text, applied, &places)?)?;
    Ok(print_report(alloc, &simple, &compound, &unknown)?)
}

/// The three sections, one behind the other.
fn print_report(
    alloc: Global,
    simple: &[Txt],
    compound: &[Txt],
    unknown: &[Txt],
) -> Result<String, AllocError>
    ensures { IfOk result (λ report.
        string_bytes report ≡ report_of simple.now compound.now unknown.now) }
{
    let mut report = String::new(alloc);
    put_section(&mut report, alloc, "#DLF ", simple)?;
    put_section(&mut report, alloc, "#DLC ", compound)?;
    put_section(&mut report, alloc, "#ERR ", unknown)?;
    Ok(report)
}

/// Puts a section last.
fn put_section(
    report: &mut String,
    alloc: Global,
    name: &str,
    lines: &[Txt],
) -> Result<(), AllocError>
    ensures { OnOk result (string_bytes report.new
        ≡ string_bytes report.old ++ section name.now lines.now) }
{
    report.push_str(name)?;
    put_file(report, alloc, lines)
}

/// Puts the number of the lines and then each of them last.
fn put_file(report: &mut String, alloc: Global, lines: &[Txt]) -> Result<(), AllocError>
    ensures { OnOk result (string_bytes report.new
        ≡ string_bytes report.old ++ file_of lines.now) }
{
    let count = format!(in alloc; "{}\n", lines.len())?;
    report.push_str(count.as_str())?;
    put_lines(report, lines)
}

/// Puts the lines last.
fn put_lines(report: &mut String, lines: &[Txt]) -> Result<(), AllocError>
    ensures { OnOk result (string_bytes report.new
        ≡ string_bytes report.old ++ flat_map line_of lines.now) }
{
    for line in lines {
        put_line(report, line.as_str())?;
    }
    Ok(())
}

/// Puts the line last, with a line feed.
fn put_line(report: &mut String, line: &str) -> Result<(), AllocError>
    ensures { OnOk result (string_bytes report.new ≡ string_bytes report.old ++ line_of line.now) }
{
    report.push_str(line)?;
    report.push('\n')
}
