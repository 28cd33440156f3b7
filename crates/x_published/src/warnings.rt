//! What is published of names that clash in C.

ghost use Rattle.std.specs.Prelude.{◌≡◌, ◌+◌, ◌++◌, IfOk, OnOk, option_map, string_bytes};
ghost use Rattle.std.specs.Option.{option_to_list};
ghost use Rattle.x_positions.specs.Positions.{lines_before};
ghost use Rattle.x_positions.specs.Waymarks.{AreWaymarks};
ghost use Rattle.x_warnings.specs.Warnings.{view_warning};
ghost use Rattle.x_published.specs.Diagnostics.{IsRangeAt};
ghost use Rattle.x_published.specs.Published.{data_of};
ghost use Rattle.x_published.specs.Warned.{IsWarnedAt, line_text, other_start, other_text, shown_start};
ghost use Rattle.x_published.specs.Warned.{warning_text};

use crate::client::Client;
use crate::published::{Diagnostic, Message, Severity, place_of};
use itoa::Buffer;
use std::alloc::{AllocError, Global};
use x_explain::token_end;
use x_positions::{Range, Waymarks};
use x_session::Spot;
use x_warnings::{OtherMeaning, Warning, kind_text};

/// What is published of a name that clashes in C, at its word in a text that is shown: nothing where the word
/// is not there.
pub fn warned<'d>(
    alloc: Global,
    client: Client,
    uri: &'d str,
    shown: &[u8],
    text: &[u8],
    marks: &Waymarks,
    warning: &Warning,
) -> Result<Option<Diagnostic<'d>>, AllocError>
    requires marked { AreWaymarks shown.now marks.now }
    requires encoding { marks.now.encoding ≡ client.encoding }
    ensures { let w = view_warning warning.now in IfOk result (λ d.
        IsWarnedAt client uri.now shown.now text.now w w.spot (option_to_list (option_map data_of d))) }
{
    let Some(spot) = warning.spot else {
        return Ok(None);
    };
    let start = shown_start(client.shows_related, warning.other);
    Ok(Some(Diagnostic {
        severity: Severity::Warning,
        message: Message::Plain(warning_text(alloc, shown, marks, warning)?),
        range: marks.range(shown, spot.start, token_end(text, spot.start)),
        related: place_of(
            uri,
            range_at(shown, text, marks, start),
            "the other one is here",
        ),
    }))
}

/// What is said of a name that clashes in C.
fn warning_text(
    alloc: Global,
    shown: &[u8],
    marks: &Waymarks,
    warning: &Warning,
) -> Result<String, AllocError>
    requires { AreWaymarks shown.now marks.now }
    ensures { IfOk result (λ text. string_bytes text ≡ warning_text shown.now (view_warning warning.now)) }
{
    let name = String::from_utf8_lossy(alloc, &warning.name)?;
    let mut text = String::from_str(alloc, "'")?;
    text.push_str(name.as_str())?;
    text.push_str("' ")?;
    add_other(&mut text, shown, marks, warning.other)?;
    Ok(text)
}

/// Adds what else has a name.
fn add_other(
    text: &mut String,
    shown: &[u8],
    marks: &Waymarks,
    other: OtherMeaning,
) -> Result<(), AllocError>
    requires { AreWaymarks shown.now marks.now }
    ensures { OnOk result (string_bytes text.new ≡ string_bytes text.old ++ other_text shown.now other) }
{
    match other {
        OtherMeaning::OfC(kind) => text.push_str(kind_text(kind)),
        OtherMeaning::OfText(spot) => {
            text.push_str("has two meanings in C")?;
            add_line(text, shown, marks, spot)
        }
    }
}

/// Adds the line of the other thing, if its word is there.
fn add_line(
    text: &mut String,
    shown: &[u8],
    marks: &Waymarks,
    spot: Option<Spot>,
) -> Result<(), AllocError>
    requires { AreWaymarks shown.now marks.now }
    ensures { OnOk result (string_bytes text.new ≡ string_bytes text.old ++ line_text shown.now spot) }
{
    let Some(spot) = spot else {
        return Ok(());
    };
    let mut buffer = Buffer::new();
    text.push_str("; the other is in line ")?;
    text.push_str(buffer.format(line_of(shown, marks, spot.start)))?;
    Ok(())
}

/// The line of a place in the text that is shown, counted from 1.
fn line_of(shown: &[u8], marks: &Waymarks, start: usize) -> usize
    requires { AreWaymarks shown.now marks.now }
    ensures { result ≡ lines_before shown.now start + 1 }
{
    marks.position(shown, start).line + 1
}

/// Where the other thing's word starts, if the client shows it.
fn shown_start(is_shown: bool, other: OtherMeaning) -> Option<usize>
    ensures { result ≡ shown_start is_shown other }
{
    if is_shown { other_start(other) } else { None }
}

/// Where the other thing's word starts.
fn other_start(other: OtherMeaning) -> Option<usize>
    ensures { result ≡ other_start other }
{
    match other {
        OtherMeaning::OfC(_) => None,
        OtherMeaning::OfText(spot) => spot.map(|spot| spot.start),
    }
}

/// The range of the token at a place of a text, as that is shown.
fn range_at(shown: &[u8], text: &[u8], marks: &Waymarks, start: Option<usize>) -> Option<Range>
    requires { AreWaymarks shown.now marks.now }
    ensures { IsRangeAt marks.now.encoding shown.now text.now start result }
{
    let start = start?;
    Some(marks.range(shown, start, token_end(text, start)))
}
