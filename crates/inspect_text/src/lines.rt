//! The lines, the moments and the paths of a recording.
ghost use Rattle.std.specs.Prelude.{◌≡◌, ◌++◌, ◌<◌, ℕ, [], List, length, get_or, IfOk};
ghost use Rattle.recording_counts.specs.Paths.{PathsStandFor};
ghost use Rattle.inspect_text.specs.Inspected.{paths_text};
ghost use Rattle.inspect_text.specs.Lines.{lines_line, moments_line, path_line};

use recording_counts::{LineCounts, Span, UnknownPaths};
use std::alloc::AllocError;
use text_lines::{add_labeled, add_number, add_word};

/// Adds how many lines there are, by what they are, and how many events they give.
pub(crate) fn add_lines(
    text: &mut Vec<u8>,
    counts: &LineCounts,
    events: u64,
) -> Result<(), AllocError>
    ensures { IfOk result (λ _. text.new.items
        ≡ text.old.items
        ++ lines_line counts.now.lines counts.now.blank counts.now.other counts.now.unknown events) }
{
    add_labeled(text, "lines ", counts.lines)?;
    add_labeled(text, " blank ", counts.blank)?;
    add_labeled(text, " other ", counts.other)?;
    add_labeled(text, " unknown ", counts.unknown)?;
    add_labeled(text, " events ", events)?;
    add_word(text, "\n")
}

/// Adds the earliest and the latest time of the events, if there are any.
pub(crate) fn add_moments(text: &mut Vec<u8>, span: Option<Span>) -> Result<(), AllocError>
    ensures { IfOk result (λ _. text.new.items ≡ text.old.items ++ moments_line span) }
{
    let Some(span) = span else {
        return Ok(());
    };
    add_labeled(text, "moments ", span.first.get())?;
    add_labeled(text, " ", span.last.get())?;
    add_word(text, "\n")
}

/// Adds a path, with how many lines have it.
fn add_path(text: &mut Vec<u8>, path: &[u8], times: u64) -> Result<(), AllocError>
    ensures { IfOk result (λ _. text.new.items ≡ text.old.items ++ path_line path.now times) }
{
    add_word(text, "path ")?;
    text.extend_from_slice(path)?;
    add_word(text, " ")?;
    add_number(text, times)?;
    add_word(text, "\n")
}

/// Adds the path at a place, with how many lines have it.
fn add_path_at(text: &mut Vec<u8>, paths: &UnknownPaths, place: usize) -> Result<(), AllocError>
    requires { place < length paths.now.paths }
    ensures { IfOk result (λ _. text.new.items
        ≡ text.old.items ++ path_line (get_or paths.now.paths place []) (get_or paths.now.counts place 0)) }
{
    match paths.get(place) {
        Some((path, times)) => add_path(text, path, times),
        None => Ok(()),
    }
}

/// Adds the first paths that are not in the session.
pub(crate) fn add_paths(text: &mut Vec<u8>, paths: &UnknownPaths) -> Result<(), AllocError>
    ensures { (past : List (List ℕ)) → PathsStandFor past paths.now
        → IfOk result (λ _. text.new.items ≡ text.old.items ++ paths_text past) }
{
    for place in 0..paths.len() {
        add_path_at(text, paths, place)?;
    }
    Ok(())
}
