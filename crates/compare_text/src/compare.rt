//! The comparing of two files.
ghost use Rattle.std.specs.Prelude.{◌≡◌, ◌+◌, ◌^◌, ◌<◌, ◌∷◌, ◌++◌, ℕ, List, true, [], flat_map, length, map, Ok, Err, IfOk, IfErr, IfSome};
ghost use Rattle.std.specs.Option.{option_map};
ghost use Rattle.input_types.specs.declared.message.Message.{Message as Told};
ghost use Rattle.compare_text.specs.Compared.{Refuses, compared, first_fault, point_pairs, said, same_line};
ghost use Rattle.compare_text.specs.Indexed.{are_opened, count_of, is_good, messages_at, seen};
ghost use Rattle.compare_text.specs.Measured.{measure};
ghost use Rattle.compare_text.specs.Pairing.{first_at, first_new, left_from, measured_after, points_say};
ghost use Rattle.compare_text.specs.Pairs.{is_of, of_channel, pairs, unnamed};
ghost use Rattle.compare_text.specs.Points.{points_in};

use crate::agreement::difference_of;
use crate::comparison::{Comparison, Tolerance};
use crate::error::CompareError;
use crate::measure::Measure;
use crate::points::next_point;
use crate::section::Opened;
use crate::sections::Sections;
use input_types::Message;
use std::alloc::{AllocError, Global};

/// Measures two points that agree behind those before.
fn compare_pair(
    tolerance: Tolerance,
    before: Measure,
    want: u64,
    wanted: &Message,
    got: u64,
    came: &Message,
) -> Result<Measure, CompareError>
    requires { before.points + 1 < 2 ^ 64 }
    ensures ok { (ws gs : List (ℕ × Told)) → IfOk result
        (λ m. points_say tolerance.us tolerance.pixels before ((want, wanted.now) ∷ ws) ((got, came.now) ∷ gs)
        ≡ points_say tolerance.us tolerance.pixels m ws gs) }
    ensures points { IfOk result (λ m. m.points ≡ before.points + 1) }
    ensures err { (ws gs : List (ℕ × Told)) → IfErr result
        (λ e. points_say tolerance.us tolerance.pixels before ((want, wanted.now) ∷ ws) ((got, came.now) ∷ gs)
        ≡ Err e) }
{
    match difference_of(tolerance, wanted, came) {
        Some(what) => Err(CompareError::Differs { want, got, what }),
        None => Ok(before.with_pair(wanted, came)),
    }
}

/// Pairs the points of two sections, in order, and measures them behind those before.
fn compare_points(
    rule: &Comparison,
    want: &Opened<'_>,
    got: &Opened<'_>,
    before: Measure,
) -> Result<Measure, CompareError>
    requires want { is_good want.now.lines.events ≡ true }
    requires got { is_good got.now.lines.events ≡ true }
    requires room { before.points + length (points_in rule.now.each_move (messages_at want.now.lines.events)) < 2 ^ 64 }
    ensures { let w = points_in rule.now.each_move (messages_at want.now.lines.events) in
        let g = points_in rule.now.each_move (messages_at got.now.lines.events) in
        result ≡ points_say rule.now.tolerance.us rule.now.tolerance.pixels before w g }
{
    let mut wanted = want.lines.again();
    let mut came = got.lines.again();
    let mut measure = before;
    'points: loop {
        let first = next_point(&mut wanted, rule.each_move);
        let second = next_point(&mut came, rule.each_move);
        match (first, second) {
            (Some((want, a)), Some((got, b))) => {
                measure = compare_pair(rule.tolerance, measure, want, &a, got, &b)?;
            }
            (Some((want, _)), None) => return Err(CompareError::Missing { want }),
            (None, Some((got, _))) => return Err(CompareError::Added { got }),
            (None, None) => return Ok(measure),
        }
    }
}

/// The first section of a channel at or after an index, and its own index.
fn find<'s, 'a>(sections: &'s [Opened<'a>], from: usize, id: u32) -> Option<(usize, &'s Opened<'a>)>
    requires { are_opened sections.now ≡ true }
    ensures place { IfSome result (λ r. r.0 < length sections.now) }
    ensures good { IfSome result (λ r. is_good r.1.now.lines.events ≡ true) }
    ensures first { option_map (λ r. (r.0, seen r.1.now)) result ≡ first_at from id 0 (map seen sections.now) }
{
    for (place, section) in sections.iter().enumerate() {
        if from <= place && section.id == id {
            return Some((place, section));
        }
    }
    None
}

/// The first section that is not paired.
fn unpaired(sections: &[Opened<'_>], from: &[usize; 65]) -> Option<CompareError>
    requires { are_opened sections.now ≡ true }
    ensures { result ≡ first_new (left_from 0 from.now (map seen sections.now)) }
{
    for (place, section) in sections.iter().enumerate() {
        if from[section.id as usize] <= place {
            return Some(CompareError::NewSection { got: section.line });
        }
    }
    None
}

/// Pairs the sections of two files, and measures their points.
fn compare_sections(
    rule: &Comparison,
    want: &[Opened<'_>],
    got: &[Opened<'_>],
) -> Result<Measure, CompareError>
    requires want { are_opened want.now ≡ true }
    requires got { are_opened got.now ≡ true }
    requires room { count_of (map seen want.now) < 2 ^ 64 }
    ensures { let ps = pairs (map seen want.now) (map seen got.now) in
        result ≡ measured_after (measure []) (first_fault rule.now ps) (flat_map (point_pairs rule.now.each_move) ps) }
{
    let mut from = [0; 65];
    let mut measure = Measure::zero();
    for section in want {
        let id = section.id as usize;
        let Some((place, partner)) = find(got, from[id], section.id) else {
            return Err(CompareError::NoSection { want: section.line });
        };
        measure = compare_points(rule, section, partner, measure)?;
        from[id] = place + 1;
    }
    match unpaired(got, &from) {
        Some(fault) => Err(fault),
        None => Ok(measure),
    }
}

/// The line that says that everything agrees.
#[tactic(auto, unfolding(crate::specs::Compared::same_line))]
fn same(alloc: Global, sections: usize, measure: Measure) -> Result<Vec<u8>, AllocError>
    ensures { IfOk result (λ text. text.items ≡ same_line sections measure) }
{
    let Measure { points, us, pixels } = measure;
    let line = format!(in alloc; "same {sections} {points} us {us} pixels {pixels}\n")?;
    Ok(line.into_bytes())
}

/// The text for sections that are looked at.
fn answer(
    alloc: Global,
    rule: &Comparison,
    want: &[Opened<'_>],
    got: &[Opened<'_>],
) -> Result<Vec<u8>, CompareError>
    requires want { are_opened want.now ≡ true }
    requires got { are_opened got.now ≡ true }
    requires room { count_of (map seen want.now) < 2 ^ 64 }
    ensures ok { IfOk result (λ text. said rule.now (pairs (map seen want.now) (map seen got.now)) ≡ Ok text.items) }
    ensures err { IfErr result (Refuses (said rule.now (pairs (map seen want.now) (map seen got.now)))) }
{
    let measure = compare_sections(rule, want, got)?;
    Ok(same(alloc, want.len(), measure)?)
}

/// Whether a section of this channel is looked at.
fn is_of(channel: Option<u32>, id: u32) -> bool
    ensures { result ≡ is_of channel id }
{
    match channel {
        Some(channel) => id == channel,
        None => true,
    }
}

/// Adds a section without its channel, if it is of this channel.
fn add_if_of<'a>(
    chosen: &mut Vec<Opened<'a>>,
    section: &Opened<'a>,
    channel: Option<u32>,
) -> Result<(), AllocError>
    ensures sections { IfOk result (λ _. map seen chosen.new.items
        ≡ map seen chosen.old.items ++ map unnamed (of_channel channel (seen section.now ∷ []))) }
    ensures opened { are_opened chosen.old.items ≡ true → is_good section.now.lines.events ≡ true
        → IfOk result (λ _. are_opened chosen.new.items ≡ true) }
{
    if !is_of(channel, section.id) {
        return Ok(());
    }
    let lines = section.lines.again();
    chosen.push(Opened {
        id: 0,
        line: section.line,
        lines,
    })?;
    Ok(())
}

/// The sections of a channel, or all if none is named, as sections without a channel.
fn chosen<'a>(
    alloc: Global,
    sections: &[Opened<'a>],
    channel: Option<u32>,
) -> Result<Vec<Opened<'a>>, AllocError>
    requires { are_opened sections.now ≡ true }
    ensures sections { IfOk result
        (λ chosen. map seen chosen.items ≡ map unnamed (of_channel channel (map seen sections.now))) }
    ensures opened { IfOk result (λ chosen. are_opened chosen.items ≡ true) }
{
    let mut chosen = Vec::new(alloc);
    for section in sections {
        add_if_of(&mut chosen, section, channel)?;
    }
    Ok(chosen)
}

/// The text for the sections of two stream files that agree: how many pairs of sections and of points there are, and
/// the greatest distances of the points.
///
/// Each expected section that is looked at, in order, is paired with the first actual section of its channel that is
/// not paired yet, or with the first at all if a channel is named.
#[tactic(auto, using(crate::proofs::Chosen::few_chosen))]
pub fn compare_text(
    alloc: Global,
    want: &Sections<'_>,
    got: &Sections<'_>,
    rule: &Comparison,
) -> Result<Vec<u8>, CompareError>
    ensures ok { IfOk result (λ text. compared rule.now want.now got.now ≡ Ok text.items) }
    ensures err { IfErr result (Refuses (compared rule.now want.now got.now)) }
{
    if rule.want_channel.is_none() && rule.got_channel.is_none() {
        return answer(alloc, rule, &want.sections, &got.sections);
    }
    let wanted = chosen(alloc, &want.sections, rule.want_channel)?;
    let came = chosen(alloc, &got.sections, rule.got_channel)?;
    answer(alloc, rule, &wanted, &came)
}
