//! The first paths that are not in the session.
ghost use Rattle.std.specs.Prelude.{◌≡◌, ◌<◌, ◌≤◌, ◌↔◌, ◌∷◌, [], ◌++◌, ℕ, List, length, map, get_or, nat_eq, IfSome, None, OnOk};
ghost use Rattle.std.specs.Prelude.{◌&&◌, if◌then◌else◌};
ghost use Rattle.std.specs.Str.{bytes_eq};
ghost use Rattle.recording_counts.specs.Counted.{risen};
ghost use Rattle.recording_counts.specs.Paths.{PathsStandFor, is_among};

use crate::number::risen_if;
use std::alloc::{AllocError, Global};
use std::marker::Model;

/// How many paths are listed.
const MOST: usize = 8;

/// The first eight different paths of lines whose device is not in the session, and how many lines have each.
///
/// Contracts see the paths, in the order of their first line, and at the place of each how many lines have it.
#[derive(Drop)]
pub struct UnknownPaths {
    paths: Vec<Vec<u8>>,
    counts: [u64; 8],
}

impl Model for UnknownPaths {
    ghost use Rattle.std.specs.Prelude.{◌≡◌, ◌≤◌, length, map};
    ghost use Rattle.recording_counts.specs.Paths.{PathTable};

    ghost Value = { PathTable };

    ghost view = { λ u. record { paths = map (λ p. p.items) u.paths.items; counts = u.counts } };

    ghost invariant = { λ u. (length u.paths.items ≤ 8) × (length u.counts ≡ 8) };
}

impl UnknownPaths {
    /// No path came.
    pub(crate) fn new(alloc: Global) -> UnknownPaths
        ensures { PathsStandFor [] result }
    {
        UnknownPaths {
            paths: Vec::new(alloc),
            counts: [0; 8],
        }
    }

    /// How many paths there are, at most eight.
    pub fn len(&self) -> usize
        ensures value { result ≡ length self.now.paths }
        ensures range { result ≤ 8 }
    {
        self.paths.len()
    }

    /// The path at an index from 0, as bytes, and how many lines have it; None exactly if the index is not below `len`.
    pub fn get(&self, i: usize) -> Option<(&[u8], u64)>
        ensures none { (result ≡ None) ↔ (length self.now.paths ≤ i) }
        ensures path { IfSome result (λ r. r.0.now ≡ get_or self.now.paths i []) }
        ensures lines { IfSome result (λ r. r.1 ≡ get_or self.now.counts i 0) }
    {
        if i < self.paths.len() {
            Some((self.paths[i].as_slice(), self.counts[i]))
        } else {
            None
        }
    }

    /// Takes the path of one more line.
    pub(crate) fn note(&mut self, path: &[u8]) -> Result<(), AllocError>
        ensures { (past : List (List ℕ)) → PathsStandFor past self.old
            → OnOk result (PathsStandFor (path.now ∷ past) self.new) }
    {
        let known = raise(&mut self.counts, &self.paths, path);
        if known || self.paths.len() == MOST {
            return Ok(());
        }
        add(&mut self.paths, &mut self.counts, path)
    }
}

/// Puts a path behind the others, with the number 1.
fn add(paths: &mut Vec<Vec<u8>>, counts: &mut [u64; 8], path: &[u8]) -> Result<(), AllocError>
    requires few { length paths.old.items < 8 }
    requires len { length counts.old ≡ 8 }
    ensures paths { OnOk result (map (λ p. p.items) paths.new.items
        ≡ map (λ p. p.items) paths.old.items ++ path.now ∷ []) }
    ensures here { OnOk result (get_or counts.new (length paths.old.items) 0 ≡ 1) }
    ensures others { (i : ℕ) → i < length paths.old.items
        → OnOk result (get_or counts.new i 0 ≡ get_or counts.old i 0) }
    ensures len { length counts.new ≡ 8 }
    ensures few { length paths.new.items ≤ 8 }
{
    let place = paths.len();
    let mut copy = Vec::with_capacity(*paths.allocator(), path.len())?;
    copy.extend_from_slice(path)?;
    paths.push(copy)?;
    counts[place] = 1;
    Ok(())
}

/// Raises the number at an index, if the flag says so.
fn raise_if(counts: &mut [u64; 8], place: usize, so: bool)
    requires place { place < 8 }
    requires len { length counts.old ≡ 8 }
    ensures len { length counts.new ≡ 8 }
    ensures raised { (j : ℕ) → get_or counts.new j 0
        ≡ (if nat_eq j place && so then risen (get_or counts.old j 0) else get_or counts.old j 0) }
{
    counts[place] = risen_if(counts[place], so);
}

/// Raises the number at each index that has this path, and returns whether there is one.
fn raise(counts: &mut [u64; 8], paths: &[Vec<u8>], path: &[u8]) -> bool
    requires paths { length paths.now ≤ 8 }
    requires counts { length counts.old ≡ 8 }
    ensures found { result ≡ is_among path.now (map (λ p. p.items) paths.now) }
    ensures counts { length counts.new ≡ 8 }
    ensures raised { (i : ℕ) → i < length paths.now → get_or counts.new i 0
        ≡ (if bytes_eq path.now (get_or (map (λ p. p.items) paths.now) i []) then risen (get_or counts.old i 0)
        else get_or counts.old i 0) }
{
    let mut found = false;
    for (i, known) in paths.iter().enumerate() {
        let same = path == known.as_slice();
        raise_if(counts, i, same);
        found |= same;
    }
    found
}
