//! The pieces of a text.
ghost use Rattle.std.specs.Prelude.{◌≡◌, ◌+◌, ◌<◌, ◌++◌, [], length, OnOk, OnErr};
ghost use Rattle.text_pieces.specs.Joined.{joined};
ghost use Rattle.text_pieces.specs.Long.{AreLong, pieces_of};

use std::alloc::{AllocError, Global};
use std::marker::Model;
use std::mem;

/// The most bytes up to which two pieces are merged, 64 KiB: a short text is one piece.
const SHORT: usize = 65536;

/// A text in pieces. Any two neighbouring pieces have more than 64 KiB together. Contracts see its bytes.
#[derive(Drop)]
pub struct Pieces {
    before: Vec<Vec<u8>>,
    last: Vec<u8>,
}

impl Model for Pieces {
    ghost use Rattle.std.specs.Prelude.{◌++◌, List, ℕ};
    ghost use Rattle.text_pieces.specs.Joined.{joined};
    ghost use Rattle.text_pieces.specs.Long.{AreLong, pieces_of};

    ghost Value = { List ℕ };

    ghost view = { λ p. joined p.before.items ++ p.last.items };

    ghost invariant = { λ p. AreLong (pieces_of p.before.items p.last.items) };
}

impl Pieces {
    /// An empty text.
    pub fn new(alloc: Global) -> Pieces
        ensures { result ≡ [] }
    {
        Pieces {
            before: Vec::new(alloc),
            last: Vec::new(alloc),
        }
    }

    /// The text of one piece.
    pub fn of(alloc: Global, piece: Vec<u8>) -> Pieces
        ensures { result ≡ piece.items }
    {
        Pieces {
            before: Vec::new(alloc),
            last: piece,
        }
    }

    /// Appends a piece: behind the last one, if the two are short together. If memory runs out, the text is as before.
    #[tactic(auto, using(crate::proofs::OneMore::joined_more, crate::proofs::Longer::long_more, crate::proofs::Longer::long_grown))]
    pub fn push(&mut self, piece: Vec<u8>) -> Result<(), AllocError>
        ensures ok { OnOk result (self.new ≡ self.old ++ piece.items) }
        ensures err { OnErr result (self.new ≡ self.old) }
    {
        if self.last.len() + piece.len() <= SHORT {
            return self.last.extend_from_slice(&piece);
        }
        self.before.reserve(1)?;
        let last = mem::replace(&mut self.last, piece);
        self.before.push(last)?;
        Ok(())
    }

    /// The pieces before the last one, in their order, and the last one.
    pub fn parts(&self) -> (&[Vec<u8>], &[u8])
        ensures joined { joined result.0.now ++ result.1.now ≡ self.now }
        ensures long { AreLong (pieces_of result.0.now result.1.now) }
    {
        (&self.before, &self.last)
    }
}
