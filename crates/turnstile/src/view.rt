//! What a seat knows.
use std::collections::LinkedList;

/// A number and what it did. No value of this type exists at run time.
pub struct Record<C, R> {
    pub number: u64,
    /// How many numbers were split off from this one; 0 for every number but 0.
    pub made: u64,
    /// Its own calls, newest first: the place, the call and the reply.
    pub own: LinkedList<(u64, C, R)>,
}

/// What a seat knows, for contracts alone. No value of this type exists at run time.
pub struct View<T, C, R> {
    /// That of the machine. None if the seat was joined into another.
    pub setup: Option<T>,
    /// The seat's own record.
    pub mine: Record<C, R>,
    /// How many entries of the history the seat has seen.
    pub seen: u64,
    /// These entries, newest first.
    pub known: LinkedList<(u64, C, R)>,
    /// How many of its takes found the lock free.
    pub hits: u64,
    /// How many of its takes found it taken.
    pub misses: u64,
    /// How often it looked at the length of the history.
    pub looks: u64,
    /// What the last look found.
    pub last: u64,
    /// The records of the seats that were joined into it, newest first, each followed by those joined into that one.
    pub joined: LinkedList<Record<C, R>>,
    /// The whole history, if the seat has the turn.
    pub turn: Option<LinkedList<(u64, C, R)>>,
    /// It has drawn a number that no seat has yet.
    pub drawn: bool,
    /// It was joined into another seat.
    pub spent: bool,
}
