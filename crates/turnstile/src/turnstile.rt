//! A turnstile and its seats.
ghost use Rattle.std.specs.Prelude.{◌≡◌};
ghost use Rattle.turnstile.specs.Idle.{IsIdle};

use crate::machine::Machine;
use crate::rule::Order;
use crate::view::View;
use atomic_table::Table;
use std::alloc::Global;
use std::snapshot::Snapshot;
use std::sync::atomic::AtomicU64;

/// What a seat steps with.
pub(crate) type Token<M: Machine> = atomic_table::Seat<
    Option<M>,
    View<M::Setup, M::Call, M::Reply>,
>;

/// A machine that threads call one at a time.
#[derive(Drop)]
pub struct Turnstile<M: Machine> {
    pub(crate) table: Table<
        Option<M>,
        View<M::Setup, M::Call, M::Reply>,
        Snapshot<M>,
        Order,
        Global,
    >,
    // How many threads sleep, or are about to. Nothing is proved about it: it only saves a wake if no thread sleeps.
    pub(crate) sleepers: AtomicU64,
    ghost sized: { (table.shared.table_id.words ≡ 2) × (table.shared.table_id.slots ≡ 1) },
}

/// A thread's place at a turnstile, with a number that no other seat has.
#[derive(Drop)]
pub struct Seat<M: Machine> {
    pub(crate) token: Token<M>,
    pub(crate) number: u64,
    pub(crate) seen: u64,
    pub(crate) made: u64,
    ghost number_is: { number ≡ token.me.0.mine.number },
    ghost seen_is: { seen ≡ token.me.0.seen },
    ghost made_is: { made ≡ token.me.0.mine.made },
    ghost idle: { IsIdle token.me },
}
