//! The queue of args.
ghost use Rattle.std.specs.Prelude.{◌≡◌, ◌==◌, ◌≤◌, [], length, slice_get, OnErr, OnOk, IsOk};
ghost use Rattle.std.specs.Option.{option_copied};
ghost use Rattle.dispatcher.specs.InboundArgs.Waiting.{put_behind, with_spare, without_first};

use input_types::Args;
use std::alloc::{AllocError, Global};
use std::collections::VecDeque;
use std::marker::Model;

/// Args that wait, the next ones first, and room for more. Contracts see the list, and how many more it has room for.
#[derive(Drop)]
pub struct Inbound {
    waiting: VecDeque<Args>,
    spare: usize,
}

impl Model for Inbound {
    ghost use Rattle.std.specs.Prelude.{◌+◌, ◌≤◌};
    ghost use Rattle.std.specs.VecDeque.{deque_len, deque_capacity};
    ghost use Rattle.dispatcher.specs.InboundArgs.Waiting.{Waiting};

    ghost Value = { Waiting };

    ghost view = { λ q. record { args = q.waiting.items; spare = q.spare } };

    ghost invariant = { λ q. deque_len q.waiting + q.spare ≤ deque_capacity q.waiting };
}

impl Inbound {
    /// Nothing waits.
    pub fn new(alloc: Global) -> Inbound
        ensures { result ≡ record { args = []; spare = 0 } }
    {
        Inbound {
            waiting: VecDeque::new(alloc),
            spare: 0,
        }
    }

    /// Makes room for the next `n` args. If memory runs out, nothing changes.
    pub fn reserve(&mut self, n: usize) -> Result<(), AllocError>
        ensures ok { OnOk result (self.new ≡ with_spare n self.old) }
        ensures err { OnErr result (self.new ≡ self.old) }
        ensures reserved { n ≤ self.old.spare → IsOk result }
    {
        if self.spare < n {
            self.waiting.reserve(n)?;
            self.spare = n;
        }
        Ok(())
    }

    /// Appends args, for which room was reserved. Takes no memory.
    pub fn put(&mut self, args: Args)
        requires { 1 ≤ self.old.spare }
        ensures { self.new ≡ put_behind args self.old }
    {
        self.waiting.push_back_reserved(args);
        self.spare -= 1;
    }

    /// The next args, which stay; None exactly if none wait.
    pub fn first(&self) -> Option<&Args>
        ensures { option_copied result ≡ slice_get self.now.args 0 }
    {
        self.waiting.front()
    }

    /// Removes the next args; None exactly if none wait. Takes no memory.
    pub fn pop(&mut self) -> Option<Args>
        ensures value { result ≡ slice_get self.old.args 0 }
        ensures rest { self.new ≡ without_first self.old }
    {
        self.waiting.pop_front()
    }

    /// How many args wait.
    pub fn len(&self) -> usize
        ensures { result ≡ length self.now.args }
    {
        self.waiting.len()
    }

    /// Whether nothing waits.
    pub fn is_empty(&self) -> bool
        ensures { result ≡ (length self.now.args == 0) }
    {
        self.waiting.is_empty()
    }
}
