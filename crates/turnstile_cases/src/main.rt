//! The turnstile, tried on machines that count, and on a dispatcher behind it. What is printed does not depend on how
//! the threads are scheduled.
#![tactic(auto)]

mod counter;
mod counting;
mod dispatching;
mod flags;
mod held_counter;

use std::io;

fn main(rt: HostRuntime) -> io::Result<()> {
    let alloc = rt.alloc();
    counting::print_all(&rt, alloc)?;
    dispatching::print_all(&rt, alloc)
}
