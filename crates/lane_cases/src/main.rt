//! Races of lanes that a gate holds at a turn. What is printed does not depend on how the threads are scheduled.
//!
//! If two lanes meet, they run concurrently, which lanes of one thread never do. If one lane is ahead while another is
//! held, the history has the calls in the order in which the threads made them. Last, each lane arrives at the gate
//! before each of its calls. No clause says these things.
#![tactic(auto)]

mod arrivals;
mod flag;
mod gates;
mod made;
mod races;

use std::io;

fn main(rt: HostRuntime) -> io::Result<()> {
    races::print_all(&rt, rt.alloc())
}
