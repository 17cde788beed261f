//! Proved facts about the runs of a plan: the ordered run, and those of given orders.
//!
//! A plan has one result: it has at most one ordered run, and if that is within the limits, no part of it is too long.
//! None of its args are refused. Take a finger that goes down and up on device 1, with a key of device 2 in between:
//!
//! ```text
//! 5000   device 1: DOWN 0@100,200
//! 5200   device 2: key 30 down
//! 5500   device 1: UP 0@100,200
//! ```
//!
//! The args of each device keep the rule of devices. So each Notify is answered Taken, whatever is dispatched, received
//! or finished between them, and in whatever order the steps of scripts come.
#![tactic(auto)]

pub mod laws;
