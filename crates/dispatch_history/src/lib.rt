//! What a history of the dispatcher means: definitions, with nearly no code. docs/MEANING.md explains them in order.
//!
//! Two fingers go down on two windows that stand side by side, and the first goes up. The calls and their replies, in
//! order:
//!
//! ```text
//! Open, Open                                                Opened(1), Opened(2)
//! Windows 0: 1 at [0, 0, 540, 2400], 2 at [540, 0, 1080, 2400]          Done
//! Notify 1000000 DOWN 0@100,200                             Taken
//! Pump 1000000                                              Dispatched
//! Notify 1010000 POINTER_DOWN:1 0@100,200 1@700,400         Taken
//! Pump 1010000                                              Dispatched
//! Notify 1020000 POINTER_UP:0 0@100,200 1@700,400           Taken
//! Pump 1020000                                              Dispatched
//! ```
//!
//! By the definitions, the stream of channel 1 is then `DOWN 0@100,200`, `MOVE 0@100,200`, `UP 0@100,200`, and that
//! of channel 2 is `DOWN 1@160,400`, `MOVE 1@160,400`. The worked examples in proofs/ check this and more by
//! computation.
//!
//! A history is a list of calls with their replies, newest first; the tail is what came before the last step. With the
//! steps of a history go their effects: what each step dispatched, gave, took and sent. All definitions look back over
//! these two lists. They read replies and never recompute one, and none reads who made a call. Definitions that need
//! the display of each device take it as an argument.
#![tactic(auto)]

pub mod laws;
