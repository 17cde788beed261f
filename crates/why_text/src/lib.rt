//! Why a touch went where it went: the text of the causes of a run, step by step.
//!
//! Two windows stand side by side, 1 on the left and 2 on the right. One finger goes down on each, and the first one
//! goes up again:
//!
//! ```text
//! 0 windows 1@0:0,0,540,2400 2@0:540,0,1080,2400
//! 1000000 down 1 0 100,200 touched 1 row first chosen 1 spies - pilfering - given 1 mute - outside -
//! 1010000 down 1 1 700,400 touched 2 row split chosen 2 spies - pilfering - given 2 mute - outside -
//! 1020000 up 1 0 from 1
//! ```
//!
//! The text is a function of the effects of the run. Its words are those of the rules: the touched window, the choice
//! with its row, which windows get a pointer and which would if they were able (`routing_rules`), what windows hold
//! before and after a step, and which has the focus (`dispatch_history`). No second rule is involved.
//!
//! The definitions stand in specs/:
//!
//! - `Words`: sets, channels and rows as words.
//! - `Down`: the causes of a pointer that goes down.
//! - `Lost`: what a window loses at a step.
//! - `Lines`: the lines of a step, by its call and its reply.
//! - `Text`: the changes of the focus, and the text of all steps.
#![tactic(auto)]

pub mod laws;
