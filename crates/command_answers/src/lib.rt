//! What each command answers: the text that it writes, or why it refuses. Each command has a file here and a file of
//! specs/ with its definition; `specs/Program.antt` puts them together.
//!
//! A finger with tracking id 45 goes down at (540, 1200) and up again, on a display with the window `main` over it. For
//! this recording `replay` prints
//!
//! ```text
//! channel 1 main
//! 1 12345100000 motion 1 DOWN 0@540,1200
//! 2 12345180000 motion 1 UP 0@540,1200
//! end 1 sent 2 received 2 finished 2
//! ```
//!
//! `inspect` prints how many lines, events and fingers the recording has, and `why` prints which window each finger
//! went to and by which rule. Given this text, `verify` says `well formed 1 2`, `judge` says `channel 1 whole 2` and
//! `judged 1 2`, and `compare` of it with itself says `same 1 2`.
#![tactic(auto)]

mod batch;
mod checked;
mod compare;
mod emit;
mod given;
mod hover;
mod inspect;
mod judge;
mod page;
mod plan;
mod race;
mod replay;
mod running;
mod texts;
mod verify;
mod why;
mod work;

pub use batch::answer_batch;
pub use checked::answer_check;
pub use compare::answer_compare;
pub use emit::answer_emit;
pub use hover::answer_hover;
pub use inspect::answer_inspect;
pub use judge::answer_judge;
pub use page::answer_page;
pub use race::answer_race;
pub use replay::answer_replay;
pub use verify::answer_verify;
pub use why::answer_why;
pub use work::answer_work;
