//! The lines of a stream file.
ghost use Rattle.std.specs.Prelude.{◌≡◌, Some, IfSome};
ghost use Rattle.stream_text.specs.StreamLine.{line_of, SpellsLine};
ghost use Rattle.stream_text.specs.declared.stream_line.StreamLine.{StreamLine};

use crate::reading::line::read_line;
use input_types::{Message, Moment};

/// What a line of a stream file says, behind the order text that may stand in front.
#[derive(Clone, Copy, Debug, PartialEq, Eq)]
pub enum StreamLine {
    /// The section of a channel begins. Its name is not kept.
    Channel {
        id: u32,
    },
    /// A message of the open section.
    Message(Message),
    /// The section of a channel ends: how many messages were sent, received and finished.
    End {
        id: u32,
        sent: u64,
        received: u64,
        finished: u64,
    },
    /// At `clock` a channel was reported unresponsive, and `seq` was its oldest unfinished message.
    Anr {
        clock: Moment,
        id: u32,
        seq: u64,
    },
}

impl StreamLine {
    /// What a line says, given without its newline; None if it has none of the four forms.
    ///
    /// Each line that spells something is read as that, and nothing else is read.
    #[tactic(auto, using(crate::proofs::LineTexts::line_again, crate::proofs::LineTexts::line_only), unfolding(crate::specs::StreamLine::line_of))]
    pub fn read(line: &[u8]) -> Option<StreamLine>
        ensures value { result ≡ line_of line.now }
        ensures again { (said : StreamLine) → SpellsLine line.now said → result ≡ Some said }
        ensures only { IfSome result (λ said. SpellsLine line.now said) }
    {
        let mut says = StreamLine::Channel { id: 0 };
        if read_line(line, &mut says) {
            Some(says)
        } else {
            None
        }
    }
}
