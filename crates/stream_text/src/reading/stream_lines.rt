//! A stream file, line by line.
ghost use Rattle.std.specs.Prelude.{◌≡◌, ℕ, ◌+◌, ◌^◌, ◌<◌, ◌≤◌, option_map, IfOk, IfSome, Ok, Err, length};
ghost use Rattle.stream_text.specs.StreamLine.{CanSay};
ghost use Rattle.stream_text.specs.StreamFile.{Goes, Unread, events_from, events_of, follow, may_end, next_line, told};

use crate::order_front::pass_order;
use crate::reading::line::read_line;
use crate::stream_line::StreamLine;
use std::marker::Model;
use text_lines::{FirstLine, first_line};

/// Where a stream file stands between two lines.
#[derive(Clone, Copy)]
pub(crate) enum Place {
    /// After the order, or after a section.
    Between,
    /// In the section of a channel, after this many of its messages.
    Section { id: u32, told: u64 },
    /// After an ANR line.
    Anrs,
}

impl Place {
    /// Where the file stands after a line; None if the line may not stand there.
    fn follow(self, line: &StreamLine) -> Option<Place>
        ensures { result ≡ follow self line.now }
    {
        match (self, line) {
            (Place::Between, StreamLine::Channel { id }) => Some(Place::Section {
                id: *id,
                told: 0,
            }),
            (Place::Between | Place::Anrs, StreamLine::Anr { .. }) => Some(Place::Anrs),
            (Place::Section { id, told }, StreamLine::Message(message)) => {
                if message.seq > told && message.seq - 1 == told {
                    Some(Place::Section {
                        id,
                        told: message.seq,
                    })
                } else {
                    None
                }
            }
            (
                Place::Section { id, told },
                StreamLine::End {
                    id: ended,
                    sent,
                    ..
                },
            ) => {
                if *ended == id && *sent == told {
                    Some(Place::Between)
                } else {
                    None
                }
            }
            _ => None,
        }
    }

    /// Whether the file may end here.
    fn may_end(self) -> bool
        ensures { result ≡ may_end self }
    {
        match self {
            Place::Section { .. } => false,
            _ => true,
        }
    }
}

/// Reads a line that may stand at this point, and returns the point after it.
fn send(place: Place, line: FirstLine<'_>, says: &mut StreamLine) -> Option<Place>
    ensures value { option_map (λ next. (says.new, next)) result ≡ told place (line.entry.text.now, line.entry.ended) }
    ensures says { IfSome result (λ _. CanSay says.new) }
{
    if !line.ended || !read_line(line.text, says) {
        return None;
    }
    place.follow(says)
}

/// Reads a stream file line by line, and takes no memory. Contracts see the lines that are left, or which of them is
/// the first bad one.
#[derive(Drop)]
pub struct StreamLines<'a> {
    place: Place,
    number: u64,
    rest: &'a [u8],
}

impl<'a> Model for StreamLines<'a> {
    ghost use Rattle.std.specs.Prelude.{◌+◌, ◌^◌, ◌<◌, length};
    ghost use Rattle.text_lines.specs.Lines.{lines_of};
    ghost use Rattle.stream_text.specs.StreamFile.{Unread, events_from};

    ghost Value = { Unread };

    ghost view = { λ l. record {
      left = length l.rest.now;
      events = events_from l.place l.number (lines_of l.rest.now);
    } };

    ghost invariant = { λ l. l.number + length l.rest.now < 2 ^ 64 };
}

impl<'a> StreamLines<'a> {
    /// The lines of a stream file, after an order that may stand in front and is skipped. Returns the number of a bad
    /// or missing line of the order.
    #[tactic(auto, unfolding(crate::specs::StreamFile::events_of))]
    pub fn new(bytes: &'a [u8]) -> Result<StreamLines<'a>, u64>
        ensures ok { IfOk result (λ lines. events_of bytes.now ≡ lines.events) }
        ensures left { IfOk result (λ lines. lines.left ≤ length bytes.now + 1) }
        ensures err { (bad : ℕ) → result ≡ Err bad → events_of bytes.now ≡ Err bad }
    {
        let (number, rest) = pass_order(bytes)?;
        Ok(StreamLines {
            place: Place::Between,
            number,
            rest,
        })
    }

    /// Another reader of the lines that are left.
    pub fn again(&self) -> StreamLines<'a>
        ensures { result ≡ self.now }
    {
        StreamLines {
            place: self.place,
            number: self.number,
            rest: self.rest,
        }
    }

    /// The next line with its number, or None at the end of the file. A line that has not its form or may not stand
    /// there, or that is missing because a section does not end, is answered by its number.
    pub fn next(&mut self) -> Result<Option<(u64, StreamLine)>, u64>
        ensures lines { Goes self.old result self.new }
        ensures says { IfOk result (λ line. IfSome line (λ event. CanSay event.1)) }
        ensures range { IfOk result (λ line. IfSome line (λ event. event.0 + 1 < 2 ^ 64)) }
    {
        let mut says = StreamLine::Channel { id: 0 };
        match self.next_into(&mut says)? {
            Some(number) => Ok(Some((number, says))),
            None => Ok(None),
        }
    }

    /// The same, but what the line says is written to `says`, and only its number is returned. If no line is returned,
    /// `says` may have any value.
    pub fn next_into(&mut self, says: &mut StreamLine) -> Result<Option<u64>, u64>
        ensures lines { Goes self.old (next_line result says.new) self.new }
        ensures says { IfOk result (λ line. IfSome line (λ _. CanSay says.new)) }
        ensures range { IfOk result (λ line. IfSome line (λ number. number + 1 < 2 ^ 64)) }
    {
        if self.rest.is_empty() {
            return if self.place.may_end() {
                Ok(None)
            } else {
                Err(self.number)
            };
        }
        let number = self.number;
        let line = first_line(self.rest);
        let Some(next) = send(self.place, line, says) else {
            return Err(number);
        };
        self.place = next;
        self.number += 1;
        self.rest = line.rest;
        Ok(Some(number))
    }
}
