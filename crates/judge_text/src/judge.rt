//! The judge of a file's lines.
ghost use Rattle.std.specs.Prelude.{◌≡◌, ◌++◌, ℕ, ◌+◌, ◌^◌, ◌<◌, List, ◌∷◌, Ok, Err, None, IfOk, IfErr, OnOk, string_bytes};
ghost use Rattle.std.specs.Option.{option_or};
ghost use Rattle.input_types.specs.declared.message.Message.{Message as Told};
ghost use Rattle.stream_text.specs.StreamLine.{CanSay};
ghost use Rattle.stream_text.specs.MessageLine.{HasSpelling};
ghost use Rattle.judge_text.specs.Judged.{Refuses, answer, count_line, whole_line};
ghost use Rattle.judge_text.specs.Judging.{Knows, Takes, broken_at, down_at};

use crate::down::{StillDown, still_down};
use crate::error::JudgeError;
use gesture_verifier::{Reason, StepError, Verifier};
use input_types::Message;
use std::alloc::{AllocError, Global};
use std::marker::Model;
use stream_text::StreamLine;

/// What is known of a stream file behind some of its lines.
#[derive(Drop)]
pub(crate) struct Judge {
    alloc: Global,
    /// That of the open section, up to the first break.
    verifier: Verifier,
    /// The line of the first message that is not allowed where it stands, and why.
    broken: Option<(u64, Reason)>,
    /// The line of the first end of a section that leaves something down.
    down: Option<(u64, StillDown)>,
    sections: u64,
    messages: u64,
    /// A line for each section that has ended.
    lines: String,
}

impl Model for Judge {
    ghost use Rattle.std.specs.Prelude.{string_bytes};
    ghost use Rattle.judge_text.specs.Judging.{Known};

    ghost Value = { Known };

    ghost view = { λ j. record {
      tables = j.verifier;
      broken = j.broken;
      down = j.down;
      sections = j.sections;
      messages = j.messages;
      lines = string_bytes j.lines;
    } };
}

/// Adds the line of a section.
#[tactic(auto, unfolding(crate::specs::Judged::whole_line))]
fn add_whole(lines: &mut String, id: u32, count: u64) -> Result<(), AllocError>
    ensures { OnOk result (string_bytes lines.new ≡ string_bytes lines.old ++ whole_line id count) }
{
    write!(lines, "channel {id} whole {count}\n")
}

/// Adds the last line.
#[tactic(auto, unfolding(crate::specs::Judged::count_line))]
fn add_count(lines: &mut String, sections: u64, messages: u64) -> Result<(), AllocError>
    ensures { OnOk result (string_bytes lines.new ≡ string_bytes lines.old ++ count_line sections messages) }
{
    write!(lines, "judged {sections} {messages}\n")
}

impl Judge {
    ghost use Rattle.std.specs.Prelude.{[]};

    /// A judge of no lines so far.
    pub(crate) fn new(alloc: Global) -> Judge
        ensures knows { Knows [] result }
        ensures none { (result.broken ≡ None) × (result.down ≡ None) }
        ensures counts { (result.sections ≡ 0) × (result.messages ≡ 0) }
        ensures lines { result.lines ≡ [] }
    {
        Judge {
            alloc,
            verifier: Verifier::new(alloc),
            broken: None,
            down: None,
            sections: 0,
            messages: 0,
            lines: String::new(alloc),
        }
    }

    /// Takes the next line, whose number this is.
    pub(crate) fn take(&mut self, number: u64, line: &StreamLine) -> Result<(), AllocError>
        requires can { CanSay line.now }
        requires room { (self.old.sections + 1 < 2 ^ 64) × (self.old.messages + 1 < 2 ^ 64) }
        ensures { (past : List Told) → Knows past self.old
            → OnOk result (Takes past number line.now self.old self.new) }
    {
        match line {
            StreamLine::Channel { .. } => {
                self.verifier = Verifier::new(self.alloc);
                self.sections += 1;
                Ok(())
            }
            StreamLine::Message(message) => {
                self.judge(number, message)?;
                self.messages += 1;
                Ok(())
            }
            StreamLine::End { id, sent, .. } => {
                self.look_down(number)?;
                add_whole(&mut self.lines, *id, *sent)
            }
            StreamLine::Anr { .. } => Ok(()),
        }
    }

    /// Judges the message of a line, unless there was a break before it.
    fn judge(&mut self, number: u64, message: &Message) -> Result<(), AllocError>
        requires { HasSpelling message.now }
        ensures knows { (past : List Told) → Knows past self.old → OnOk result (Knows (message.now ∷ past) self.new) }
        ensures broken { (past : List Told) → Knows past self.old
            → OnOk result (self.new.broken
            ≡ option_or self.old.broken (broken_at past number (StreamLine.Message message.now))) }
        ensures rest { (self.new.down ≡ self.old.down) × (self.new.sections ≡ self.old.sections)
            × (self.new.messages ≡ self.old.messages) × (self.new.lines ≡ self.old.lines) }
    {
        if self.broken.is_some() {
            return Ok(());
        }
        match self.verifier.step(message) {
            Ok(()) => Ok(()),
            Err(StepError::Fault(fault)) => {
                self.broken = Some((number, fault.reason.unwrap()));
                Ok(())
            }
            Err(StepError::Memory) => Err(AllocError),
        }
    }

    /// Looks what is down at the end of a section, whose line this is, unless something was found before it.
    fn look_down(&mut self, number: u64) -> Result<(), AllocError>
        ensures down { (past : List Told) → Knows past self.old → self.old.broken ≡ None
            → (id sent received finished : ℕ) → OnOk result (self.new.down
            ≡ option_or self.old.down (down_at past number (StreamLine.End id sent received finished))) }
        ensures rest { (self.new.tables ≡ self.old.tables) × (self.new.broken ≡ self.old.broken)
            × (self.new.sections ≡ self.old.sections) × (self.new.messages ≡ self.old.messages)
            × (self.new.lines ≡ self.old.lines) }
    {
        if self.broken.is_some() || self.down.is_some() {
            return Ok(());
        }
        if let Some(down) = still_down(self.alloc, &self.verifier)? {
            self.down = Some((number, down));
        }
        Ok(())
    }

    /// What is said at the end of the file.
    pub(crate) fn end(self) -> Result<Vec<u8>, JudgeError>
        ensures ok { IfOk result (λ text. answer self.broken self.down self.sections self.messages self.lines
            ≡ Ok text.items) }
        ensures err { IfErr result (Refuses
            (answer self.broken self.down self.sections self.messages self.lines)) }
    {
        let Judge {
            broken,
            down,
            sections,
            messages,
            lines,
            ..
        } = self;
        if let Some((line, reason)) = broken {
            return Err(JudgeError::Broken { line, reason });
        }
        if let Some((line, down)) = down {
            return Err(JudgeError::StillDown { line, down });
        }
        if messages == 0 {
            return Err(JudgeError::Nothing);
        }
        let mut text = lines;
        add_count(&mut text, sections, messages)?;
        Ok(text.into_bytes())
    }
}
