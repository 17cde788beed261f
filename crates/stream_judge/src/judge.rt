//! The judge of one section.
ghost use Rattle.std.specs.Prelude.{◌≡◌, true, List, [], IfOk, OnErr};
ghost use Rattle.gesture_verifier.specs.Faults.{is_key};
ghost use Rattle.input_types.specs.declared.message.Message.{Message as Told};

use gesture_verifier::{StepError, Verifier};
use input_types::Message;
use std::alloc::{AllocError, Global};
use std::marker::Model;

/// Goes through the messages of a section as long as each is allowed.
#[derive(Drop)]
pub struct Judge {
    verifier: Verifier,
}

impl Model for Judge {
    ghost use Rattle.gesture_verifier.specs.Told.{Told};

    ghost Value = { Told };

    ghost view = { λ j. j.verifier };
}

impl Judge {
    ghost use Rattle.stream_judge.specs.Breaks.{HasPassed, Passes};

    /// A judge before the first message of a section.
    pub fn new(alloc: Global) -> Judge
        ensures { HasPassed [] result }
    {
        Judge {
            verifier: Verifier::new(alloc),
        }
    }

    /// Takes the next message of the section, and returns whether it is allowed. A message that is not allowed leaves
    /// the judge as it was. So does running out of memory, which only a key message can do.
    pub fn take(&mut self, message: &Message) -> Result<bool, AllocError>
        ensures ok { (messages : List Told) → HasPassed messages self.old
            → IfOk result (λ may. Passes messages message.now may self.new) }
        ensures err { OnErr result (self.new ≡ self.old) }
        ensures memory { OnErr result (is_key message.now.body ≡ true) }
    {
        match self.verifier.step(message) {
            Ok(()) => Ok(true),
            Err(StepError::Fault(_)) => Ok(false),
            Err(StepError::Memory) => Err(AllocError),
        }
    }
}
