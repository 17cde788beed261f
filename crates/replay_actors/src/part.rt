//! What a race is to do, and what each of its lanes does of it.
ghost use Rattle.std.specs.Prelude.{◌≡◌, List, [], true};
ghost use Rattle.replay_actors.specs.Lanes.{Own};
ghost use Rattle.replay_actors.specs.Parts.{Did, IsPart};

use dispatch_core::Core;
use input_types::{Args, Moment};
use session_plan::Step;

/// What the threads of a race are to do.
#[derive(Drop)]
pub struct Lanes {
    /// The args that the reader hands in, in this order and each at its time.
    pub cooked: Vec<(Moment, Args)>,
    /// The steps of each script, in its order. The first script is that of lane 1.
    pub scripts: Vec<Vec<Step>>,
    /// How many channels there are.
    pub channels: u32,
    /// Whose owners finish messages, as a mask: bit `id - 1` stands for the channel `id`.
    pub finishing: u64,
}

/// What a race leaves behind.
#[derive(Drop)]
pub struct RaceEnd {
    pub core: Core,
    /// The number of the seat of each script.
    pub script_seats: Vec<u64>,
}

/// The owners of every fourth channel.
#[derive(Clone, Copy)]
pub(crate) struct Owner {
    /// The first of its channels is the next one.
    pub(crate) number: u32,
    pub(crate) channels: u32,
    pub(crate) finishing: u64,
}

/// What one lane does.
#[derive(Drop)]
pub(crate) enum Part {
    Reader(Vec<(Moment, Args)>),
    Dispatcher,
    Script { lane: u8, steps: Vec<Step> },
    Application(Owner),
}

impl Part {
    /// The number by which a gate knows the lane.
    pub(crate) fn lane(&self) -> u8
        requires { IsPart self.now }
    {
        match self {
            Part::Reader(_) => 0,
            Part::Dispatcher => 1,
            Part::Script { lane, .. } => *lane,
            Part::Application(owner) => owner.number as u8 + 10,
        }
    }

    /// Whether it is a script without steps, which has no thread.
    pub(crate) fn is_nothing(&self) -> bool
        ensures { result ≡ true → (own : List Own) → own ≡ [] → Did self.now own }
    {
        match self {
            Part::Script { steps, .. } => steps.is_empty(),
            _ => false,
        }
    }
}
