//! Proved facts about the program's answers. Each function has laws as its clauses, and does nothing.
ghost use Rattle.answer_laws.specs.Laws.{InspectRefuses, OneAnswer, OneRefusal, OrderTakes, ReplayRefuses, RunTakes, WhyRefuses};

/// No args of a session are refused, whatever its recording and whatever the order of its calls.
pub fn taking()
    ensures run { RunTakes }
    ensures order { OrderTakes }
{}

/// The words and the files, or what a call read of these, have one answer, unless the words are those of `race`; a
/// refusal is always the only answer.
pub fn answering()
    ensures answer { OneAnswer }
    ensures refusal { OneRefusal }
{}

/// `inspect` refuses exactly what `replay` refuses for the same files, in the same way, except a run that is too
/// long. `why` refuses exactly what `replay` refuses, in the same way.
pub fn refusing()
    ensures inspect { InspectRefuses }
    ensures replay { ReplayRefuses }
    ensures why { WhyRefuses }
{}
