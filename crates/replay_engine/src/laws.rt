//! Proved facts about how a run ends.
ghost use Rattle.replay_engine.specs.Laws.{RunsComplete};

/// If neither the files nor the output had a fault, a run ends with the status of the program's answer, or memory ran
/// out.
pub fn completing()
    ensures complete { RunsComplete }
{}
