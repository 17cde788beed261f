//! A proved fact about the numbers. The function has the law as its clause, and does nothing.
ghost use Rattle.plain_calls.specs.Laws.{ReadAgainLaw};

/// A message written as numbers and handed in again is the same message.
#[tactic(auto, using(crate::proofs::Again::read_again))]
pub fn read_again()
    ensures { ReadAgainLaw }
{}
