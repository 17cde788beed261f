//! Proved facts about the words of a command. Each function has a law as its clause, and does nothing.
ghost use Rattle.command_words.specs.Laws.{FaultLaw, OrderLaw, SpellingsLaw};

/// An option in one word, as `--name=value`, says what it says in two.
pub fn spellings()
    ensures { SpellingsLaw }
{}

/// Options may change places.
pub fn order()
    ensures { OrderLaw }
{}

/// Something is wrong with words exactly if they have no valid form.
pub fn faults()
    ensures { FaultLaw }
{}
