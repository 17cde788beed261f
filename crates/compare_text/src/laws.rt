//! Proved facts about comparing. Each function has a law as its clause, and does nothing.
ghost use Rattle.compare_text.specs.Laws.{AgreementLaw, DifferenceLaw, MonotoneLaw, ReflexiveLaw, SymmetricLaw};

/// Two points differ in nothing exactly if they agree.
pub fn points_agree()
    ensures { DifferenceLaw }
{}

/// There is no fault exactly if each section that is looked at has a partner, and the points of each pair are equally
/// many and agree in order.
pub fn files_agree()
    ensures { AgreementLaw }
{}

/// Sections agree with themselves, if the same channel is named for both files, or none.
pub fn reflexive()
    ensures { ReflexiveLaw }
{}

/// Agreement does not depend on which of two files is the expected one, if the channels are exchanged too.
pub fn symmetric()
    ensures { SymmetricLaw }
{}

/// Texts that agree within a tolerance agree within every wider one, with the same answer.
pub fn monotone()
    ensures { MonotoneLaw }
{}
