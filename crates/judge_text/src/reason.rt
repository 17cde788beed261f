//! The words of the reasons for which a message is not allowed.
ghost use Rattle.std.specs.Prelude.{◌≡◌};
ghost use Rattle.judge_text.specs.Lines.{word};

use gesture_verifier::Reason;

/// The word of a reason, as it stands in the line of a refusal: `AlreadyDown` in `stream: Broken 3 AlreadyDown`.
pub fn word(reason: Reason) -> &'static str
    ensures { result.now ≡ word reason }
{
    match reason {
        Reason::Flags => "Flags",
        Reason::AlreadyDown => "AlreadyDown",
        Reason::OnePointer => "OnePointer",
        Reason::NothingDown => "NothingDown",
        Reason::OtherPointers => "OtherPointers",
        Reason::LastPointer => "LastPointer",
        Reason::MorePointers => "MorePointers",
        Reason::RepeatOfNothing => "RepeatOfNothing",
        Reason::RepeatOutOfTurn => "RepeatOutOfTurn",
        Reason::KeyNotDown => "KeyNotDown",
        Reason::RepeatOnUp => "RepeatOnUp",
        Reason::FocusTwice => "FocusTwice",
    }
}
