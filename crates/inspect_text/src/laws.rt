//! What is proved of the numbers of the text. Each function has a law as its clause, and does nothing.
ghost use Rattle.inspect_text.specs.Laws.{ArgsLaw, KeysHintLaw, LinesLaw, TouchHintLaw};
ghost use Rattle.inspect_text.specs.Used.{UsedLaw};

/// The lines of a recording are the blank ones, those of another form, those of devices that are not in the session,
/// and those that give an event.
pub fn lines_add_up()
    ensures { LinesLaw }
{}

/// The args of the devices are all that is cooked.
pub fn args_add_up()
    ensures { ArgsLaw }
{}

/// A device with keys at which nothing is hinted gives some args.
pub fn keys_are_cooked()
    ensures { KeysHintLaw }
{}

/// A touch device at which nothing is hinted gives some args.
pub fn touches_are_cooked()
    ensures { TouchHintLaw }
{}

/// The args of a device are those of the events that its line counts as used.
pub fn used_events()
    ensures { UsedLaw }
{}
