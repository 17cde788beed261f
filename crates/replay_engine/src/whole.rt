//! The lines that say why streams are not whole. Any number of pointers and keys may still be down, so each part is
//! written as it is found.
ghost use Rattle.std.specs.Prelude.{◌≡◌, ◌++◌, codes, decimal, map, OnOk, OnErr};
ghost use Rattle.bits32.specs.Set.{members};
ghost use Rattle.judge_text.specs.Lines.{ids_text, key_text, keys_text, mark_at, pointers_text, refusal_line};
ghost use Rattle.text_output.specs.Passing.{CountsFaults, Prints, StopsWithin, WritesAll, WritesUpTo};

use crate::statuses::tell_number;
use bits32::Bits32;
use gesture_verifier::HeldKey;
use itoa::Buffer;
use judge_text::{HeldIds, JudgeError, StillDown, word};
use outside_io::{Failed, Sink};
use text_output::{Line, tell, tell_pair};

/// The character before the id at an index of its list.
fn mark(place: u32) -> &'static str
    ensures { result.now ≡ mark_at place }
{
    if place == 0 { ":" } else { "," }
}

/// Adds the id at an index of its list.
fn add_id<E: Sink>(line: &mut Line, err: &mut E, place: u32, id: u8) -> Result<(), Failed>
    ensures ok { OnOk result (WritesUpTo (E.writing err.old) (E.writing err.new)
        (line.old ++ (mark_at place ++ decimal id)) line.new) }
    ensures err { OnErr result (StopsWithin (E.writing err.old) (E.writing err.new)
        (line.old ++ (mark_at place ++ decimal id))) }
    ensures faults { CountsFaults E.Sink err.old err.new result }
{
    let mut digits = Buffer::new();
    line.add_parts(err, &[mark(place), digits.format(id)])
}

/// Adds the ids of a device, in rising order.
fn add_ids<E: Sink>(line: &mut Line, err: &mut E, ids: Bits32) -> Result<(), Failed>
    ensures ok { OnOk result (WritesUpTo (E.writing err.old) (E.writing err.new)
        (line.old ++ ids_text (codes ":") (members ids)) line.new) }
    ensures err { OnErr result (StopsWithin (E.writing err.old) (E.writing err.new)
        (line.old ++ ids_text (codes ":") (members ids))) }
    ensures faults { CountsFaults E.Sink err.old err.new result }
{
    for place in 0..ids.count() {
        if let Some(id) = ids.nth(place) {
            add_id(line, err, place, id)?;
        }
    }
    Ok(())
}

/// Adds the pointers that are down on a device.
fn add_held<E: Sink>(line: &mut Line, err: &mut E, held: &HeldIds) -> Result<(), Failed>
    ensures ok { OnOk result (WritesUpTo (E.writing err.old) (E.writing err.new)
        (line.old ++ (codes " " ++ (decimal held.now.device ++ ids_text (codes ":") (members held.now.ids))))
        line.new) }
    ensures err { OnErr result (StopsWithin (E.writing err.old) (E.writing err.new)
        (line.old ++ (codes " " ++ (decimal held.now.device ++ ids_text (codes ":") (members held.now.ids))))) }
    ensures faults { CountsFaults E.Sink err.old err.new result }
{
    let mut digits = Buffer::new();
    line.add_parts(err, &[" ", digits.format(held.device.get())])?;
    add_ids(line, err, held.ids)
}

/// Adds the pointers that are down.
fn add_pointers<E: Sink>(line: &mut Line, err: &mut E, pointers: &[HeldIds]) -> Result<(), Failed>
    ensures ok { OnOk result (WritesUpTo (E.writing err.old) (E.writing err.new)
        (line.old ++ pointers_text (map (λ h. (h.device, members h.ids)) pointers.now)) line.new) }
    ensures err { OnErr result (StopsWithin (E.writing err.old) (E.writing err.new)
        (line.old ++ pointers_text (map (λ h. (h.device, members h.ids)) pointers.now))) }
    ensures faults { CountsFaults E.Sink err.old err.new result }
{
    for held in pointers {
        add_held(line, err, held)?;
    }
    Ok(())
}

/// Adds a key that is down.
fn add_key<E: Sink>(line: &mut Line, err: &mut E, key: HeldKey) -> Result<(), Failed>
    ensures ok { OnOk result (WritesUpTo (E.writing err.old) (E.writing err.new)
        (line.old ++ key_text key) line.new) }
    ensures err { OnErr result (StopsWithin (E.writing err.old) (E.writing err.new)
        (line.old ++ key_text key)) }
    ensures faults { CountsFaults E.Sink err.old err.new result }
{
    let mut device = Buffer::new();
    let mut scan = Buffer::new();
    let parts = [
        " key ",
        device.format(key.device.get()),
        ":",
        scan.format(key.scan),
    ];
    line.add_parts(err, &parts)
}

/// Adds the keys that are down.
fn add_keys<E: Sink>(line: &mut Line, err: &mut E, keys: &[HeldKey]) -> Result<(), Failed>
    ensures ok { OnOk result (WritesUpTo (E.writing err.old) (E.writing err.new)
        (line.old ++ keys_text keys.now) line.new) }
    ensures err { OnErr result (StopsWithin (E.writing err.old) (E.writing err.new)
        (line.old ++ keys_text keys.now)) }
    ensures faults { CountsFaults E.Sink err.old err.new result }
{
    for key in keys {
        add_key(line, err, *key)?;
    }
    Ok(())
}

/// Writes the line of a section that leaves something down.
fn write_still_down<E: Sink>(err: &mut E, number: u64, down: &StillDown) -> Result<(), Failed>
    ensures ok { OnOk result (WritesAll (E.writing err.old) (E.writing err.new)
        (refusal_line (JudgeError.StillDown number down.now) ++ codes "\n")) }
    ensures err { OnErr result (StopsWithin (E.writing err.old) (E.writing err.new)
        (refusal_line (JudgeError.StillDown number down.now) ++ codes "\n")) }
    ensures faults { CountsFaults E.Sink err.old err.new result }
{
    let mut digits = Buffer::new();
    let mut line = Line::new();
    line.add_parts(err, &["stream: StillDown ", digits.format(number)])?;
    add_pointers(&mut line, err, down.pointers())?;
    add_keys(&mut line, err, down.keys())?;
    line.add(err, "\n")?;
    line.end(err)
}

/// Prints the line of a section that leaves something down.
fn tell_still_down<E: Sink>(err: &mut E, number: u64, down: &StillDown)
    ensures { Prints E.Sink err.old err.new (refusal_line (JudgeError.StillDown number down.now) ++ codes "\n") }
{
    let _ = write_still_down(err, number, down);
}

/// Prints why streams are not whole.
#[tactic(auto, unfolding(judge_text::specs::Lines::refusal_line))]
pub fn tell_whole<E: Sink>(err: &mut E, error: &JudgeError)
    ensures { Prints E.Sink err.old err.new (refusal_line error.now ++ codes "\n") }
{
    match error {
        JudgeError::BadLine { line } => tell_number(err, "stream: BadLine ", *line),
        JudgeError::Broken { line, reason } => {
            let mut digits = Buffer::new();
            tell_pair(err, "stream: Broken ", digits.format(*line), word(*reason));
        }
        JudgeError::StillDown { line, down } => tell_still_down(err, *line, down),
        JudgeError::Nothing => tell(err, "stream: Nothing\n"),
        JudgeError::Memory => tell(err, "\n"),
    }
}
