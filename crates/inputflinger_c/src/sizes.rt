//! The sizes of structs, with which tests check the header.
ghost use Rattle.std.specs.Prelude.{◌≡◌};
ghost use Rattle.inputflinger_c.specs.Sizes.{size_of};

use crate::fault::PlainFault;
use crate::judge::Judge;
use crate::judge_keys::PlainKey;
use crate::judge_state::PlainState;
use crate::service::Service;
use plain_calls::plugging::{PlainAxis, PlainCook};
use plain_calls::{
    PlainClient, PlainDisplays, PlainMessage, PlainOptions, PlainPointer, PlainRect, PlainRepeats,
    PlainWindow,
};
use plain_run::PlainRan;
use std::mem::size_of;

/// The size of a struct in bytes, by its number: 0 for a judge, 1 for a pointer, 2 for a message, 3 for a fault, 4 for
/// a state, 5 for a key, 6 for a live service, 7 for a client, 8 for a rectangle, 9 for a window, 10 for an axis, 11
/// for a panel, 12 for displays, 13 for the result of a run, 14 for the options of a client, 15 for repeats. 0 for any
/// other number.
#[unsafe(no_mangle)]
pub extern "C" fn inputflinger_proved_size(number: u32) -> usize
    ensures { result ≡ size_of number }
{
    match number {
        0 => size_of::<Judge>(),
        1 => size_of::<PlainPointer>(),
        2 => size_of::<PlainMessage>(),
        3 => size_of::<PlainFault>(),
        4 => size_of::<PlainState>(),
        5 => size_of::<PlainKey>(),
        6 => size_of::<Service>(),
        7 => size_of::<PlainClient>(),
        8 => size_of::<PlainRect>(),
        9 => size_of::<PlainWindow>(),
        10 => size_of::<PlainAxis>(),
        11 => size_of::<PlainCook>(),
        12 => size_of::<PlainDisplays>(),
        13 => size_of::<PlainRan>(),
        14 => size_of::<PlainOptions>(),
        15 => size_of::<PlainRepeats>(),
        _ => 0,
    }
}
