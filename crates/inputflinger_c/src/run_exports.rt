//! A run of the program.
ghost use Rattle.std.specs.Prelude.{◌≡◌, nat_eq};
ghost use Rattle.plain_calls.specs.Calling.{Reads};
ghost use Rattle.plain_calls.specs.Status.{no_memory};
ghost use Rattle.plain_run.specs.Running.{RunGoes, files_from, places};
ghost use Rattle.plain_run.specs.Words.{words_of};

use plain_run::{Lent, PlainRan, run};
use std::alloc::Global;

/// Runs the program over `count` of these files; see `plain_run::run`.
#[unsafe(no_mangle)]
pub extern "C" fn inputflinger_proved_run(
    alloc: Global,
    words: &[u8],
    count: u32,
    first: &[u8],
    second: &[u8],
    third: &[u8],
    out: &mut [u8],
    err: &mut [u8],
    ran: &mut PlainRan,
) -> u32
    ensures { Reads (files_from count first.now second.now third.now) result
        (places out.new err.new ran.new ≡ places out.old err.old ran.old)
        (λ entries. RunGoes (nat_eq result no_memory) (words_of words.now) entries result
        (places out.old err.old ran.old) (places out.new err.new ran.new)) }
{
    let files = Lent {
        count,
        first,
        second,
        third,
    };
    run(alloc, words, files, out, err, ran)
}
