//! The run.
ghost use Rattle.std.specs.Prelude.{◌≡◌, map, nat_eq};
ghost use Rattle.lent_io.specs.Entries.{entry_of};
ghost use Rattle.plain_calls.specs.Calling.{Reads};
ghost use Rattle.plain_calls.specs.Status.{no_memory};
ghost use Rattle.plain_run.specs.Running.{RunGoes, files_of, places};
ghost use Rattle.plain_run.specs.Words.{words_of};

use crate::filling::fill;
use crate::lent::Lent;
use crate::program::{is_race, print};
use crate::ran::PlainRan;
use crate::words::words_of;
use lent_io::LentFile;
use plain_calls::status::{MEMORY, NO_THREADS, OK, RANGE, ROOM};
use std::alloc::Global;

/// Runs the program. `words` are those after its name, one per line; a line that is not UTF-8 is the empty word. The
/// text that it prints goes to `out`, and the line that says why there is none goes to `err`, each as far as there is
/// room. The rest of each buffer stays as it was. `ran` has the length of both.
///
/// Answers `ROOM` if one of them is longer than its buffer. Answers `RANGE` for more than three files, `NO_THREADS` for
/// the words of `race`, and `MEMORY` if there is no memory for the words: then nothing ran, and nothing changed.
pub fn run(
    alloc: Global,
    words: &[u8],
    files: Lent<'_>,
    out: &mut [u8],
    err: &mut [u8],
    ran: &mut PlainRan,
) -> u32
    ensures { Reads (files_of files.entry) result (places out.new err.new ran.new ≡ places out.old err.old ran.old)
        (λ entries. RunGoes (nat_eq result no_memory) (words_of words.now) entries result
        (places out.old err.old ran.old) (places out.new err.new ran.new)) }
{
    if files.count > 3 {
        return RANGE;
    }
    let all = [
        LentFile {
            name: "1".as_bytes(),
            bytes: files.first,
        },
        LentFile {
            name: "2".as_bytes(),
            bytes: files.second,
        },
        LentFile {
            name: "3".as_bytes(),
            bytes: files.third,
        },
    ];
    let files = all.split_at(files.count as usize).0;
    run_over(alloc, words, files, out, err, ran)
}

/// Runs the program over these files.
fn run_over(
    alloc: Global,
    words: &[u8],
    files: &[LentFile<'_>],
    out: &mut [u8],
    err: &mut [u8],
    ran: &mut PlainRan,
) -> u32
    ensures { RunGoes (nat_eq result no_memory) (words_of words.now) (map entry_of files.now) result
        (places out.old err.old ran.old) (places out.new err.new ran.new) }
{
    let Ok(words) = words_of(alloc, words) else {
        return MEMORY;
    };
    if is_race(&words) {
        return NO_THREADS;
    }
    let printed = print(alloc, &words, files);
    ran.status = u32::from(printed.status);
    ran.out_len = fill(out, printed.text.text());
    ran.err_len = fill(err, printed.line.text());
    if ran.out_len <= out.len() && ran.err_len <= err.len() {
        OK
    } else {
        ROOM
    }
}
