//! The line that says in what two points differ.
ghost use Rattle.std.specs.Prelude.{◌++◌, codes};
ghost use Rattle.std.specs.Fmt.{signed_decimal};
ghost use Rattle.compare_text.specs.declared.error.CompareError.TheVariants.{Differs};
ghost use Rattle.compare_text.specs.Lines.{differs_at, refusal_line};
ghost use Rattle.text_output.specs.Passing.{Prints};

use compare_text::Difference;
use itoa::Buffer;
use outside_io::Sink;
use text_output::tell_parts;

/// Prints a difference that is a word alone.
#[tactic(auto, unfolding(compare_text::specs::Lines::differs_at))]
fn tell_word<E: Sink>(err: &mut E, want: u64, got: u64, word: &str)
    ensures { Prints E.Sink err.old err.new (differs_at want got word.now ++ codes "\n") }
{
    let mut wanted = Buffer::new();
    let mut came = Buffer::new();
    let (want, got) = (wanted.format(want), came.format(got));
    tell_parts(err, &["compare: Differs ", want, " ", got, " ", word, "\n"]);
}

/// Prints how far a position is from the expected one.
#[tactic(auto, unfolding(compare_text::specs::Lines::differs_at))]
fn tell_place<E: Sink>(err: &mut E, want: u64, got: u64, dx: i64, dy: i64)
    ensures { Prints E.Sink err.old err.new
        (differs_at want got (codes "place " ++ (signed_decimal dx ++ (codes "," ++ signed_decimal dy)))
        ++ codes "\n") }
{
    let mut wanted = Buffer::new();
    let mut came = Buffer::new();
    let mut right = Buffer::new();
    let mut down = Buffer::new();
    let (want, got) = (wanted.format(want), came.format(got));
    let (dx, dy) = (right.format(dx), down.format(dy));
    tell_parts(
        err,
        &[
            "compare: Differs ",
            want,
            " ",
            got,
            " place ",
            dx,
            ",",
            dy,
            "\n",
        ],
    );
}

/// Prints how far a time is from the expected one.
#[tactic(auto, unfolding(compare_text::specs::Lines::differs_at))]
fn tell_time<E: Sink>(err: &mut E, want: u64, got: u64, us: i64)
    ensures { Prints E.Sink err.old err.new (differs_at want got (codes "time " ++ signed_decimal us) ++ codes "\n") }
{
    let mut wanted = Buffer::new();
    let mut came = Buffer::new();
    let mut late = Buffer::new();
    let (want, got, us) = (wanted.format(want), came.format(got), late.format(us));
    tell_parts(
        err,
        &["compare: Differs ", want, " ", got, " time ", us, "\n"],
    );
}

/// Prints the lines of two points that do not agree, and in what they differ.
#[tactic(auto, unfolding(compare_text::specs::Lines::refusal_line, compare_text::specs::Lines::difference_words))]
pub(crate) fn tell_differs<E: Sink>(err: &mut E, want: u64, got: u64, what: Difference)
    ensures { Prints E.Sink err.old err.new (refusal_line (Differs want got what) ++ codes "\n") }
{
    match what {
        Difference::Kind => tell_word(err, want, got, "kind"),
        Difference::Device => tell_word(err, want, got, "device"),
        Difference::Action => tell_word(err, want, got, "action"),
        Difference::Index => tell_word(err, want, got, "index"),
        Difference::Flags => tell_word(err, want, got, "flags"),
        Difference::Pointers => tell_word(err, want, got, "pointers"),
        Difference::Place { dx, dy } => tell_place(err, want, got, dx, dy),
        Difference::Scan => tell_word(err, want, got, "scan"),
        Difference::Code => tell_word(err, want, got, "code"),
        Difference::Meta => tell_word(err, want, got, "meta"),
        Difference::Direction => tell_word(err, want, got, "direction"),
        Difference::Repeat => tell_word(err, want, got, "repeat"),
        Difference::Focus => tell_word(err, want, got, "focus"),
        Difference::Time { us } => tell_time(err, want, got, us),
    }
}
