ghost use Rattle.std.specs.Prelude.{[], OnOk, OnErr};
ghost use Rattle.text_output.specs.Passing.{CountsFaults, StopsPiece, StopsText, StopsWithin, WritesAll, WritesPiece, WritesText};

use outside_io::{Failed, Sink};
use text_pieces::Pieces;

/// Writes a piece: each write is handed all that remains of it.
fn write_piece<O: Sink>(out: &mut O, piece: &[u8]) -> Result<(), Failed>
    ensures ok { OnOk result (WritesPiece (O.writing out.old) (O.writing out.new) piece.now []) }
    ensures err { OnErr result (StopsPiece (O.writing out.old) (O.writing out.new) piece.now) }
    ensures faults { CountsFaults O.Sink out.old out.new result }
{
    let mut at = 0;
    'writes: while at < piece.len() {
        at += out.write(piece.split_at(at).1)?;
    }
    Ok(())
}

/// Writes all of the text as one piece.
pub fn write_all<O: Sink>(out: &mut O, text: &[u8]) -> Result<(), Failed>
    ensures ok { OnOk result (WritesAll (O.writing out.old) (O.writing out.new) text.now) }
    ensures err { OnErr result (StopsWithin (O.writing out.old) (O.writing out.new) text.now) }
    ensures faults { CountsFaults O.Sink out.old out.new result }
{
    write_piece(out, text)
}

/// Writes all pieces of the text, each as it stands there.
pub fn write_text<O: Sink>(out: &mut O, text: &Pieces) -> Result<(), Failed>
    ensures ok { OnOk result (WritesText (O.writing out.old) (O.writing out.new) text.now) }
    ensures err { OnErr result (StopsText (O.writing out.old) (O.writing out.new) text.now) }
    ensures faults { CountsFaults O.Sink out.old out.new result }
{
    let (before, last) = text.parts();
    for piece in before {
        write_piece(out, piece)?;
    }
    write_piece(out, last)
}
