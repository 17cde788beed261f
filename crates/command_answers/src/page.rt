//! `--help` and `--version`: the texts that the program prints about itself.
ghost use Rattle.std.specs.Prelude.{Ok, Err, IfOk, IfErr};
ghost use Rattle.command_files.specs.Refusing.{RefusesSo};
ghost use Rattle.command_answers.specs.Page.{Shows};

use command_files::Refusal;
use command_words::Page;
use help_text::page_text;
use std::alloc::Global;
use text_pieces::Pieces;

/// The text of a page.
pub fn answer_page(alloc: Global, page: Page) -> Result<Pieces, Refusal>
    ensures ok { IfOk result (λ text. Shows page (Ok text)) }
    ensures err { IfErr result (RefusesSo (λ r. Shows page (Err r))) }
{
    Ok(Pieces::of(alloc, page_text(page).as_bytes().to_vec(alloc)?))
}
