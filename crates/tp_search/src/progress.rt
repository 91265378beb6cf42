//! How far a search is, told as it goes on. It has no say in what the search comes to.

ghost use Rattle.std.specs.Prelude.{◌≡◌, false};

use itoa::Buffer;
use std::io::{Result, Write};
use tp_search_frontier::Frontier;

/// After how many expansions it is told again.
const EACH: u32 = 100_000;

fn write_counted<B: Write>(board: &mut B, words: &[u8], n: u64) -> Result<()> {
    board.write_all(words)?;
    board.write_all(Buffer::new().format(n).as_bytes())
}

fn write_line<B: Write>(board: &mut B, expanded: u32, waiting: u64, lacking: u64) -> Result<()> {
    write_counted(board, b"expanded ", u64::from(expanded))?;
    write_counted(board, b" waiting ", waiting)?;
    write_counted(board, b" lacking ", lacking)?;
    board.write_all(b"\n")
}

/// Tells after each 100,000 expansions how many there were, how many nodes wait, and the least
/// number of goal conjuncts that a node lacked, if that is wished for. Where it can't be written,
/// it is left out.
pub(crate) fn tell<B: Write>(
    board: &mut B,
    wished: bool,
    frontier: &Frontier,
    expanded: u32,
    lacking: usize,
)
    ensures { wished ≡ false → board.new ≡ board.old }
{
    if wished && expanded % EACH == 0 {
        let _written = write_line(board, expanded, frontier.waiting() as u64, lacking as u64);
    }
}
