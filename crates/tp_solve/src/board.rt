//! What is told of a plan as it is found.

ghost use Rattle.std.specs.Prelude.{◌≡◌, false};

use itoa::Buffer;
use std::io::{Result, Write};

fn write_number<B: Write>(board: &mut B, n: u32) -> Result<()> {
    board.write_all(Buffer::new().format(n).as_bytes())
}

fn write_line<B: Write>(board: &mut B, makespan: u32, expanded: u32) -> Result<()> {
    board.write_all(b"makespan ")?;
    write_number(board, makespan)?;
    board.write_all(b" expanded ")?;
    write_number(board, expanded)?;
    board.write_all(b"\n")
}

/// Tells the makespan of a plan that was found after so many expansions, if that is wished for.
/// Where it can't be written, it is left out.
pub(crate) fn tell<B: Write>(board: &mut B, wished: bool, makespan: u32, expanded: u32)
    ensures { wished ≡ false → board.new ≡ board.old }
{
    if wished {
        let _written = write_line(board, makespan, expanded);
    }
}
