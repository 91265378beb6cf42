//! A journal that goes on: further lines of commands are answered, and their pairs follow what the
//! log holds already.

ghost use Rattle.std.specs.Prelude.{◌≡◌};
ghost use Rattle.tp_journal_pairs.specs.Writing.{log_failures, read_failures, write_failures};
ghost use Rattle.tp_journal_pairs.specs.GoingOn.{GoesOn};

use crate::faults::JournalFault;
use crate::writing::{Turn, take_turn};
use tp_device::{Sink, Source};
use tp_exec_machine::Executive;
use tp_net::Net;
use tp_script::{Lines, Served};

/// Answers all lines, as `journal` does, on an executive that answered others before, and writes
/// for each line that has an answer its pair to the log, before the answer goes out. No head is
/// written. After a fault the executive is as after the lines that were read whole.
///
/// # Errors
/// Those of `journal`.
pub fn journal_on<N: Net, R: Source, W: Sink, V: Sink>(
    executive: &mut Executive<N>,
    lines: &mut Lines<'_, R>,
    answers: &mut W,
    log: &mut V,
) -> Result<Served, JournalFault>
    requires { lines.old.longest ≡ 256 }
    ensures goes { GoesOn executive.old executive.new lines.old lines.new (W.held answers.old)
        (W.held answers.new) (V.held log.old) (V.held log.new) result }
    ensures longest { lines.new.longest ≡ lines.old.longest }
    ensures most { lines.new.most ≡ lines.old.most }
    ensures source { lines.new.source ≡ lines.old.source }
    ensures read { lines.new.failures ≡ read_failures lines.old.failures result }
    ensures write { W.failures answers.new ≡ write_failures (W.failures answers.old) result }
    ensures log { V.failures log.new ≡ log_failures (V.failures log.old) result }
{
    let mut commands = 0u64;
    loop {
        match take_turn(executive, lines, answers, log) {
            Ok(Turn::Answered(n)) => commands += n,
            Ok(Turn::Over) => return Ok(Served { commands }),
            Err(fault) => return Err(fault),
        }
    }
}
