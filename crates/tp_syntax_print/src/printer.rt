//! A writer that is handed nothing more once it has failed. So what is printed is said form by
//! form, and what a failure left is a first part of it.

ghost use Rattle.std.specs.Prelude.{◌≡◌, Ok};
ghost use Rattle.tp_syntax_print.specs.Printers.{Prints};

use tp_device::{Failed, Sink, push_all};

// Where a domain is printed to, and what came of it so far.
#[derive(Drop)]
pub struct Printer<'w, W: Sink> {
    writer: &'w mut W,
    outcome: Result<(), Failed>,
}

impl<'w, W: Sink> Printer<'w, W> {
    // To a writer, of which no failure is known yet.
    pub fn new(writer: &'w mut W) -> Printer<'w, W>
        ensures same { result.writer.ghost_name ≡ writer.entry.ghost_name }
        ensures held { W.held result.writer.now ≡ W.held writer.old }
        ensures failures { W.failures result.writer.now ≡ W.failures writer.old }
        ensures fresh { result.outcome ≡ Ok tt }
    {
        Printer {
            writer,
            outcome: Ok(()),
        }
    }

    // Hands over some bytes, unless the writer has failed.
    pub fn put(&mut self, bytes: &[u8])
        ensures { Prints W.held W.failures self.old self.new bytes.now }
    {
        if self.outcome.is_ok() {
            self.outcome = push_all(self.writer, bytes);
        }
    }

    // Whether the writer has failed.
    pub fn outcome(&self) -> Result<(), Failed>
        ensures { result ≡ self.now.outcome }
    {
        self.outcome
    }
}
