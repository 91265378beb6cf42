//! Journal files under names.

ghost use Rattle.std.specs.Prelude.{◌≡◌, ℕ, ◌+◌, suc, List, [], Option, option_map, IfOk, IfSome};
ghost use Rattle.tp_device.specs.Bytes.{failures_after};

use tp_device::{Failed, Sink};

/// Makes files under names, and keeps what was written to them.
pub trait Logs {
    /// A file that is written. It was made empty, and each of its pushes goes to the file at once.
    type Log: Sink + Drop;

    /// How many files were asked for so far, where that is told. One that could not be made counts,
    /// too.
    ghost asked: { Self → Option ℕ };

    /// The name of the file that was made last, where that is told.
    ghost named: { Self → Option (List ℕ) };

    /// What the file that was kept last holds, where that is told.
    ghost kept: { Self → Option (List ℕ) };

    /// How often a file could not be made, or a write to one that is kept failed.
    ghost failures: { Self → ℕ };

    // What a file holds as it is made, where that is told.
    ghost blank: { Option (List ℕ) };

    /// Makes the file of a name, empty. What stood under that name before is gone.
    fn make(&mut self, name: &str) -> Result<Self::Log, Failed>
        ensures asked { asked self.new ≡ option_map suc (asked self.old) }
        ensures blank { IfOk result (λ log. Self.Log.held log ≡ blank) }
        ensures named { IfOk result (λ _. IfSome (named self.new) (λ n. n ≡ name.now)) }
        ensures new { IfOk result (λ log. Self.Log.failures log ≡ 0) }
        ensures cause { failures self.new ≡ failures_after (failures self.old) result };

    /// Ends the writing of a file, which holds what its log does from then on, and whose failures
    /// count.
    fn keep(&mut self, log: Self::Log)
        ensures kept { kept self.new ≡ Self.Log.held log }
        ensures asked { asked self.new ≡ asked self.old }
        ensures named { named self.new ≡ named self.old }
        ensures cause { failures self.new ≡ failures self.old + Self.Log.failures log };

    // A file is made empty.
    ghost is_blank: { IfSome blank (λ bytes. bytes ≡ []) };
}
