//! Files under names, and the texts that they hold.

ghost use Rattle.std.specs.Prelude.{◌≡◌, ℕ, ◌+◌, List, Option, IfOk, IfErr};
ghost use Rattle.std.specs.String.{string_bytes};
ghost use Rattle.tp_device.specs.Bytes.{failures_after};
ghost use Rattle.tp_cli_files.specs.Causes.{counted, file_unread};
ghost use Rattle.tp_cli_files.specs.Texts.{HasFault, HoldsText};

use std::alloc::{AllocError, Global};
use tp_device::{Failed, Source};

/// Files under names.
pub trait Files {
    /// A file that is read.
    type Input: Source + Drop;

    /// What the file of a name holds, where that is told.
    ghost held: { Self → List ℕ → Option (List ℕ) };

    /// How often a file could not be opened, or a read of one that is closed failed.
    ghost failures: { Self → ℕ };

    /// Opens the file of a name at its first byte.
    fn open(&mut self, name: &str) -> Result<Self::Input, Failed>
        ensures bytes { IfOk result (λ input. Self.Input.left input ≡ held self.old name.now) }
        ensures new { IfOk result (λ input. Self.Input.failures input ≡ 0) }
        ensures same { (other : List ℕ) → held self.new other ≡ held self.old other }
        ensures cause { failures self.new ≡ failures_after (failures self.old) result };

    /// Ends the reading of a file, whose failures count from then on.
    fn close(&mut self, input: Self::Input)
        ensures same { (other : List ℕ) → held self.new other ≡ held self.old other }
        ensures cause { failures self.new ≡ failures self.old + Self.Input.failures input };
}

/// The most bytes of a text.
const LONGEST_TEXT: usize = 1_048_576;

/// Why a file gave no text.
#[derive(Clone, Copy, Debug, PartialEq, Eq)]
pub enum FileFault {
    /// Out of memory.
    Memory,
    /// It can't be opened, or a read failed.
    Read,
    /// Its bytes are no text.
    Utf8,
    /// It is longer than a text may be.
    TooLong,
}

impl From<AllocError> for FileFault {
    ghost use Rattle.tp_cli_files.specs.declared.files.FileFault.TheVariants.{Memory};

    ghost from_gives = { λ _ e. e ≡ Memory };

    fn from(_e: AllocError) -> FileFault {
        FileFault::Memory
    }
}

/// All bytes that a source has left, if they are no more than those of a text.
fn read_bytes<S: Source>(alloc: Global, source: &mut S) -> Result<Vec<u8>, FileFault>
    ensures whole { IfOk result (λ v. HoldsText (S.left source.old) v.items) }
    ensures fault { IfErr result (HasFault (S.left source.old)) }
    ensures cause { S.failures source.new ≡ counted file_unread (S.failures source.old) result }
{
    let mut chunk = [0; 4096];
    let mut bytes = Vec::new(alloc);
    while bytes.len() <= LONGEST_TEXT {
        let Ok(count) = source.pull(&mut chunk) else {
            return Err(FileFault::Read);
        };
        if count == 0 {
            return Ok(bytes);
        }
        bytes.extend_from_slice(&chunk[..count])?;
    }
    Err(FileFault::TooLong)
}

/// The text that a source has left.
pub fn read_text<S: Source>(alloc: Global, source: &mut S) -> Result<String, FileFault>
    ensures text { IfOk result (λ t. HoldsText (S.left source.old) (string_bytes t)) }
    ensures fault { IfErr result (HasFault (S.left source.old)) }
    ensures cause { S.failures source.new ≡ counted file_unread (S.failures source.old) result }
{
    let bytes = read_bytes(alloc, source)?;
    match String::from_utf8(bytes) {
        Ok(text) => Ok(text),
        Err(_) => Err(FileFault::Utf8),
    }
}

/// The text in the file of a name. That it can't be read is told only where a call failed.
pub fn open_text<F: Files>(alloc: Global, files: &mut F, name: &str) -> Result<String, FileFault>
    ensures text { IfOk result (λ t. HoldsText (F.held files.old name.now) (string_bytes t)) }
    ensures fault { IfErr result (HasFault (F.held files.old name.now)) }
    ensures same { (other : List ℕ) → F.held files.new other ≡ F.held files.old other }
    ensures cause { F.failures files.new ≡ counted file_unread (F.failures files.old) result }
{
    match files.open(name) {
        Ok(source) => {
            let mut source = source;
            let text = read_text(alloc, &mut source);
            files.close(source);
            text
        }
        Err(_) => Err(FileFault::Read),
    }
}
