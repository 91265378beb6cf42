//! The words under which comparisons and writes are printed.

ghost use Rattle.std.specs.Prelude.{◌≡◌};
ghost use Rattle.tp_syntax_print.specs.Words.{comparison_word, writing_word};

use tp_syntax_ast::{Comparison, Writing};

/// The word of a comparison.
pub fn comparison_word(comparison: Comparison) -> &'static [u8]
    ensures { result.now ≡ comparison_word comparison }
{
    match comparison {
        Comparison::Less => b"<",
        Comparison::AtMost => b"<=",
        Comparison::Equal => b"=",
        Comparison::AtLeast => b">=",
        Comparison::Greater => b">",
    }
}

/// The word of a write.
pub fn writing_word(writing: Writing) -> &'static [u8]
    ensures { result.now ≡ writing_word writing }
{
    match writing {
        Writing::Assign => b"assign",
        Writing::Increase => b"increase",
        Writing::Decrease => b"decrease",
        Writing::ScaleUp => b"scale-up",
    }
}
