//! The sections of a problem.

ghost use Rattle.std.specs.Prelude.{◌≡◌, map};
ghost use Rattle.tp_syntax_ast.specs.Terms.{shapes};
ghost use Rattle.tp_syntax_ast.specs.Problems.{section, once_each};
ghost use Rattle.tp_syntax.specs.ProblemViews.{section_body_view};
ghost use Rattle.tp_syntax_ast.specs.Gives.{Gives};

use crate::keyed::{ItemKind, SectionItem, SectionWord, find_or_empty, read_parts};
use std::alloc::Global;
use tp_syntax_ast::{LeftOutPart, ProblemSection, SyntaxFault, is_word, problem_section_of};
use tp_text::{Token, Tree};

impl ItemKind for ProblemSection {
    ghost use Rattle.std.specs.Prelude.{false};
    ghost use Rattle.tp_syntax_ast.specs.Problems.{section_number};

    ghost number = { section_number };

    ghost may_repeat = { λ _. false };

    fn number(self) -> u8 {
        match self {
            ProblemSection::Requirements => 0,
            ProblemSection::Objects => 1,
            ProblemSection::Init => 2,
            ProblemSection::Goal => 3,
            ProblemSection::Metric => 4,
            ProblemSection::Length => 5,
        }
    }

    fn may_repeat(self) -> bool {
        false
    }
}

impl SectionWord for ProblemSection {
    ghost use Rattle.tp_syntax_ast.specs.Words.{problem_section_of};

    ghost kind_of = { problem_section_of };

    fn kind_of(word: &str) -> Option<ProblemSection> {
        problem_section_of(word)
    }

    fn fault(word: &Token, at: u32) -> SyntaxFault {
        if is_word(word.text, ":constraints") {
            SyntaxFault::LeftOut(at, LeftOutPart::Constraint)
        } else {
            SyntaxFault::Shape(at)
        }
    }
}

/// The section of a kind; if it is missing, an empty one at `at`.
pub fn find_section<'t, 'a>(
    kind: ProblemSection,
    parts: &[SectionItem<'t, 'a, ProblemSection>],
    at: u32,
) -> SectionItem<'t, 'a, ProblemSection>
    ensures { shapes result.body.now ≡ section kind (map section_body_view parts.now) }
{
    find_or_empty(kind, parts, at)
}

/// The sections that these trees are, each at most once. The problem is at `at`.
pub fn once_each<'t, 'a>(
    alloc: Global,
    trees: &'t [Tree<'a>],
    at: u32,
) -> Result<Vec<SectionItem<'t, 'a, ProblemSection>>, SyntaxFault>
    ensures { Gives (λ v. map section_body_view v.items) result (once_each (shapes trees.now)) }
{
    read_parts(alloc, trees, at)
}
