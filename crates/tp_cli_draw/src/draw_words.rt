//! The plan and the horizon that words of a call name.

ghost use Rattle.std.specs.Prelude.{◌≡◌, ◌≤◌};
ghost use Rattle.tp_cli_draw.specs.Words.{plan_of};

use tp_cli_inputs::{DrawWords, PlanWords};

/// The greatest horizon.
const GREATEST_HORIZON: u32 = 1_000_000_000;

/// The plan that the words name, read with a horizon.
pub(crate) fn plan_words(words: DrawWords<'_>, horizon: u32) -> PlanWords<'_>
    ensures is { result ≡ plan_of words.entry horizon }
    ensures horizon { result.horizon ≡ horizon }
{
    PlanWords {
        domain: words.domain,
        problem: words.problem,
        plan: words.plan,
        scale: words.scale,
        horizon,
    }
}

/// The horizon that the words give, or else another one, but none past the greatest.
pub(crate) fn horizon_or(words: DrawWords<'_>, other: u32) -> u32
    ensures { result ≤ 1000000000 }
{
    words.horizon.unwrap_or(other).min(GREATEST_HORIZON)
}
