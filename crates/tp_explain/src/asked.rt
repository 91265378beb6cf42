//! Whether words ask for explanations.

ghost use Rattle.std.specs.Prelude.{IfSome};
ghost use Rattle.std.specs.String.{string_bytes};
ghost use Rattle.tp_explain.specs.Asked.{IsExplain, IsPlain};

/// The option that asks for explanations.
const EXPLAIN: &str = "--explain";

/// The word behind which all words are files.
const FILES: &str = "--";

/// Whether another word than the first `skipped` asks for explanations, before all words are files.
fn asks_behind(skipped: usize, words: &[String]) -> bool {
    let mut left = skipped;
    for word in words {
        if word.as_str() == FILES {
            return false;
        }
        if word.as_str() == EXPLAIN {
            if left == 0 {
                return true;
            }
            left -= 1;
        }
    }
    false
}

/// Whether explanations are asked for: one of the words does, before all words are files.
pub fn explains(words: &[String]) -> bool {
    asks_behind(0, words)
}

/// The place of the first word that asks for explanations.
fn first_explain(words: &[String]) -> Option<usize>
    ensures { IfSome result (IsExplain string_bytes words.now) }
{
    for (place, word) in words.iter().enumerate() {
        if word.as_str() == EXPLAIN {
            return Some(place);
        }
    }
    None
}

/// The words of the call without the one that asks for explanations. Where two do, all of them:
/// they are refused.
pub(crate) fn without_explain(words: Vec<String>) -> Vec<String>
    ensures { IsPlain string_bytes words.items result.items }
{
    let mut words = words;
    if asks_behind(1, words.as_slice()) {
        return words;
    }
    if let Some(place) = first_explain(words.as_slice()) {
        let _explain = words.remove(place);
    }
    words
}
