//! Words looked up and written out by the numbers of their names.

ghost use Rattle.std.specs.Prelude.{◌≡◌, ◌∷◌, [], ◌++◌, map, length, option_map, slice_get, IfOk, OnOk, slice_index_or, string_bytes, IfSome, is_some, ◌+◌, ◌<◌, ◌^◌, false, Some, MatchOption};
ghost use Rattle.std.specs.List.{AllByRecursion, IsDistinct, list_any, position_from};
ghost use Rattle.std.specs.Str.{bytes_eq};
ghost use Rattle.tp_task.specs.Words.{same_words, text_of_words};
ghost use Rattle.tp_task.specs.Labels.{named, are_known, AreNamed};

use crate::labels::{INLINE, Label, Labels};
use indexmap::IndexSet;
use smallvec::SmallVec;
use std::alloc::AllocError;

// Whether a number's name is this word.
fn is_name(names: &IndexSet<String>, number: usize, word: &str) -> bool
    ensures { result
        ≡ bytes_eq word.now (slice_index_or (map string_bytes names.now.keys) number []) }
{
    match names.get_index(number) {
        Some(name) => word == name.as_str(),
        None => word.is_empty(),
    }
}

// Whether numbers' names are these words.
fn are_names(names: &IndexSet<String>, numbers: &[usize], words: &[&str]) -> bool
    ensures { result ≡ same_words
        (map (λ w. w.now) words.now) (named (map string_bytes names.now.keys) numbers.now) }
{
    let mut left = words;
    let mut open = numbers;
    'pairs: while let [word, more @ ..] = left {
        let [number, others @ ..] = open else {
            return false;
        };
        if !is_name(names, *number, *word) {
            return false;
        }
        left = more;
        open = others;
    }
    open.is_empty()
}

// Whether a label has exactly these words: a name and its objects.
fn is_called(names: &IndexSet<String>, label: &[usize], name: &str, args: &[&str]) -> bool
    ensures { result ≡ same_words
        (name.now ∷ map (λ w. w.now) args.now) (named (map string_bytes names.now.keys) label.now) }
{
    match label {
        [first, rest @ ..] => is_name(names, *first, name) && are_names(names, rest, args),
        [] => false,
    }
}

// Where the first label of these words stands: a name and its objects.
fn find_by_names(
    names: &IndexSet<String>,
    labels: &Labels,
    name: &str,
    args: &[&str],
) -> Option<usize>
    ensures { result ≡ position_from (same_words (name.now ∷ map (λ a. a.now) args.now)) 0
        (map (named (map string_bytes names.now.keys)) labels.now) }
{
    for place in 0..labels.len() {
        if is_called(names, labels.at(place), name, args) {
            return Some(place);
        }
    }
    None
}

/// The number of a name; None if it has none.
pub fn known_number(names: &IndexSet<String>, name: &str) -> Option<usize>
    ensures index { IfSome result
        (λ i. slice_get (map string_bytes names.now.keys) i ≡ Some name.now) }
    ensures found { is_some result
        ≡ list_any (bytes_eq name.now) (map string_bytes names.now.keys) }
{
    names.get_index_of(name)
}

// The label of a name and a few objects; None if one of them has no number.
fn short_label(names: &IndexSet<String>, name: &str, args: &[&str]) -> Option<Label>
    requires few { length args.now < INLINE }
    ensures { MatchOption result
        (are_known (map string_bytes names.now.keys)
        (name.now ∷ map (λ a. a.now) args.now) ≡ false)
        (λ l. (named (map string_bytes names.now.keys) l.items
        ≡ name.now ∷ map (λ a. a.now) args.now)
        × AreNamed (length (map string_bytes names.now.keys)) l.items) }
{
    let first = known_number(names, name)?;
    let mut label = SmallVec::new(*names.allocator());
    label.push_reserved(first);
    for arg in args {
        let number = known_number(names, *arg)?;
        label.push_reserved(number);
    }
    Some(label)
}

/// Where the first label of these words stands: a name and its objects. It takes no memory: the
/// numbers of few words fit in a label, and more words are compared in place.
pub fn find(names: &IndexSet<String>, labels: &Labels, name: &str, args: &[&str]) -> Option<usize>
    requires distinct { IsDistinct bytes_eq (map string_bytes names.now.keys) }
    requires named { AllByRecursion
        (AreNamed (length (map string_bytes names.now.keys))) labels.now }
    ensures { result ≡ position_from (same_words (name.now ∷ map (λ a. a.now) args.now)) 0
        (map (named (map string_bytes names.now.keys)) labels.now) }
{
    if args.len() >= INLINE {
        return find_by_names(names, labels, name, args);
    }
    match short_label(names, name, args) {
        Some(label) => labels.position(&label),
        None => None,
    }
}

/// The words of a label as text, with one space between.
pub fn text_of(names: &IndexSet<String>, label: &[usize]) -> Result<String, AllocError>
    ensures { IfOk result
        (λ s. string_bytes s ≡ text_of_words (named (map string_bytes names.now.keys) label.now)) }
{
    let mut text = String::from_str(*names.allocator(), "(")?;
    if let [first, rest @ ..] = label {
        push_name(&mut text, names, *first)?;
        for number in rest {
            text.push_str(" ")?;
            push_name(&mut text, names, *number)?;
        }
    }
    text.push_str(")")?;
    Ok(text)
}

// The name of a number, after what stands there.
fn push_name(text: &mut String, names: &IndexSet<String>, number: usize) -> Result<(), AllocError>
    ensures { OnOk result (string_bytes text.new
        ≡ string_bytes text.old ++ slice_index_or (map string_bytes names.now.keys) number []) }
{
    match names.get_index(number) {
        Some(name) => text.push_str(name.as_str()),
        None => Ok(()),
    }
}

/// A word of a label.
pub fn word_of<'a>(names: &'a IndexSet<String>, label: &[usize], place: usize) -> Option<&'a str>
    requires { AreNamed (length (map string_bytes names.now.keys)) label.now }
    ensures few { IfSome result (λ _. place + 1 < 2 ^ 64) }
    ensures word { option_map (λ w. w.now) result
        ≡ slice_get (named (map string_bytes names.now.keys) label.now) place }
{
    // No slice has 2^64 elements.
    let _count = label.len();
    match label.get(place) {
        Some(number) => match names.get_index(*number) {
            Some(name) => Some(name.as_str()),
            None => None,
        },
        None => None,
    }
}
