//! The edges of a reason, read from its words.

ghost use Rattle.std.specs.Prelude.{◌≡◌, List, IfOk};
ghost use Rattle.tp_script.specs.Words.{words_of};
ghost use Rattle.tp_journal_pairs.specs.Edges.{begins, past_of, edge_of, edges_of, ReadsReason};

use std::alloc::{AllocError, Global};
use tp_bounds::{BoundId, Edge, Reason};
use tp_script::{next_word, read_event, read_moment};

/// Whether a word begins with that part.
pub fn begins_with(word: &[u8], part: &[u8]) -> bool
    ensures { result ≡ begins part.now word.now }
{
    part.len() <= word.len() && &word[..part.len()] == part
}

/// The edge of a dispatched event's moment, without its first letters.
fn read_past(word: &[u8]) -> Option<Edge>
    ensures { result ≡ past_of word.now }
{
    if word.is_empty() {
        return None;
    }
    let (front, last) = word.split_at(word.len() - 1);
    if last == b"+".as_slice() {
        Some(Edge::PastHigh(read_event(front)?))
    } else if last == b"-".as_slice() {
        Some(Edge::PastLow(read_event(front)?))
    } else {
        None
    }
}

/// The edge that a word spells.
pub fn read_edge(word: &[u8]) -> Option<Edge>
    ensures { result ≡ edge_of word.now }
{
    if word == b"new".as_slice() {
        Some(Edge::New)
    } else if begins_with(word, b"now") {
        Some(Edge::Now(read_event(&word[3..])?))
    } else if begins_with(word, b"end") {
        Some(Edge::End(read_event(&word[3..])?))
    } else if begins_with(word, b"past") {
        read_past(&word[4..])
    } else if begins_with(word, b"b") {
        Some(Edge::Own(BoundId(read_moment(&word[1..])?)))
    } else {
        None
    }
}

/// The edges that the words of a text spell, if each spells one.
pub(crate) fn read_reason(alloc: Global, text: &[u8]) -> Result<Option<Reason>, AllocError>
    ensures { IfOk result (λ reason. ReadsReason reason (edges_of (words_of text.now))) }
{
    let mut rest = text;
    let mut edges = Vec::new(alloc);
    loop {
        let (word, more) = next_word(rest);
        if word.is_empty() {
            return Ok(Some(Reason { edges }));
        }
        let Some(edge) = read_edge(word) else {
            return Ok(None);
        };
        edges.push(edge)?;
        rest = more;
    }
}
