//! The agents of events, read from a text.

ghost use Rattle.std.specs.Prelude.{◌≡◌, ◌<◌, IfOk, IfErr};
ghost use Rattle.tp_agents.specs.Texts.{is_blank, words_of, number_of, is_number, AreNumbers, TellsWord, IsUnread};
ghost use Rattle.std.specs.List.{list_all};
ghost use Rattle.std.specs.Char.{is_ascii_digit};

use crate::fault::SplitFault;
use crate::owners::Owners;
use std::alloc::Global;

/// Whether a byte stands between words.
fn is_blank(b: u8) -> bool
    ensures { result ≡ is_blank b }
{
    b == b' ' || (b'\t' <= b && b <= b'\r')
}

fn all_digits(word: &[u8]) -> bool
    ensures { result ≡ list_all is_ascii_digit word.now }
{
    word.iter().all(|b| b.is_ascii_digit())
}

/// Whether a word is one to four digits.
fn is_number(word: &[u8]) -> bool
    ensures { result ≡ is_number word.now }
{
    !word.is_empty() && word.len() <= 4 && all_digits(word)
}

/// The number that a word of one to four digits spells.
fn number(word: &[u8]) -> Option<u16>
    ensures { result ≡ number_of word.now }
{
    if !is_number(word) {
        return None;
    }
    let mut number = 0u16;
    for digit in word {
        number = number * 10 + u16::from(*digit - b'0');
    }
    Some(number)
}

/// The fault of a word that is no number, by how many words came before it. A text with more words
/// than there are numbers for them is out of memory.
fn other_word(before: usize) -> SplitFault
    ensures { TellsWord before result }
{
    match u32::try_from(before) {
        Ok(k) => SplitFault::Owner(k),
        Err(_) => SplitFault::Memory,
    }
}

/// The agents of events, by event: whole numbers of one to four digits between blanks, which are
/// those of planning texts. It goes over the text once.
///
/// # Errors
/// `Owner` of the first word that is no such number, counted from 0; `Memory`.
pub fn read_owners(alloc: Global, text: &str) -> Result<Owners, SplitFault>
    ensures ok { IfOk result (AreNumbers (words_of text.now)) }
    ensures err { IfErr result (IsUnread (words_of text.now)) }
{
    let mut agents = Vec::new(alloc);
    for word in text.as_bytes().split(|b| is_blank(*b)) {
        if word.is_empty() {
            continue;
        }
        match number(word) {
            Some(agent) => agents.push(agent)?,
            None => return Err(other_word(agents.len())),
        }
    }
    Ok(Owners::new(agents))
}
