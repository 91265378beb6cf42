//! Where the whole pairs of a journal end.

ghost use Rattle.std.specs.Prelude.{◌≡◌, ◌⊎◌, ◌∷◌, ◌-◌, ◌<◌, ◌≤◌, drop, length};
ghost use Rattle.tp_script.specs.Reading.{Free};
ghost use Rattle.tp_journal.specs.Replay.{IsTornPair};

/// Where the last line begins: behind the last LF, if there is one.
fn last_line(bytes: &[u8]) -> usize
    ensures within { result ≤ length bytes.now }
    ensures free { Free (drop result bytes.now) }
    ensures behind { (result ≡ 0) ⊎ ((0 < result)
        × (drop (result - 1) bytes.now ≡ 10 ∷ drop result bytes.now)) }
{
    let mut at = bytes.len();
    while at > 0 {
        if bytes[at - 1] == b'\n' {
            return at;
        }
        at -= 1;
    }
    0
}

/// How many bytes stand before the last pair of a journal where that was cut off; else how many
/// there are. What is behind them begins with `>`, as a question does, and has at most one end of a
/// line. It looks at the last two lines.
pub fn whole_pairs(bytes: &[u8]) -> usize
    ensures within { result ≤ length bytes.now }
    ensures torn { IsTornPair (drop result bytes.now) }
{
    let last = last_line(bytes);
    if last < bytes.len() && bytes[last] == b'>' {
        return last;
    }
    if last == 0 {
        return bytes.len();
    }
    let before = last_line(&bytes[..last - 1]);
    if bytes[before] == b'>' {
        return before;
    }
    bytes.len()
}
