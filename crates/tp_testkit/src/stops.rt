//! Where a device stops.

ghost use Rattle.std.specs.Prelude.{◌≡◌};
ghost use Rattle.tp_testkit.specs.Stopping.{share_of, stop_after};

/// Where a device stops.
#[derive(Clone, Copy, Debug, PartialEq, Eq)]
pub enum Stop {
    /// Nowhere.
    Never,
    /// Behind so many bytes: then each call fails.
    Bytes(usize),
    /// Behind so many calls: then one call fails, and no other.
    Call(usize),
}

impl Stop {
    /// How many of so many bytes go through in a call. None, if it fails.
    pub(crate) fn share(self, count: usize) -> Option<usize>
        ensures { result ≡ share_of self count }
    {
        match self {
            Stop::Never => Some(count),
            Stop::Bytes(room) => {
                if room == 0 {
                    return None;
                }
                Some(room.min(count))
            }
            Stop::Call(calls) => {
                if calls == 0 {
                    return None;
                }
                Some(count)
            }
        }
    }

    /// Where it is behind a call in which so many bytes went through.
    pub(crate) fn after(self, count: usize) -> Stop
        ensures { result ≡ stop_after self count }
    {
        match self {
            Stop::Never => Stop::Never,
            Stop::Bytes(room) => Stop::Bytes(room.saturating_sub(count)),
            Stop::Call(calls) => {
                if calls == 0 {
                    return Stop::Never;
                }
                Stop::Call(calls - 1)
            }
        }
    }
}
