//! The files of a call, and where it tells how far it is.

/// The files that a call reads, those that it makes for journals, and where plans are told of as
/// they are found.
#[derive(Drop)]
pub struct Desk<N, L, B> {
    pub shelf: N,
    pub logs: L,
    pub board: B,
}
