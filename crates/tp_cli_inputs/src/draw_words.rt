//! What words of a call for a picture name.

use tp_text::Scale;

/// The files of a plan, the ticks of a unit of its time, the end of the windows where it is given,
/// and the file of a journal, if a run is to be drawn.
#[derive(Clone, Copy)]
pub struct DrawWords<'w> {
    pub domain: &'w str,
    pub problem: &'w str,
    pub plan: &'w str,
    pub scale: Scale,
    pub horizon: Option<u32>,
    pub journal: Option<&'w str>,
}
