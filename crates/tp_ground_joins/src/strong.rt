//! Which actions can happen whole, in the delete relaxation: the start of one, and then, where its
//! invariant is met too, its end. Where these are too many, some of them.

use std::alloc::{AllocError, Global};
use tp_task::{Body, Cond, met};

/// How far an action is: whether it can start, whether it can happen whole, and whether it reached
/// an atom first.
#[derive(Clone, Copy)]
struct Progress {
    started: bool,
    whole: bool,
    first: bool,
}

const NONE: Progress = Progress {
    started: false,
    whole: false,
    first: false,
};

/// The atoms that are reached, and how far each action is.
#[derive(Drop)]
pub(crate) struct Strong<'b> {
    alloc: Global,
    bodies: &'b [Body],
    pub(crate) reach: Vec<bool>,
    progress: Vec<Progress>,
    /// Of each atom, the actions whose conditions mention it.
    waiting: Vec<Vec<u32>>,
    /// The atoms that are reached and not yet told to those that wait for them.
    fresh: Vec<u32>,
}

fn is_marked(marks: &[bool], at: usize) -> bool {
    marks.get(at).copied().unwrap_or(false)
}

fn mark(marks: &mut [bool], at: usize) {
    if let Some(mark) = marks.get_mut(at) {
        *mark = true;
    }
}

fn empty_lists(alloc: Global, count: usize) -> Result<Vec<Vec<u32>>, AllocError> {
    let mut lists = Vec::new(alloc);
    for _ in 0..count {
        lists.push(Vec::new(alloc))?;
    }
    Ok(lists)
}

impl<'b> Strong<'b> {
    fn new(alloc: Global, bodies: &'b [Body], reach: Vec<bool>) -> Result<Self, AllocError> {
        let waiting = empty_lists(alloc, reach.len())?;
        let progress = Vec::from_elem(alloc, NONE, bodies.len())?;
        Ok(Strong {
            alloc,
            bodies,
            reach,
            progress,
            waiting,
            fresh: Vec::new(alloc),
        })
    }

    fn progress_of(&self, action: usize) -> Progress {
        self.progress.get(action).copied().unwrap_or(NONE)
    }

    fn set_progress(&mut self, action: usize, progress: Progress) {
        if let Some(at) = self.progress.get_mut(action) {
            *at = progress;
        }
    }

    // An action waits for an atom. Where it does already, it is the last that does.
    fn wait_for(&mut self, atom: u32, action: u32) -> Result<(), AllocError> {
        if is_marked(&self.reach, atom as usize) {
            return Ok(());
        }
        if let Some(list) = self.waiting.get_mut(atom as usize) {
            if list.last() != Some(&action) {
                list.push(action)?;
            }
        }
        Ok(())
    }

    #[cycle(wait)]
    fn wait_parts(
        &mut self,
        conds: &[Cond],
        positive: bool,
        action: u32,
    ) -> Result<(), AllocError> {
        for cond in conds {
            self.wait(cond, positive, action)?;
        }
        Ok(())
    }

    // An action waits for the atoms that a condition, or its negation, asks for.
    #[cycle(wait)]
    fn wait(&mut self, cond: &Cond, positive: bool, action: u32) -> Result<(), AllocError> {
        match cond {
            Cond::Atom(atom) if positive => self.wait_for(*atom, action),
            Cond::Atom(_) | Cond::Compare(_, _, _) => Ok(()),
            Cond::Not(inner) => self.wait(inner, !positive, action),
            Cond::And(conds) | Cond::Or(conds) => self.wait_parts(conds, positive, action),
        }
    }

    fn wait_body(&mut self, body: &Body, action: u32) -> Result<(), AllocError> {
        match body {
            Body::Instant(only) => self.wait(&only.condition, true, action),
            Body::Durative(start, end, invariant) => {
                self.wait(&start.condition, true, action)?;
                self.wait(invariant, true, action)?;
                self.wait(&end.condition, true, action)
            }
        }
    }

    fn wait_all(&mut self) -> Result<(), AllocError> {
        let bodies = self.bodies;
        let mut action: u32 = 0;
        for body in bodies {
            self.wait_body(body, action)?;
            action = action.saturating_add(1);
        }
        Ok(())
    }

    // Atoms are reached by an action; whether one of them is new.
    fn add(&mut self, atoms: &[u32]) -> Result<bool, AllocError> {
        let before = self.fresh.len();
        for atom in atoms {
            if !is_marked(&self.reach, *atom as usize) {
                mark(&mut self.reach, *atom as usize);
                self.fresh.push(*atom)?;
            }
        }
        Ok(self.fresh.len() > before)
    }

    // An action can start.
    fn start(&mut self, action: usize, adds: &[u32], whole: bool) -> Result<(), AllocError> {
        let first = self.add(adds)?;
        let progress = Progress {
            started: true,
            whole,
            first,
        };
        self.set_progress(action, progress);
        Ok(())
    }

    // An action that can start can end.
    fn end(&mut self, action: usize, adds: &[u32]) -> Result<(), AllocError> {
        let first = self.add(adds)?;
        let before = self.progress_of(action);
        let progress = Progress {
            started: true,
            whole: true,
            first: before.first || first,
        };
        self.set_progress(action, progress);
        Ok(())
    }

    fn can_start(&self, action: usize, condition: &Cond) -> bool {
        !self.progress_of(action).started && met(&self.reach, true, condition)
    }

    fn can_end(&self, action: usize, invariant: &Cond, condition: &Cond) -> bool {
        let progress = self.progress_of(action);
        progress.started
            && !progress.whole
            && met(&self.reach, true, invariant)
            && met(&self.reach, true, condition)
    }

    // Looks how far an action can go now.
    fn look(&mut self, action: usize) -> Result<(), AllocError> {
        let bodies = self.bodies;
        match bodies.get(action) {
            Some(Body::Instant(only)) => {
                if self.can_start(action, &only.condition) {
                    self.start(action, &only.adds, true)?;
                }
            }
            Some(Body::Durative(start, end, invariant)) => {
                if self.can_start(action, &start.condition) {
                    self.start(action, &start.adds, false)?;
                }
                if self.can_end(action, invariant, &end.condition) {
                    self.end(action, &end.adds)?;
                }
            }
            None => {}
        }
        Ok(())
    }

    // Looks at the actions that wait for an atom, which is told of once.
    fn tell(&mut self, atom: u32) -> Result<(), AllocError> {
        let none = Vec::new(self.alloc);
        let Some(list) = self.waiting.get_mut(atom as usize) else {
            return Ok(());
        };
        let waiting = std::mem::replace(list, none);
        for action in &waiting {
            self.look(*action as usize)?;
        }
        Ok(())
    }

    fn spread(&mut self) -> Result<(), AllocError> {
        for action in 0..self.bodies.len() {
            self.look(action)?;
        }
        for place in 0..self.reach.len() {
            let Some(atom) = self.fresh.get(place).copied() else {
                break;
            };
            self.tell(atom)?;
        }
        Ok(())
    }

    // How many actions can happen whole; of those that reached an atom first, if only these count.
    pub(crate) fn count(&self, first: bool) -> usize {
        let mut count: usize = 0;
        for progress in &self.progress {
            if progress.whole && (progress.first || !first) {
                count = count.saturating_add(1);
            }
        }
        count
    }

    // Leaves no more than so many actions: those that reached an atom first, by which all atoms are
    // still reached, and of the others an even share.
    pub(crate) fn thin_out(&mut self, most: usize) {
        let firsts = self.count(true);
        let others = self.count(false).saturating_sub(firsts);
        let room = most.saturating_sub(firsts).min(others);
        let mut sum: usize = 0;
        for progress in self.progress.iter_mut() {
            if progress.whole && !progress.first {
                sum = sum.saturating_add(room);
                progress.whole = sum >= others;
                if progress.whole {
                    sum = sum.saturating_sub(others);
                }
            }
        }
    }

    pub(crate) fn marks(&self) -> Result<Vec<bool>, AllocError> {
        let mut marks = Vec::with_capacity(self.alloc, self.progress.len())?;
        for progress in &self.progress {
            marks.push(progress.whole)?;
        }
        Ok(marks)
    }
}

/// How far actions come where some atoms are true at first.
pub(crate) fn strong_reach<'b>(
    alloc: Global,
    bodies: &'b [Body],
    truths: Vec<bool>,
) -> Result<Strong<'b>, AllocError> {
    let mut strong = Strong::new(alloc, bodies, truths)?;
    strong.wait_all()?;
    strong.spread()?;
    Ok(strong)
}
