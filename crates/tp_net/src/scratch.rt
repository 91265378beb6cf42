//! A network for bounds between any two points, which keeps the least and the greatest moment of
//! each.
ghost use Rattle.std.specs.Prelude.{◌≡◌, ◌≢◌, ℕ, ◌<◌, ◌≤◌, ◌-◌, ◌++◌, ◌∷◌, [], length, slice_index, IfOk, OnOk, OnErr, replicate, MatchOption, suc};
ghost use Prim.Native.Nat.{max};
ghost use Rattle.std.specs.FinMap.{insert};
ghost use Rattle.tp_bounds.specs.declared.Edge.TheVariants.{Own};
ghost use Rattle.tp_net.specs.Arcs.{AllWait, CannotWait};
ghost use Rattle.tp_bounds.specs.Held.{held};
ghost use Rattle.tp_net.specs.NewNet.{new_setting};

use crate::edges::{
    arc, arcs_past, floor, named, names_past, number, raised, refutation, star, start_arc,
    stop_arc, without,
};
use crate::moments::{Added, add as add_arc, solve};
use crate::slacks::Arc;
use crate::{Net, NetFault};
use std::alloc::{AllocError, Global};
use std::collections::BTreeMap;
use std::marker::Model;
use tp_bounds::{Bound, BoundId, Edge, Point};

/// A network for bounds between any two points. It keeps its edges, by name and as arcs, and the
/// least and the greatest moment of each point.
#[derive(Drop)]
pub struct ScratchNet {
    horizon: u32,
    clock: u32,
    bounds: BTreeMap<u32, Bound>,
    fixed: Vec<Option<u32>>,
    lags: Vec<u32>,
    names: Vec<Edge>,
    arcs: Vec<Arc>,
    low: Vec<u64>,
    high: Vec<u64>,
}

impl Model for ScratchNet {
    ghost use Rattle.tp_bounds.specs.Setting.{Setting};
    ghost use Rattle.tp_bounds.specs.Codes.{coded_setting};
    ghost use Rattle.tp_net.specs.Kept.{IsKept};
    ghost use Rattle.tp_net.specs.Settled.{settled};

    ghost Value = { Setting };

    ghost coded = { coded_setting };

    ghost view = { λ a. settled a.horizon a.clock a.bounds.entries a.fixed.items a.lags.items };

    ghost invariant = { λ a. IsKept (settled a.horizon a.clock a.bounds.entries a.fixed.items
        a.lags.items) a.names.items a.arcs.items a.low.items a.high.items };
}

/// The greatest moments of the origin and of events that nothing keeps from the horizon.
pub fn tops(alloc: Global, events: u16, horizon: u32) -> Result<Vec<u64>, AllocError>
    ensures { IfOk result (λ r. r.items ≡ 0 ∷ replicate events horizon) }
{
    let all = vec![in alloc; u64::from(horizon); events as usize]?;
    let mut tops = Vec::new(alloc);
    tops.push(0)?;
    tops.extend_from_slice(&all)?;
    Ok(tops)
}

/// An event that is not dispatched and can't wait until the floor that it has at the moment, if
/// there is one.
pub fn late(fixed: &[Option<u32>], high: &[u64], lags: &[u32], now: u32) -> Option<u16>
    requires events { length fixed.now ≤ 1024 }
    requires points { length high.now ≡ suc (length fixed.now) }
    ensures { MatchOption result
        (AllWait fixed.now high.now lags.now now) (CannotWait fixed.now high.now lags.now now) }
{
    for e in 0..fixed.len() {
        if fixed[e].is_none() && high[e + 1] < u64::from(floor(lags, e as u16, now)) {
            return Some(e as u16);
        }
    }
    None
}

/// For each point the later of its least moment, and of its greatest one moved back.
fn between(alloc: Global, low: &[u64], high: &[u64], back: u64) -> Result<Vec<u64>, AllocError>
    requires { length low.now ≡ length high.now }
    ensures len { IfOk result (λ r. length r.items ≡ length low.now) }
    ensures each { IfOk result (λ r. (x : ℕ) → x < length low.now
        → slice_index r.items x ≡ max (slice_index low.now x) (slice_index high.now x - back)) }
{
    let mut between = Vec::new(alloc);
    for x in 0..low.len() {
        between.push(low[x].max(high[x].saturating_sub(back)))?;
    }
    Ok(between)
}

/// Puts a bound under its identifier, and its edge after the others. Where memory runs out, all is
/// as before.
fn enter(
    bounds: &mut BTreeMap<u32, Bound>,
    names: &mut Vec<Edge>,
    arcs: &mut Vec<Arc>,
    id: BoundId,
    bound: Bound,
    new: Arc,
) -> Result<(), AllocError>
    ensures bounds { OnOk result
        (held bounds.new.entries ≡ insert (held bounds.old.entries) id.0 bound) }
    ensures names { OnOk result (names.new.items ≡ names.old.items ++ Own id ∷ []) }
    ensures arcs { OnOk result (arcs.new.items ≡ arcs.old.items ++ new ∷ []) }
    ensures err_bounds { OnErr result (bounds.new.entries ≡ bounds.old.entries) }
    ensures err_names { OnErr result (names.new.items ≡ names.old.items) }
    ensures err_arcs { OnErr result (arcs.new.items ≡ arcs.old.items) }
{
    names.reserve(1)?;
    arcs.reserve(1)?;
    bounds.insert(id.0, bound)?;
    // room was made for both, so neither is refused
    names.push(Edge::Own(id))?;
    arcs.push(new)?;
    Ok(())
}

impl ScratchNet {
    /// A network with no bound, at 0, of which nothing is dispatched. The horizon is in ticks.
    ///
    /// # Errors
    /// Out of memory, and nothing has changed.
    pub fn new(alloc: Global, events: u16, horizon: u32) -> Result<ScratchNet, AllocError>
        requires events { events ≤ 1024 }
        requires horizon { horizon ≤ 1_000_000_000 }
        ensures { IfOk result (λ net. net ≡ new_setting events horizon) }
    {
        let (names, arcs) = star(alloc, events, horizon)?;
        Ok(ScratchNet {
            horizon,
            clock: 0,
            bounds: BTreeMap::new(alloc),
            fixed: vec![in alloc; None; events as usize]?,
            lags: vec![in alloc; 0; events as usize]?,
            names,
            arcs,
            low: vec![in alloc; 0; events as usize + 1]?,
            high: tops(alloc, events, horizon)?,
        })
    }
}

impl Net for ScratchNet {
    ghost use Rattle.std.specs.Prelude.{true};

    ghost seen = { λ s. s };

    ghost takes_between = { true };

    fn events(&self) -> u16 {
        self.fixed.len() as u16
    }

    fn horizon(&self) -> u32 {
        self.horizon
    }

    fn now(&self) -> u32 {
        self.clock
    }

    fn fixed(&self, e: u16) -> Option<u32> {
        self.fixed[e as usize]
    }

    fn lag(&self, e: u16) -> u32 {
        self.lags[e as usize]
    }

    fn bound(&self, id: BoundId) -> Option<Bound> {
        self.bounds.get(&id.0).copied()
    }

    fn in_force(&self) -> usize {
        self.bounds.len()
    }

    fn between(&self) -> bool {
        true
    }

    fn set_lag(&mut self, e: u16, lag: u32) {
        self.lags[e as usize] = lag;
    }

    fn add(&mut self, id: BoundId, bound: Bound) -> Result<(), NetFault> {
        let alloc = *self.names.allocator();
        let new = arc(&bound);
        match add_arc(alloc, &self.arcs, &self.low, &self.high, new)? {
            Added::Refused(cycle) => {
                let reason = named(alloc, &self.names, Edge::New, &cycle)?;
                Err(NetFault::Conflict(reason))
            }
            Added::Both(low, high) => {
                enter(
                    &mut self.bounds,
                    &mut self.names,
                    &mut self.arcs,
                    id,
                    bound,
                    new,
                )?;
                self.low = low;
                self.high = high;
                Ok(())
            }
        }
    }

    fn remove(&mut self, id: BoundId) -> Result<(), AllocError> {
        let alloc = *self.names.allocator();
        let (names, arcs) = without(alloc, &self.names, &self.arcs, id)?;
        let (low, high) = solve(alloc, &arcs, &self.low, u64::from(self.horizon) + 1)?;
        let _bound = self.bounds.remove(&id.0);
        self.names = names;
        self.arcs = arcs;
        self.low = low;
        self.high = high;
        Ok(())
    }

    fn raise(&mut self, now: u32) -> Result<(), NetFault> {
        if now == self.clock {
            return Ok(());
        }
        let alloc = *self.names.allocator();
        if let Some(e) = late(&self.fixed, &self.high, &self.lags, now) {
            let new = start_arc(e, floor(&self.lags, e, now));
            let reason = refutation(alloc, &self.names, &self.arcs, &self.low, Edge::Now(e), new)?;
            return Err(NetFault::Conflict(reason));
        }
        let arcs = raised(alloc, &self.names, &self.arcs, &self.lags, now)?;
        let (low, high) = solve(alloc, &arcs, &self.high, u64::from(self.horizon) + 1)?;
        self.clock = now;
        self.arcs = arcs;
        self.low = low;
        self.high = high;
        Ok(())
    }

    fn fix(&mut self, e: u16, moment: u32) -> Result<(), NetFault> {
        let alloc = *self.names.allocator();
        let point = number(Point::Event(e));
        let at = u64::from(moment);
        let names = names_past(alloc, &self.names, e)?;
        if self.high[point] < at {
            let new = start_arc(e, moment);
            let reason = refutation(alloc, &names, &self.arcs, &self.low, Edge::PastLow(e), new)?;
            return Err(NetFault::Conflict(reason));
        }
        if at < self.low[point] {
            let new = stop_arc(e, moment);
            let reason = refutation(alloc, &names, &self.arcs, &self.low, Edge::PastHigh(e), new)?;
            return Err(NetFault::Conflict(reason));
        }
        let known = between(alloc, &self.low, &self.high, self.high[point] - at)?;
        let arcs = arcs_past(alloc, &self.names, &self.arcs, e, moment)?;
        let (low, high) = solve(alloc, &arcs, &known, u64::from(self.horizon) + 1)?;
        self.fixed[e as usize] = Some(moment);
        self.names = names;
        self.arcs = arcs;
        self.low = low;
        self.high = high;
        Ok(())
    }

    fn low(&self, e: u16) -> u32 {
        self.low[usize::from(e) + 1] as u32
    }

    fn high(&self, e: u16) -> u32 {
        self.high[usize::from(e) + 1] as u32
    }
}
