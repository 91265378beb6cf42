//! A setting: what a network's schedules have to meet, kept by itself.

ghost use Rattle.std.specs.Prelude.{◌≡◌, ◌≢◌, ◌≤◌, ◌<◌, Some, None, IfOk, IfSome, OnOk, OnErr, pos, ◌-ℤ◌};
ghost use Rattle.std.specs.FinMap as map;
ghost use Rattle.tp_bounds.specs.Setting.{event_count, fixed_at, lag_of, floor_of, HasPoint, IsInRange};
ghost use Rattle.tp_bounds.specs.Reasons.{at_most, at_least, is_open, bound_of};
ghost use Rattle.tp_bounds.specs.Changes.{fresh, with_bound, without_bound, asking, at_moment, with_fixed, with_lag};
ghost use Rattle.tp_bounds.specs.Held.{held, AreInRange};
ghost use Rattle.tp_bounds.specs.InOrder.{IsNth};
ghost use Rattle.tp_bounds.specs.Lawful.{Suits, IsLawful};

use crate::{Bound, BoundId, Edge, MOST_EVENTS, MOST_HORIZON, MOST_LAG, Point};
use std::alloc::{AllocError, Global};
use std::collections::BTreeMap;
use std::marker::Model;

/// Events, the horizon, the bounds in force, the moments at which events were dispatched, how late
/// their reports may come, the time, and a bound that is asked for. Nothing is worked out from
/// them: a setting may have no schedule.
#[derive(Drop)]
pub struct Setting {
    horizon: u32,
    clock: u32,
    bounds: BTreeMap<u32, Bound>,
    fixed: Vec<Option<u32>>,
    lags: Vec<u32>,
    proposed: Option<Bound>,
}

impl Model for Setting {
    ghost use Rattle.tp_bounds.specs.Setting.{Setting};
    ghost use Rattle.tp_bounds.specs.Codes.{coded_setting};
    ghost use Rattle.tp_bounds.specs.Held.{held};
    ghost use Rattle.tp_bounds.specs.Lawful.{IsLawful};

    ghost Value = { Setting };

    ghost coded = { coded_setting };

    ghost view = { λ a.
        record {
          horizon = a.horizon;
          clock = a.clock;
          bounds = held a.bounds.entries;
          fixed = a.fixed.items;
          lags = a.lags.items;
          proposed = a.proposed;
        } };

    ghost invariant = { λ a.
        IsLawful (record {
          horizon = a.horizon;
          clock = a.clock;
          bounds = held a.bounds.entries;
          fixed = a.fixed.items;
          lags = a.lags.items;
          proposed = a.proposed;
        }) };
}

impl Setting {
    /// A setting at 0 of so many events, with a horizon in ticks, no bound, and no event that is
    /// reported late.
    pub fn new(alloc: Global, events: u16, horizon: u32) -> Result<Setting, AllocError>
        requires events { events ≤ MOST_EVENTS }
        requires horizon { horizon ≤ MOST_HORIZON }
        ensures { IfOk result (λ setting. setting ≡ fresh events horizon) }
    {
        Ok(Setting {
            horizon,
            clock: 0,
            bounds: BTreeMap::new(alloc),
            fixed: vec![in alloc; None; events as usize]?,
            lags: vec![in alloc; 0; events as usize]?,
            proposed: None,
        })
    }

    /// Puts a bound in force, under an identifier that none in force has.
    pub fn put(&mut self, id: BoundId, bound: Bound) -> Result<(), AllocError>
        requires from { HasPoint self.old bound.from }
        requires to { HasPoint self.old bound.to }
        requires weight { IsInRange bound.w }
        requires unused { map.get self.old.bounds id.0 ≡ None }
        ensures ok { OnOk result (self.new ≡ with_bound self.old id.0 bound) }
        ensures err { OnErr result (self.new ≡ self.old) }
    {
        self.bounds.insert(id.0, bound)?;
        Ok(())
    }

    /// Takes a bound in force out of it.
    pub fn take(&mut self, id: BoundId)
        requires { map.get self.old.bounds id.0 ≢ None }
        ensures { self.new ≡ without_bound self.old id.0 }
    {
        let _bound = self.bounds.remove(&id.0);
    }

    /// Asks for a bound beside those in force, in place of the one that was asked for, or for none.
    pub fn propose(&mut self, bound: Option<Bound>)
        requires { IfSome bound (Suits self.old) }
        ensures { self.new ≡ asking self.old bound }
    {
        self.proposed = bound;
    }

    /// Goes on to a moment.
    pub fn raise(&mut self, now: u32)
        requires forward { self.old.clock ≤ now }
        requires in_time { now ≤ self.old.horizon }
        ensures { self.new ≡ at_moment self.old now }
    {
        self.clock = now;
    }

    /// Lets the report of an event come so many ticks late, at most 1,000,000,000. It is still 0,
    /// so that the same schedules remain.
    pub fn set_lag(&mut self, e: u16, lag: u32)
        requires event { e < event_count self.old }
        requires start { self.old.clock ≡ 0 }
        requires lag { lag ≤ MOST_LAG }
        ensures { self.new ≡ with_lag self.old e lag }
    {
        self.lags[e as usize] = lag;
    }

    /// How many ticks after an event its report may come.
    pub fn lag(&self, e: u16) -> u32
        requires { e < event_count self.now }
        ensures { result ≡ lag_of self.now e }
    {
        self.lags[e as usize]
    }

    /// Dispatches an event at a moment from its floor to the horizon.
    pub fn fix(&mut self, e: u16, moment: u32)
        requires event { e < event_count self.old }
        requires free { fixed_at self.old e ≡ None }
        requires floor { floor_of self.old e ≤ moment }
        requires in_time { moment ≤ self.old.horizon }
        ensures { self.new ≡ with_fixed self.old e moment }
    {
        self.fixed[e as usize] = Some(moment);
    }

    /// The moment before which an event that is not dispatched can't have happened any more: now
    /// less its lag, 0 where the lag is more.
    pub fn floor(&self, e: u16) -> u32
        requires event { e < event_count self.now }
        requires free { fixed_at self.now e ≡ None }
        ensures { result ≡ floor_of self.now e }
    {
        self.clock.saturating_sub(self.lag(e))
    }

    /// How many events there are: they are numbered from 0. It takes no memory.
    pub fn events(&self) -> u16
        ensures count { result ≡ event_count self.now }
        ensures lawful { IsLawful self.now }
    {
        self.fixed.len() as u16
    }

    /// The last moment at which an event may happen, in ticks. It takes no memory.
    pub fn horizon(&self) -> u32
        ensures { result ≡ self.now.horizon }
    {
        self.horizon
    }

    /// The moment at which an event was dispatched, if there is the event and it was.
    pub(crate) fn fixed(&self, e: u16) -> Option<u32>
        ensures { result ≡ fixed_at self.now e }
    {
        self.fixed.get(e as usize).copied().flatten()
    }

    /// The bounds in force, by identifier. It takes no memory.
    pub fn in_force(&self) -> &BTreeMap<u32, Bound>
        ensures bounds { held result.now.entries ≡ self.now.bounds }
        ensures entries { map.entries self.now.bounds ≡ result.now.entries }
        ensures weights { AreInRange (held result.now.entries) }
    {
        // this call tells that the identifiers rise
        let _count = self.bounds.len();
        &self.bounds
    }

    /// The bound in force than which `k` others have a lower identifier, and its identifier: the
    /// bounds in force are told by rising identifier, as `k` rises from 0. It takes no memory, and
    /// `k` steps along the bounds.
    pub fn nth(&self, k: usize) -> Option<(BoundId, Bound)>
        ensures { IsNth self.now.bounds k result }
    {
        let (id, bound) = self.bounds.iter().nth(k)?;
        Some((BoundId(*id), *bound))
    }

    /// Another setting that is the same. It takes time in the bounds in force and the events.
    pub fn copy(&self) -> Result<Setting, AllocError>
        ensures { IfOk result (λ copy. copy ≡ self.now) }
    {
        Ok(Setting {
            horizon: self.horizon,
            clock: self.clock,
            bounds: self.bounds.clone()?,
            fixed: self.fixed.clone()?,
            lags: self.lags.clone()?,
            proposed: self.proposed,
        })
    }

    /// The bound that is asked for.
    pub(crate) fn proposed(&self) -> Option<Bound>
        ensures bound { result ≡ self.now.proposed }
        ensures weight { IfSome result (λ bound. IsInRange bound.w) }
    {
        self.proposed
    }

    /// Whether there is the event and it is not dispatched.
    fn is_open(&self, e: u16) -> bool
        ensures { result ≡ is_open self.now e }
    {
        e < self.events() && self.fixed(e).is_none()
    }

    /// The bound that an edge stands for, if there is such an edge.
    pub(crate) fn bound(&self, edge: Edge) -> Option<Bound>
        ensures { result ≡ bound_of self.now edge }
    {
        match edge {
            Edge::Own(id) => self.bounds.get(&id.0).copied(),
            Edge::New => self.proposed,
            Edge::PastHigh(e) => self.fixed(e).map(|moment| at_most(e, moment)),
            Edge::PastLow(e) => self.fixed(e).map(|moment| at_least(e, moment)),
            Edge::Now(e) if self.is_open(e) => Some(at_least(e, self.floor(e))),
            Edge::End(e) if self.is_open(e) => Some(at_most(e, self.horizon)),
            Edge::Now(_) | Edge::End(_) => None,
        }
    }
}

/// The bound by which an event happens no later than a moment.
pub fn at_most(e: u16, moment: u32) -> Bound
    ensures { result ≡ at_most e moment }
{
    Bound {
        from: Point::Origin,
        to: Point::Event(e),
        w: i64::from(moment),
    }
}

/// The bound by which an event happens no earlier than a moment.
pub fn at_least(e: u16, moment: u32) -> Bound
    ensures { result ≡ at_least e moment }
{
    Bound {
        from: Point::Event(e),
        to: Point::Origin,
        w: -i64::from(moment),
    }
}
