//! A network that takes commands.

ghost use Rattle.std.specs.Prelude.{◌≡◌, ◌↔◌, ℕ, ◌<◌, ◌≤◌, true, length, None, IfOk};
ghost use Rattle.tp_bounds.specs.Setting.{event_count, fixed_at, lag_of};
ghost use Rattle.tp_bounds.specs.Schedule.{IsMoment};
ghost use Rattle.tp_exec_machine.specs.Machine.{IsFresh, new_machine, plan_machine, kind_after};
ghost use Rattle.tp_exec_machine.specs.declared.command.Answer.TheVariants.{Accepted, Named, Told, Reported};
ghost use Rattle.tp_exec_machine.specs.declared.command.Command.TheVariants.{Advance, Add, Withdraw, Window, Dispatch, Happened, Report as Tell};
ghost use Rattle.tp_exec_machine.specs.Step.{Step, answer_of, is_point_of, AreMoments};

use crate::command::{Kind, Report};
use crate::copying::{copy_bounds, copy_lags, copy_past};
use crate::own_bounds::bring_own;
use crate::refusal::{Refusal, refused_by};
use std::alloc::{AllocError, Global};
use std::marker::Model;
use tp_bounds::{Bound, BoundId, Limits, PlanNet, Point, Setting};
use tp_net::Net;

/// The greatest weight of a bound, either way, in ticks.
pub const GREATEST_WEIGHT: i64 = 2_000_000_000;

/// A network that takes commands. A call that is refused changes nothing.
#[derive(Drop)]
pub struct Executive<N: Net> {
    alloc: Global,
    net: N,
    limits: Limits,
    next: u32,
    own: u32,
    kind: Kind,
}

impl<N: Net> Model for Executive<N> {
    ghost use Rattle.tp_exec_machine.specs.Machine.{Machine, IsReady, coded_machine};

    ghost Value = { Machine };

    ghost coded = { coded_machine };

    ghost view = { λ a. record {
      setting = N.seen a.net;
      limits = a.limits;
      next = a.next;
      own = a.own;
      kind = a.kind;
    } };

    ghost invariant = { λ a. IsReady N.takes_between (record {
      setting = N.seen a.net;
      limits = a.limits;
      next = a.next;
      own = a.own;
      kind = a.kind;
    }) };
}

impl<N: Net> Executive<N> {
    /// An executive over a network that is new but for lags, whose bounds are all still to be
    /// added. It takes no memory.
    pub fn bare(alloc: Global, limits: Limits, net: N) -> Executive<N>
        requires between { N.takes_between ≡ true }
        requires fresh { IsFresh (N.seen net) }
        requires horizon { (N.seen net).horizon ≡ limits.horizon }
        requires events { event_count (N.seen net) ≤ limits.events }
        ensures { result ≡ new_machine (N.seen net) limits }
    {
        Executive {
            alloc,
            net,
            limits,
            next: 0,
            own: 0,
            kind: Kind::Bare,
        }
    }

    /// The network.
    pub fn net(&self) -> &N
        ensures { N.seen result.now ≡ self.now.setting }
    {
        &self.net
    }

    /// Where its memory comes from.
    pub fn alloc(&self) -> Global {
        self.alloc
    }

    /// What bounds the run.
    pub fn limits(&self) -> Limits
        ensures { result ≡ self.now.limits }
    {
        self.limits
    }

    /// The identifier that the next bound gets.
    pub fn next(&self) -> u32
        ensures { result ≡ self.now.next }
    {
        self.next
    }

    /// Where the bounds come from.
    pub fn kind(&self) -> Kind
        ensures { result ≡ self.now.kind }
    {
        self.kind
    }

    /// How many ticks after an event its report may come.
    pub fn lag(&self, e: u16) -> u32
        requires { e < event_count self.now.setting }
        ensures { result ≡ lag_of self.now.setting e }
    {
        self.net.lag(e)
    }

    /// Goes on to a moment, in ticks, which may be the one that is now.
    pub fn advance(&mut self, to: u32) -> Result<(), Refusal>
        ensures { Step self.old (Advance to) (answer_of (λ _. Accepted) result) self.new }
    {
        if to < self.net.now() {
            return Err(Refusal::Back);
        }
        if self.net.horizon() < to {
            return Err(Refusal::Moment);
        }
        match self.net.raise(to) {
            Ok(()) => Ok(()),
            Err(fault) => Err(refused_by(fault)),
        }
    }

    /// Brings a bound into force: `to` comes no later than `w` ticks after `from`.
    pub fn add(&mut self, from: Point, to: Point, w: i64) -> Result<BoundId, Refusal>
        ensures { Step self.old
            (Add (record { from = from; to = to; w = w })) (answer_of Named result) self.new }
    {
        let count = self.net.events();
        if !is_point(from, count) || !is_point(to, count) {
            return Err(Refusal::NoEvent);
        }
        if w < -GREATEST_WEIGHT || GREATEST_WEIGHT < w {
            return Err(Refusal::Weight);
        }
        if self.limits.bounds() as usize <= self.net.in_force() {
            return Err(Refusal::Full);
        }
        if self.limits.ids() <= self.next {
            return Err(Refusal::Spent);
        }
        let id = BoundId(self.next);
        match self.net.add(id, Bound { from, to, w }) {
            Ok(()) => {
                self.next += 1;
                Ok(id)
            }
            Err(fault) => Err(refused_by(fault)),
        }
    }

    /// Takes a bound out of force. A network that keeps a plan's bounds is altered for good once
    /// one of them is withdrawn.
    pub fn withdraw(&mut self, id: BoundId) -> Result<(), Refusal>
        ensures { Step self.old (Withdraw id) (answer_of (λ _. Accepted) result) self.new }
    {
        if self.net.bound(id).is_none() {
            return Err(Refusal::NoBound);
        }
        self.net.remove(id)?;
        let kind = kind_without(self.kind, self.own, id);
        self.kind = kind;
        Ok(())
    }

    /// The least and the greatest moment of an event, in ticks. The event happens at a moment in
    /// some remaining schedule exactly if that moment is not before the one and not after the
    /// other. It takes no memory.
    pub fn window(&self, e: u16) -> Result<(u32, u32), Refusal>
        ensures step { Step self.now (Window e) (answer_of (λ w. Told w.0 w.1) result) self.now }
        ensures exact { IfOk result
            (λ w. (x : ℕ) → ((w.0 ≤ x) × (x ≤ w.1)) ↔ IsMoment self.now.setting e x) }
    {
        if self.net.events() <= e {
            return Err(Refusal::NoEvent);
        }
        Ok((self.net.low(e), self.net.high(e)))
    }

    /// Fixes an event at the moment that is now.
    pub fn dispatch(&mut self, e: u16) -> Result<(), Refusal>
        ensures { Step self.old (Dispatch e) (answer_of (λ _. Accepted) result) self.new }
    {
        if self.net.events() <= e {
            return Err(Refusal::NoEvent);
        }
        if self.net.fixed(e).is_some() {
            return Err(Refusal::Done);
        }
        match self.net.fix(e, self.net.now()) {
            Ok(()) => Ok(()),
            Err(fault) => Err(refused_by(fault)),
        }
    }

    /// An event happened, as was observed, at a moment from its floor to now. From then on it
    /// counts as dispatched at that moment.
    pub fn happened(&mut self, e: u16, moment: u32) -> Result<(), Refusal>
        ensures { Step self.old (Happened e moment) (answer_of (λ _. Accepted) result) self.new }
    {
        if self.net.events() <= e {
            return Err(Refusal::NoEvent);
        }
        match self.net.fixed(e) {
            Some(_) => Err(Refusal::Done),
            None => self.observe(e, moment),
        }
    }

    /// The same for an event that is not dispatched.
    fn observe(&mut self, e: u16, moment: u32) -> Result<(), Refusal>
        requires event { e < event_count self.old.setting }
        requires free { fixed_at self.old.setting e ≡ None }
        ensures { Step self.old (Happened e moment) (answer_of (λ _. Accepted) result) self.new }
    {
        let now = self.net.now();
        if moment < now.saturating_sub(self.net.lag(e)) {
            return Err(Refusal::Back);
        }
        if now < moment {
            return Err(Refusal::Moment);
        }
        match self.net.fix(e, moment) {
            Ok(()) => Ok(()),
            Err(fault) => Err(refused_by(fault)),
        }
    }

    /// The state of the run. It is refused only when out of memory.
    pub fn report(&self) -> Result<Report, Refusal>
        ensures { Step self.now Tell (answer_of Reported result) self.now }
    {
        let moments = moments_of(self.alloc, &self.net)?;
        let done = moments.iter().all(|moment| moment.1);
        Ok(Report {
            now: self.net.now(),
            kind: self.kind,
            moments,
            done,
        })
    }

    /// A copy of the setting: the events, the horizon, the lags, the bounds in force, what was
    /// dispatched, and now.
    pub fn setting(&self) -> Result<Setting, AllocError>
        ensures { IfOk result (λ setting. setting ≡ self.now.setting) }
    {
        let mut setting = Setting::new(self.alloc, self.net.events(), self.net.horizon())?;
        copy_lags(&self.net, &mut setting);
        copy_bounds(&self.net, self.next, &mut setting)?;
        copy_past(&self.net, &mut setting);
        setting.raise(self.net.now());
        Ok(setting)
    }
}

impl<N: Net + Drop> Executive<N> {
    /// An executive over a network that is new but for lags, in which the bounds of a plan come
    /// into force, under identifiers from 0 on. Some schedule always remains, so memory alone can
    /// be wanting, and then the network is dropped.
    ///
    /// It costs one `add` of the network for each bound.
    pub fn from_plan(
        alloc: Global,
        network: &PlanNet,
        limits: Limits,
        mut net: N,
    ) -> Result<Executive<N>, AllocError>
        requires between { N.takes_between ≡ true }
        requires fresh { IsFresh (N.seen net) }
        requires events { event_count (N.seen net) ≡ length network.now.events.items }
        requires horizon { (N.seen net).horizon ≡ network.now.horizon }
        requires bounds { length network.now.bounds.items ≤ limits.bounds }
        requires ids { length network.now.bounds.items ≤ limits.ids }
        ensures { IfOk result
            (λ executive. executive ≡ plan_machine (N.seen net) network.now.bounds.items limits) }
    {
        let own = bring_own(alloc, &mut net, network, limits.ids())?;
        Ok(Executive {
            alloc,
            net,
            limits,
            next: own,
            own,
            kind: Kind::Kept,
        })
    }
}

/// The kind once the bound of an identifier is out of force, where so many are a plan's own.
fn kind_without(kind: Kind, own: u32, id: BoundId) -> Kind
    ensures { result ≡ kind_after kind own id.0 }
{
    match kind {
        Kind::Bare => Kind::Bare,
        Kind::Kept => {
            if id.0 < own {
                Kind::Altered
            } else {
                Kind::Kept
            }
        }
        Kind::Altered => Kind::Altered,
    }
}

/// The moments of the pointwise least schedule, and which events are dispatched.
fn moments_of<N: Net>(alloc: Global, net: &N) -> Result<Vec<(u32, bool)>, AllocError>
    ensures { IfOk result (λ moments. AreMoments (N.seen net.now) moments.items) }
{
    let mut moments = Vec::new(alloc);
    for e in 0..net.events() {
        moments.push((net.low(e), net.fixed(e).is_some()))?;
    }
    Ok(moments)
}

/// Whether a point is the origin or one of that many events.
pub fn is_point(point: Point, count: u16) -> bool
    ensures { result ≡ is_point_of count point }
{
    match point {
        Point::Origin => true,
        Point::Event(e) => e < count,
    }
}
