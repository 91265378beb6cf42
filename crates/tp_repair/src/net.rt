//! A network for bounds between any two points that is repaired from change to change.
ghost use Rattle.std.specs.Prelude.{◌≡◌, ◌≢◌, ◌↔◌, ℕ, ◌+◌, ◌*◌, ◌<◌, ◌≤◌, ◌∷◌, length, IfOk, OnOk, OnErr, MatchOption, map, replicate, suc, true, false, Some, None};
ghost use Rattle.std.specs.FinMap as finite;
ghost use Rattle.tp_bounds.specs.Setting.{event_count, fixed_at, floor_of, HasPoint, IsInRange};
ghost use Rattle.tp_bounds.specs.Schedule.{HasSchedule};
ghost use Rattle.tp_bounds.specs.Changes.{with_bound, without_bound, proposing, at_moment, with_fixed, with_lag};
ghost use Rattle.tp_net.specs.Faults.{RefusesBy, IsNew, IsNow, IsPastOf, SaysBetween, IsBetween};
ghost use Rattle.tp_repair_engine.specs.Told.{edge_count};
ghost use Rattle.tp_repair_engine.specs.Costs.{IsCheap, AreWindows, HoldsNoMoment, SeesConflict};
ghost use Rattle.tp_bounds.specs.declared.Bound.{Bound};
ghost use Rattle.std.specs.Ordering.{nat_cmp};
ghost use Rattle.std.specs.BTreeMap.{BTreeMap, get};
ghost use Rattle.tp_net.specs.NewNet.{new_setting};
ghost use Rattle.tp_net.specs.Arcs.{past_name};
ghost use Rattle.tp_repair_engine.specs.Work.{IsIdle};

use std::alloc::{AllocError, Global};
use std::collections::BTreeMap;
use std::marker::Model;
use tp_bounds::{Bound, BoundId, Edge, MOST_LAG, Reason};
use tp_net::edges::{floor, name_past, start_arc, stop_arc};
use tp_net::{Net, NetFault, late, tops};
use tp_repair_engine::change::{leave, raise, settle};
use tp_repair_engine::engine::{Engine, bring, refute};
use tp_repair_engine::flow::Work;
use tp_repair_engine::star::star;
use tp_repair_engine::store::named;

/// A network for bounds between any two points. It keeps the least and the greatest moment of each,
/// and a change costs what it changes.
#[derive(Drop)]
pub struct RepairNet {
    horizon: u32,
    clock: u32,
    bounds: BTreeMap<u32, Bound>,
    // the key of each bound's edge
    keys: BTreeMap<u32, usize>,
    fixed: Vec<Option<u32>>,
    lags: Vec<u32>,
    // the keys of the two edges of each event with the origin
    floors: Vec<usize>,
    ends: Vec<usize>,
    engine: Engine,
}

impl Model for RepairNet {
    ghost use Rattle.std.specs.Prelude.{length};
    ghost use Rattle.tp_repair_engine.specs.Told.{Told, coded_told, settled};
    ghost use Rattle.tp_repair_engine.specs.Engine.{IsRepaired};

    ghost Value = { Told };

    ghost coded = { coded_told };

    ghost view = { λ a. record {
      setting = settled a.horizon a.clock a.bounds.entries
          a.fixed.items a.lags.items;
      looks = a.engine.looks;
    } };

    ghost invariant = { λ a. IsRepaired (settled a.horizon a.clock a.bounds.entries a.fixed.items
        a.lags.items) (length a.bounds.entries) a.keys a.floors.items a.ends.items a.engine };
}

/// The moments of a network with no bound, at 0.
fn moments(alloc: Global, events: u16, horizon: u32) -> Result<(Vec<u64>, Vec<u64>), AllocError>
    ensures low { IfOk result (λ r. r.0.items ≡ replicate (suc events) 0) }
    ensures high { IfOk result (λ r. r.1.items ≡ 0 ∷ replicate events horizon) }
{
    let low = vec![in alloc; 0u64; events as usize + 1]?;
    let high = tops(alloc, events, horizon)?;
    Ok((low, high))
}

/// Room for so many points in both directions.
fn room(alloc: Global, points: usize) -> Result<(Work, Work), AllocError>
    ensures { IfOk result (λ r. IsIdle points r.0 × IsIdle points r.1) }
{
    let up = Work::new(alloc, points)?;
    let down = Work::new(alloc, points)?;
    Ok((up, down))
}

/// For each event that it is not dispatched, and that its report comes at once.
fn unsettled(alloc: Global, events: u16) -> Result<(Vec<Option<u32>>, Vec<u32>), AllocError>
    ensures fixed { IfOk result (λ r. r.0.items ≡ replicate events None) }
    ensures lags { IfOk result (λ r. r.1.items ≡ replicate events 0) }
{
    let fixed = vec![in alloc; None; events as usize]?;
    let lags = vec![in alloc; 0u32; events as usize]?;
    Ok((fixed, lags))
}

/// The key under an identifier.
fn key_of(keys: &BTreeMap<u32, usize>, id: BoundId) -> usize
    requires { get nat_cmp keys.now id.0 ≢ None }
    ensures { get nat_cmp keys.now id.0 ≡ Some result }
{
    match keys.get(&id.0).copied() {
        Some(key) => key,
        None => unreachable!(),
    }
}

/// A reason by the names that the edges have when an event is fixed.
fn past(mut reason: Reason, e: u16) -> Reason
    ensures { result.edges.items ≡ map (past_name e) reason.edges.items }
{
    for k in 0..reason.edges.len() {
        reason.edges[k] = name_past(reason.edges[k], e);
    }
    reason
}

impl RepairNet {
    /// A network with no bound, at 0, of which nothing is dispatched. The horizon is in ticks. It
    /// takes time and room in the number of events.
    ///
    /// # Errors
    /// Where a growth is refused.
    pub fn new(alloc: Global, events: u16, horizon: u32) -> Result<RepairNet, AllocError>
        requires events { events ≤ 1024 }
        requires horizon { horizon ≤ 1_000_000_000 }
        ensures setting { IfOk result (λ net. net.setting ≡ new_setting events horizon) }
        ensures looks { IfOk result (λ net. net.looks ≡ 0) }
    {
        let (store, floors, ends) = star(alloc, events, horizon)?;
        let (low, high) = moments(alloc, events, horizon)?;
        let (up, down) = room(alloc, events as usize + 1)?;
        let (fixed, lags) = unsettled(alloc, events)?;
        Ok(RepairNet {
            horizon,
            clock: 0,
            bounds: BTreeMap::new(alloc),
            keys: BTreeMap::new(alloc),
            fixed,
            lags,
            floors,
            ends,
            engine: Engine {
                store,
                low,
                high,
                up,
                down,
                looks: 0,
            },
        })
    }

    /// At how many edges the last `add`, `remove`, `raise` or `fix` looked, refused or not. A look
    /// is one reading of an edge's weight.
    pub fn looks(&self) -> u64
        ensures { result ≡ self.now.looks }
    {
        self.engine.looks
    }
}

impl Net for RepairNet {
    ghost use Rattle.std.specs.Prelude.{true};

    ghost seen = { λ s. s.setting };

    ghost takes_between = { true };

    fn events(&self) -> u16 {
        self.fixed.len() as u16
    }

    fn horizon(&self) -> u32 {
        self.horizon
    }

    fn now(&self) -> u32 {
        self.clock
    }

    fn fixed(&self, e: u16) -> Option<u32> {
        self.fixed[e as usize]
    }

    fn lag(&self, e: u16) -> u32 {
        self.lags[e as usize]
    }

    fn bound(&self, id: BoundId) -> Option<Bound> {
        self.bounds.get(&id.0).copied()
    }

    fn in_force(&self) -> usize {
        self.bounds.len()
    }

    fn between(&self) -> bool {
        true
    }

    /// The count of looks stays: it is that of the last change.
    fn set_lag(&mut self, e: u16, lag: u32)
        requires event { e < event_count self.old.setting }
        requires start { self.old.setting.clock ≡ 0 }
        requires lag { lag ≤ MOST_LAG }
        ensures set { self.new.setting ≡ with_lag self.old.setting e lag }
        ensures looks { self.new.looks ≡ self.old.looks }
    {
        self.lags[e as usize] = lag;
    }

    fn low(&self, e: u16) -> u32 {
        self.engine.low[usize::from(e) + 1] as u32
    }

    fn high(&self, e: u16) -> u32 {
        self.engine.high[usize::from(e) + 1] as u32
    }

    /// It looks at each edge and at the new one at most once a direction, and where the bound is
    /// taken at the new one twice.
    fn add(&mut self, id: BoundId, bound: Bound) -> Result<(), NetFault>
        requires from { HasPoint self.old.setting bound.from }
        requires to { HasPoint self.old.setting bound.to }
        requires weight { IsInRange bound.w }
        requires unused { finite.get self.old.setting.bounds id.0 ≡ None }
        ensures ok { OnOk result (self.new.setting ≡ with_bound self.old.setting id.0 bound) }
        ensures err { OnErr result (self.new.setting ≡ self.old.setting) }
        ensures exact { RefusesBy IsNew (proposing self.old.setting bound)
            (with_bound self.old.setting id.0 bound) result }
        ensures between { SaysBetween result ↔ ((true ≡ false) × IsBetween bound) }
        ensures most { self.new.looks ≤ 2 * (edge_count self.old.setting + 1) }
        ensures some { OnOk result (2 ≤ self.new.looks) }
        ensures seen { SeesConflict result self.new.looks }
        ensures cheap { OnOk result (IsCheap 2 self.old.setting
            (with_bound self.old.setting id.0 bound) self.new.looks) }
    {
        self.engine.looks = 0;
        // this call tells that the bounds stand by rising identifiers: where one is free, they are
        // fewer than all
        let _count = self.bounds.len();
        let alloc = *self.fixed.allocator();
        if let Some(path) = bring(
            alloc,
            &mut self.engine,
            &mut self.bounds,
            &mut self.keys,
            id,
            bound,
        )? {
            let reason = named(alloc, &self.engine.store, Edge::New, &path)?;
            return Err(NetFault::Conflict(reason));
        }
        // the bound is in force, and the moments are those that it leaves
        Ok(())
    }

    /// It looks at each edge at most four times a direction, and at that of the bound once; at that
    /// alone where the bound holds no moment.
    fn remove(&mut self, id: BoundId) -> Result<(), AllocError>
        requires in_force { finite.get self.old.setting.bounds id.0 ≢ None }
        ensures ok { OnOk result (self.new.setting ≡ without_bound self.old.setting id.0) }
        ensures err { OnErr result (self.new.setting ≡ self.old.setting) }
        ensures possible { OnOk result (HasSchedule (without_bound self.old.setting id.0)) }
        ensures most { self.new.looks ≤ 8 * edge_count self.old.setting + 1 }
        ensures some { OnOk result (1 ≤ self.new.looks) }
        ensures loose { (low high : ℕ → ℕ) (b : Bound) → AreWindows self.old.setting low high
            → finite.get self.old.setting.bounds id.0 ≡ Some b → HoldsNoMoment low high b
            → OnOk result (self.new.looks ≡ 1) }
    {
        self.engine.looks = 0;
        let alloc = *self.fixed.allocator();
        let amount = u64::from(self.horizon) + 1;
        let key = key_of(&self.keys, id);
        leave(alloc, &mut self.engine, key, amount)?;
        let _bound = self.bounds.remove(&id.0);
        let _key = self.keys.remove(&id.0);
        Ok(())
    }

    /// Where now stays it looks at no edge.
    fn raise(&mut self, now: u32) -> Result<(), NetFault>
        requires forward { self.old.setting.clock ≤ now }
        requires in_time { now ≤ self.old.setting.horizon }
        ensures ok { OnOk result (self.new.setting ≡ at_moment self.old.setting now) }
        ensures err { OnErr result (self.new.setting ≡ self.old.setting) }
        ensures exact { RefusesBy IsNow (at_moment self.old.setting now)
            (at_moment self.old.setting now) result }
        ensures between { ¬ SaysBetween result }
        ensures still { now ≡ self.old.setting.clock → self.new.looks ≡ 0 }
        ensures most { self.new.looks ≤ edge_count self.old.setting + 1 }
        ensures seen { SeesConflict result self.new.looks }
        ensures cheap { OnOk result
            (IsCheap 0 self.old.setting (at_moment self.old.setting now) self.new.looks) }
    {
        self.engine.looks = 0;
        if now == self.clock {
            return Ok(());
        }
        let alloc = *self.fixed.allocator();
        if let Some(e) = late(&self.fixed, &self.engine.high, &self.lags, now) {
            let new = start_arc(e, floor(&self.lags, e, now));
            let reason = refute(alloc, &mut self.engine, Edge::Now(e), new)?;
            return Err(NetFault::Conflict(reason));
        }
        raise(&mut self.engine, &self.floors, &self.fixed, &self.lags, now)?;
        self.clock = now;
        Ok(())
    }

    /// It looks at the two new edges, and at those of points that move.
    fn fix(&mut self, e: u16, moment: u32) -> Result<(), NetFault>
        requires event { e < event_count self.old.setting }
        requires free { fixed_at self.old.setting e ≡ None }
        requires floor { floor_of self.old.setting e ≤ moment }
        requires in_time { moment ≤ self.old.setting.horizon }
        ensures ok { OnOk result (self.new.setting ≡ with_fixed self.old.setting e moment) }
        ensures err { OnErr result (self.new.setting ≡ self.old.setting) }
        ensures exact { RefusesBy (IsPastOf e) (with_fixed self.old.setting e moment)
            (with_fixed self.old.setting e moment) result }
        ensures between { ¬ SaysBetween result }
        ensures most { self.new.looks ≤ 2 * (edge_count self.old.setting + 1) }
        ensures some { OnOk result (2 ≤ self.new.looks) }
        ensures seen { SeesConflict result self.new.looks }
        ensures cheap { OnOk result
            (IsCheap 2 self.old.setting (with_fixed self.old.setting e moment) self.new.looks) }
    {
        self.engine.looks = 0;
        let alloc = *self.fixed.allocator();
        let point = usize::from(e) + 1;
        if self.engine.high[point] < u64::from(moment) {
            let new = start_arc(e, moment);
            let reason = refute(alloc, &mut self.engine, Edge::PastLow(e), new)?;
            return Err(NetFault::Conflict(past(reason, e)));
        }
        if u64::from(moment) < self.engine.low[point] {
            let new = stop_arc(e, moment);
            let reason = refute(alloc, &mut self.engine, Edge::PastHigh(e), new)?;
            return Err(NetFault::Conflict(past(reason, e)));
        }
        let floor = self.floors[e as usize];
        let end = self.ends[e as usize];
        settle(alloc, &mut self.engine, floor, end, e, moment)?;
        self.fixed[e as usize] = Some(moment);
        Ok(())
    }
}
