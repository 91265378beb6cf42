//! How far the least moments rise when the floors of events do.
ghost use Rattle.std.specs.Prelude.{◌≡◌, ◌≢◌, ℕ, ◌-◌, ◌<◌, ◌≤◌, length, IfOk, OnOk, slice_index};
ghost use Rattle.tp_net.specs.Graph.{IsLeast};
ghost use Rattle.tp_repair_engine.specs.Flow.{looks_at};
ghost use Rattle.tp_repair_engine.specs.Store.{arcs_of, keys_of};
ghost use Rattle.tp_repair_engine.specs.Work.{HasPlaces, IsClear, IsReady, IsIdle, IsOrder};
ghost use Rattle.tp_repair_engine.specs.Asked.{AreOffered, AsksFloor, HaveMoments, IsRaisedTo};
ghost use Rattle.tp_repair_engine.specs.declared.store.Direction.TheVariants.{Up};

use crate::flow::{Work, flow};
use crate::potential::Potential;
use crate::store::Direction;
use crate::tighten::{clear, wipe};
use std::alloc::AllocError;
use tp_net::edges::floor;

/// Sets out at a point by how much a moment passes its least one.
fn offer(work: &mut Work, low: &[u64], point: usize, moment: u64) -> Result<(), AllocError>
    requires ready { IsReady (length low.now) work.old }
    requires point { point < length low.now }
    requires nothing { slice_index work.old.amounts.items point ≡ 0 }
    ensures places { HasPlaces (length low.now) work.new }
    ensures ready { OnOk result (IsReady (length low.now) work.new) }
    ensures here { OnOk result (slice_index work.new.amounts.items point
        ≡ moment - slice_index low.now point) }
    ensures others { OnOk result ((x : ℕ) → x ≢ point
        → slice_index work.new.amounts.items x ≡ slice_index work.old.amounts.items x) }
{
    let amount = moment.saturating_sub(low[point]);
    work.queue.push((amount, point))?;
    work.amounts[point] = amount;
    Ok(())
}

/// Sets out at each event that is not fixed by how much its floor passes its least moment.
fn set_out_floors(
    work: &mut Work,
    low: &[u64],
    fixed: &[Option<u32>],
    lags: &[u32],
    now: u32,
) -> Result<(), AllocError>
    requires clear { IsClear (length low.now) work.old }
    requires events { HaveMoments fixed.now low.now }
    ensures places { HasPlaces (length low.now) work.new }
    ensures offered { OnOk result (AreOffered (AsksFloor fixed.now lags.now now) low.now work.new) }
{
    for e in 0..fixed.len() {
        let floor = u64::from(floor(lags, e as u16, now));
        if fixed[e].is_none() && low[e + 1] < floor {
            offer(work, low, e + 1, floor)?;
        }
    }
    Ok(())
}

/// The same from where nothing is worked out; where a growth is refused, work is left over.
fn try_rise_floors(
    low: &Potential<'_>,
    work: &mut Work,
    fixed: &[Option<u32>],
    lags: &[u32],
    now: u32,
) -> Result<u64, AllocError>
    requires least { IsLeast (arcs_of low.now.store.now.nodes.slots) low.now.moments.now }
    requires clear { IsClear (length low.now.moments.now) work.old }
    requires events { HaveMoments fixed.now low.now.moments.now }
    ensures places { HasPlaces (length low.now.moments.now) work.new }
    ensures raised { OnOk result (IsRaisedTo (arcs_of low.now.store.now.nodes.slots)
        (AsksFloor fixed.now lags.now now) low.now.moments.now work.new.amounts.items) }
    ensures order { OnOk result (IsOrder work.new.ranks.items work.new.order.items) }
    ensures ended { OnOk result ((x : ℕ) → slice_index work.new.ranks.items x ≡ 0
        → slice_index work.new.amounts.items x ≡ 0) }
    ensures looks { IfOk result (λ looks. looks ≡ looks_at (keys_of Up low.now.store.now) (λ x.
        slice_index work.new.amounts.items x) (length low.now.moments.now)) }
{
    set_out_floors(work, low.moments, fixed, lags, now)?;
    Ok(flow(low, Direction::Up, work)?)
}

/// How far the least moments rise where the floors of events that are not fixed rise to those at a
/// moment; and how many edges were looked at: those that end at points that rise.
pub fn rise_floors(
    low: &Potential<'_>,
    work: &mut Work,
    fixed: &[Option<u32>],
    lags: &[u32],
    now: u32,
) -> Result<u64, AllocError>
    requires least { IsLeast (arcs_of low.now.store.now.nodes.slots) low.now.moments.now }
    requires idle { IsIdle (length low.now.moments.now) work.old }
    requires events { HaveMoments fixed.now low.now.moments.now }
    ensures idle { IsIdle (length low.now.moments.now) work.new }
    ensures raised { OnOk result (IsRaisedTo (arcs_of low.now.store.now.nodes.slots)
        (AsksFloor fixed.now lags.now now) low.now.moments.now work.new.amounts.items) }
    ensures looks { IfOk result (λ looks. looks ≡ looks_at (keys_of Up low.now.store.now) (λ x.
        slice_index work.new.amounts.items x) (length low.now.moments.now)) }
{
    let points = low.moments.len();
    clear(work, points);
    match try_rise_floors(low, work, fixed, lags, now) {
        Ok(looks) => Ok(looks),
        Err(error) => {
            wipe(work, points);
            Err(error)
        }
    }
}
