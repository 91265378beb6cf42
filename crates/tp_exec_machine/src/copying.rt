//! What a network holds, copied into a setting.

ghost use Rattle.std.specs.Prelude.{◌≡◌, ℕ, ◌≤◌, length, None, OnOk};
ghost use Rattle.std.specs.FinMap as map;
ghost use Rattle.tp_bounds.specs.Setting.{event_count, fixed_at};
ghost use Rattle.tp_bounds.specs.Lawful.{IsLawful};

use std::alloc::AllocError;
use tp_bounds::{BoundId, Setting};
use tp_net::Net;

/// Puts the network's bounds in force, each under its identifier. No identifier from `next` on is
/// in force.
pub(crate) fn copy_bounds<N: Net>(
    net: &N,
    next: u32,
    setting: &mut Setting,
) -> Result<(), AllocError>
    requires lawful { IsLawful (N.seen net.now) }
    requires unused { (id : ℕ) → next ≤ id → map.get (N.seen net.now).bounds id ≡ None }
    requires events { event_count setting.old ≡ event_count (N.seen net.now) }
    requires empty { setting.old.bounds ≡ map.empty }
    ensures { OnOk result (setting.new ≡ record setting.old { bounds = (N.seen net.now).bounds }) }
{
    for number in 0..next {
        let id = BoundId(number);
        let Some(bound) = net.bound(id) else {
            continue;
        };
        setting.put(id, bound)?;
    }
    Ok(())
}

/// Gives the events the lags that they have in the network. In the setting it is still 0.
pub(crate) fn copy_lags<N: Net>(net: &N, setting: &mut Setting)
    requires lawful { IsLawful (N.seen net.now) }
    requires start { setting.old.clock ≡ 0 }
    requires events { event_count setting.old ≡ event_count (N.seen net.now) }
    requires room { length setting.old.lags ≡ length (N.seen net.now).lags }
    ensures { setting.new ≡ record setting.old { lags = (N.seen net.now).lags } }
{
    for e in 0..net.events() {
        setting.set_lag(e, net.lag(e));
    }
}

/// Dispatches the events that the network has dispatched, each at its moment. In the setting it is
/// still 0, so that no moment lies before its floor.
pub(crate) fn copy_past<N: Net>(net: &N, setting: &mut Setting)
    requires lawful { IsLawful (N.seen net.now) }
    requires start { setting.old.clock ≡ 0 }
    requires horizon { setting.old.horizon ≡ (N.seen net.now).horizon }
    requires events { event_count setting.old ≡ event_count (N.seen net.now) }
    requires no_past { (e : ℕ) → fixed_at setting.old e ≡ None }
    ensures { setting.new ≡ record setting.old { fixed = (N.seen net.now).fixed } }
{
    for e in 0..net.events() {
        let Some(moment) = net.fixed(e) else {
            continue;
        };
        setting.fix(e, moment);
    }
}
