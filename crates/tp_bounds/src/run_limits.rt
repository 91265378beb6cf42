//! How large a run may grow.

ghost use Rattle.std.specs.Prelude.{◌≡◌, ◌≤◌};
ghost use Rattle.tp_bounds.specs.RunLimits.{greatest_limits};

use crate::{
    MOST_ACTIONS, MOST_ATOMS, MOST_BOUNDS, MOST_EVENTS, MOST_EXPANSIONS, MOST_HORIZON, MOST_IDS,
};
use std::marker::Model;

/// What bounds a run. Each number is at most the greatest that is allowed.
#[derive(Clone, Copy, Debug, PartialEq, Eq)]
pub struct Limits {
    events: u16,
    bounds: u32,
    ids: u32,
    horizon: u32,
    atoms: u32,
    actions: u32,
    expansions: u32,
}

impl Model for Limits {
    ghost use Rattle.tp_bounds.specs.RunLimits.{RunLimits, AreLimits, coded_limits};

    ghost Value = { RunLimits };

    ghost coded = { coded_limits };

    ghost view = { λ l. record {
      events = l.events;
      bounds = l.bounds;
      ids = l.ids;
      horizon = l.horizon;
      atoms = l.atoms;
      actions = l.actions;
      expansions = l.expansions;
    } };

    ghost invariant = { λ l. AreLimits (record {
      events = l.events;
      bounds = l.bounds;
      ids = l.ids;
      horizon = l.horizon;
      atoms = l.atoms;
      actions = l.actions;
      expansions = l.expansions;
    }) };

    ghost inverse = { λ l. record {
      events = l.events;
      bounds = l.bounds;
      ids = l.ids;
      horizon = l.horizon;
      atoms = l.atoms;
      actions = l.actions;
      expansions = l.expansions;
    } };
}

impl Limits {
    /// Limits of these numbers: events of a network, bounds in force, identifiers given out, the
    /// horizon in ticks, ground atoms (and ground fluents), ground actions, and states that a
    /// search expands.
    pub fn new(
        events: u16,
        bounds: u32,
        ids: u32,
        horizon: u32,
        atoms: u32,
        actions: u32,
        expansions: u32,
    ) -> Limits
        requires events { events ≤ MOST_EVENTS }
        requires bounds { bounds ≤ MOST_BOUNDS }
        requires ids { ids ≤ MOST_IDS }
        requires horizon { horizon ≤ MOST_HORIZON }
        requires atoms { atoms ≤ MOST_ATOMS }
        requires actions { actions ≤ MOST_ACTIONS }
        requires expansions { expansions ≤ MOST_EXPANSIONS }
        ensures { result ≡ record {
          events = events;
          bounds = bounds;
          ids = ids;
          horizon = horizon;
          atoms = atoms;
          actions = actions;
          expansions = expansions;
        } }
    {
        Limits {
            events,
            bounds,
            ids,
            horizon,
            atoms,
            actions,
            expansions,
        }
    }

    /// The greatest limits, under a horizon in ticks.
    pub fn greatest(horizon: u32) -> Limits
        requires { horizon ≤ MOST_HORIZON }
        ensures { result ≡ greatest_limits horizon }
    {
        Limits {
            events: MOST_EVENTS,
            bounds: MOST_BOUNDS,
            ids: MOST_IDS,
            horizon,
            atoms: MOST_ATOMS,
            actions: MOST_ACTIONS,
            expansions: MOST_EXPANSIONS,
        }
    }

    /// The most events of a network.
    pub fn events(&self) -> u16
        ensures { result ≡ self.now.events }
    {
        self.events
    }

    /// The most bounds in force at one time.
    pub fn bounds(&self) -> u32
        ensures { result ≡ self.now.bounds }
    {
        self.bounds
    }

    /// The most identifiers that are given out.
    pub fn ids(&self) -> u32
        ensures { result ≡ self.now.ids }
    {
        self.ids
    }

    /// The latest moment, in ticks.
    pub fn horizon(&self) -> u32
        ensures horizon { result ≡ self.now.horizon }
        ensures in_time { result ≤ MOST_HORIZON }
    {
        self.horizon
    }

    /// The most ground atoms, and the most ground fluents.
    pub fn atoms(&self) -> u32
        ensures { result ≡ self.now.atoms }
    {
        self.atoms
    }

    /// The most ground actions.
    pub fn actions(&self) -> u32
        ensures actions { result ≡ self.now.actions }
        ensures few { result ≤ MOST_ACTIONS }
    {
        self.actions
    }

    /// The most nodes that a search expands.
    pub fn expansions(&self) -> u32
        ensures { result ≡ self.now.expansions }
    {
        self.expansions
    }
}
