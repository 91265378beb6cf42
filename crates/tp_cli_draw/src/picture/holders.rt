//! Which bounds hold the windows of events, and which of these are drawn as arrows.

use crate::picture::extents::Placed;
use crate::picture::lengths::Length;
use crate::picture::scene::{Event, Order, Scene};
use std::alloc::{AllocError, Global};

/// With more steps than these there are fewer arrows: none of those that hold only a latest moment,
/// and none over many rows.
const SOME_STEPS: usize = 20;

const MANY_STEPS: usize = 60;

/// How far an arrow goes up or down, at most, where there are many steps.
const FAR: Length = Length(3_360);

/// The bound that holds a moment of an event: the nearest one of those that do.
#[derive(Clone, Copy, Debug, PartialEq, Eq, PartialOrd, Ord)]
pub struct Holder {
    /// Whether it is a bound to tick 0, which counts as the farthest.
    pub is_origin: bool,
    /// How far the bars of its two events lie apart.
    pub distance: Length,
    /// How many ticks they lie apart.
    pub ticks: i64,
    pub id: u32,
    /// The other event of the bound, 0 where it is tick 0.
    pub other: u16,
}

/// What holds the earliest and the latest moment of an event.
#[derive(Clone, Copy, Debug, Drop)]
pub struct Held {
    pub earliest: Option<Holder>,
    pub latest: Option<Holder>,
}

/// An arrow between two events, and the bounds that it stands for: one that holds the earliest
/// moment of the second event, one that holds the latest moment of the first.
#[derive(Clone, Copy, Debug, PartialEq, Eq, PartialOrd, Ord)]
pub struct Arrow {
    pub from: u16,
    pub to: u16,
    pub earliest: Option<u32>,
    pub latest: Option<u32>,
}

/// Where the bar of an event lies.
fn height(placed: &[Placed], event: &Event) -> Length {
    match placed.get(event.step) {
        Some(step) => step.y,
        None => Length(0),
    }
}

/// How far two lengths lie apart.
fn apart(a: Length, b: Length) -> Length {
    (a - b).max(b - a)
}

/// The bound as the holder of an event, whose other event is `other`.
fn holder_of(scene: &Scene, placed: &[Placed], order: &Order, other: Option<u16>) -> Holder {
    let (Some(from), Some(to)) = (order.from, order.to) else {
        return Holder {
            is_origin: true,
            distance: Length(0),
            ticks: 0,
            id: order.id,
            other: other.unwrap_or(0),
        };
    };
    let from = scene.event(from.into());
    let to = scene.event(to.into());
    Holder {
        is_origin: false,
        distance: apart(height(placed, &from), height(placed, &to)),
        ticks: i64::from(from.at) - i64::from(to.at),
        id: order.id,
        other: other.unwrap_or(0),
    }
}

/// Whether a bound keeps an order: between events of two steps, of which one comes first; or to
/// tick 0.
fn is_order(scene: &Scene, order: &Order) -> bool {
    match (order.from, order.to) {
        (Some(from), Some(to)) => {
            order.weight <= 0 && scene.event(from.into()).step != scene.event(to.into()).step
        }
        _ => true,
    }
}

/// The least and the greatest moment of a point.
fn window_of(scene: &Scene, point: Option<u16>) -> (i64, i64) {
    match point {
        Some(number) => {
            let event = scene.event(number.into());
            (i64::from(event.low), i64::from(event.high))
        }
        None => (0, 0),
    }
}

/// Whether a bound holds the earliest moment of its `from`.
fn holds_earliest(scene: &Scene, order: &Order) -> bool {
    let Some(number) = order.from else {
        return false;
    };
    let event = scene.event(number.into());
    let least = i64::from(event.low);
    let (other, _) = window_of(scene, order.to);
    !event.happened && event.low > scene.now() && least.saturating_add(order.weight) == other
}

/// Whether a bound holds the latest moment of its `to`.
fn holds_latest(scene: &Scene, order: &Order) -> bool {
    let Some(number) = order.to else {
        return false;
    };
    let event = scene.event(number.into());
    let greatest = i64::from(event.high);
    let (_, other) = window_of(scene, order.from);
    !event.happened && event.high < scene.horizon && other.saturating_add(order.weight) == greatest
}

/// The nearer of two holders.
fn nearer(held: Option<Holder>, other: Holder) -> Option<Holder> {
    match held {
        Some(holder) => Some(holder.min(other)),
        None => Some(other),
    }
}

/// Notes what a bound holds.
fn note(scene: &Scene, placed: &[Placed], held: &mut [Held], order: &Order) {
    if !is_order(scene, order) {
        return;
    }
    if holds_earliest(scene, order) {
        let holder = holder_of(scene, placed, order, order.to);
        if let Some(event) = held.get_mut(usize::from(order.from.unwrap_or(0))) {
            event.earliest = nearer(event.earliest, holder);
        }
    }
    if holds_latest(scene, order) {
        let holder = holder_of(scene, placed, order, order.from);
        if let Some(event) = held.get_mut(usize::from(order.to.unwrap_or(0))) {
            event.latest = nearer(event.latest, holder);
        }
    }
}

/// What holds each event, by its number.
pub(crate) fn held_by(
    alloc: Global,
    scene: &Scene,
    placed: &[Placed],
) -> Result<Vec<Held>, AllocError> {
    let none = Held {
        earliest: None,
        latest: None,
    };
    let mut held = Vec::new(alloc);
    for _event in &scene.events {
        held.push(none)?;
    }
    for order in &scene.orders {
        note(scene, placed, &mut held, order);
    }
    Ok(held)
}

/// Whether a holder of an earliest moment is drawn.
fn is_drawn(scene: &Scene, holder: &Holder) -> bool {
    !holder.is_origin && (scene.steps.len() <= MANY_STEPS || holder.distance <= FAR)
}

/// The bound that holds the latest moment of an event against another one, where it is drawn.
fn latest_drawn(scene: &Scene, held: &[Held], event: u16, other: u16) -> Option<u32> {
    let holder = held.get(usize::from(event))?.latest?;
    if scene.steps.len() <= SOME_STEPS && !holder.is_origin && holder.other == other {
        Some(holder.id)
    } else {
        None
    }
}

/// The bound that holds the earliest moment of an event against another one, where it is drawn.
fn earliest_drawn(scene: &Scene, held: &[Held], event: u16, other: u16) -> Option<u32> {
    let holder = held.get(usize::from(event))?.earliest?;
    if is_drawn(scene, &holder) && holder.other == other {
        Some(holder.id)
    } else {
        None
    }
}

/// The arrow to an event whose earliest moment is held, if it is drawn.
fn arrow_to(scene: &Scene, held: &[Held], event: u16) -> Option<Arrow> {
    let from = held.get(usize::from(event))?.earliest?.other;
    Some(Arrow {
        from,
        to: event,
        earliest: Some(earliest_drawn(scene, held, event, from)?),
        latest: latest_drawn(scene, held, from, event),
    })
}

/// The arrow from an event whose latest moment is held, if it is drawn and is no arrow of
/// `arrow_to`.
fn arrow_from(scene: &Scene, held: &[Held], event: u16) -> Option<Arrow> {
    let to = held.get(usize::from(event))?.latest?.other;
    let latest = latest_drawn(scene, held, event, to)?;
    match earliest_drawn(scene, held, to, event) {
        Some(_) => None,
        None => Some(Arrow {
            from: event,
            to,
            earliest: None,
            latest: Some(latest),
        }),
    }
}

/// The arrows, by the numbers of their events.
pub(crate) fn arrows_of(
    alloc: Global,
    scene: &Scene,
    held: &[Held],
) -> Result<Vec<Arrow>, AllocError> {
    let mut arrows = Vec::new(alloc);
    for event in 0..u16::try_from(held.len()).unwrap_or(u16::MAX) {
        if let Some(arrow) = arrow_to(scene, held, event) {
            arrows.push(arrow)?;
        }
        if let Some(arrow) = arrow_from(scene, held, event) {
            arrows.push(arrow)?;
        }
    }
    arrows.sort_unstable();
    Ok(arrows)
}
