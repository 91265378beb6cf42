//! Times in units.

use crate::picture::scene::Scene;
use std::alloc::{AllocError, Global};
use std::fmt::Write;

/// Puts a time, with as many decimals as times of the scene have.
pub(crate) fn put_time(svg: &mut String, scene: &Scene, tick: u32) -> Result<(), AllocError> {
    match scene.decimals {
        0 => write!(svg, "{tick}"),
        1 => write!(svg, "{}.{}", tick / 10, tick % 10),
        2 => write!(svg, "{}.{:02}", tick / 100, tick % 100),
        _ => write!(svg, "{}.{:03}", tick / 1000, tick % 1000),
    }
}

/// A time, with as many decimals as times of the scene have.
pub(crate) fn time(alloc: Global, scene: &Scene, tick: u32) -> Result<String, AllocError> {
    let mut text = String::new(alloc);
    put_time(&mut text, scene, tick)?;
    Ok(text)
}

/// How many decimals the multiples of a number of ticks need.
pub(crate) fn decimals_of(scene: &Scene, ticks: u32) -> u8 {
    let mut decimals = scene.decimals;
    let mut power = 10u32;
    for _ in 0..scene.decimals {
        if ticks % power.max(1) != 0 {
            return decimals;
        }
        decimals = decimals.saturating_sub(1);
        power = power.saturating_mul(10);
    }
    decimals
}

/// A time with a number of decimals, where the others are zeros.
pub(crate) fn short_time(
    alloc: Global,
    scene: &Scene,
    decimals: u8,
    tick: u32,
) -> Result<String, AllocError> {
    let whole = time(alloc, scene, tick)?;
    let Some((units, part)) = whole.as_str().split_once('.') else {
        return Ok(whole);
    };
    let mut short = String::from_str(alloc, units)?;
    if decimals > 0 {
        short.push('.')?;
    }
    for digit in part.chars().take(usize::from(decimals)) {
        short.push(digit)?;
    }
    Ok(short)
}
