//! The levels of rows that context nodes wait for.
ghost use Rattle.std.specs.Prelude.{◌≡◌, ◌-◌, ◌&&◌, ◌||◌, ◌==◌, [], ℕ, length, nat_le, slice_get, IfOk, OnOk};
ghost use Rattle.xq_axes.specs.private.Hits.{is_among, IsRising};
ghost use Rattle.xq_axes.specs.private.Waiting.{is_deeper, is_level, wider as wider_lem};

use std::alloc::Global;
use std::marker::Model;
use xq_atoms::Want;

/// How many rows are read at once after the first one, to begin with and at most.
const LEAST: u32 = 16;

const MOST: u32 = 4096;

/// Whether the last of the levels is deeper than this one.
fn ends_below(levels: &[u64], level: u64) -> bool
    ensures { result ≡ is_deeper (slice_get levels.now (length levels.now - 1)) level }
{
    match levels.last() {
        Some(last) => *last > level,
        None => false,
    }
}

/// Whether the last of the levels is this one.
fn ends_at(levels: &[u64], level: u64) -> bool
    ensures { result ≡ is_level (slice_get levels.now (length levels.now - 1)) level }
{
    match levels.last() {
        Some(last) => *last == level,
        None => false,
    }
}

/// Takes out of the levels, which rise, those that are deeper than this one.
fn leave_deeper(levels: &mut Vec<u64>, level: u64)
    ensures rising { IsRising levels.old.items → IsRising levels.new.items }
    ensures kept { IsRising levels.old.items → (m : ℕ) → is_among levels.new.items m
        ≡ (is_among levels.old.items m && nat_le m level) }
{
    while ends_below(levels, level) {
        levels.pop();
    }
}

/// Levels at which rows are awaited. They rise, so that the deepest is the last.
#[derive(Drop)]
pub struct Levels {
    list: Vec<u64>,
}

impl Model for Levels {
    ghost use Rattle.std.specs.Prelude.{ℕ, List};
    ghost use Rattle.xq_axes.specs.private.Hits.{IsRising};

    ghost Value = { List ℕ };

    ghost view = { λ levels. levels.list.items };

    ghost invariant = { λ levels. IsRising levels.list.items };
}

impl Levels {
    /// No level.
    pub fn new(alloc: Global) -> Levels
        ensures { result ≡ [] }
    {
        Levels {
            list: Vec::new(alloc),
        }
    }

    /// Whether no row is awaited.
    pub fn is_empty(&self) -> bool
        ensures { result ≡ (length self.now == 0) }
    {
        self.list.is_empty()
    }

    /// Whether rows of the level are awaited.
    pub fn has(&self, level: u64) -> bool
        ensures { result ≡ is_among self.now level }
    {
        self.list.contains(&level)
    }

    /// Meets a row of the level, after which none of deeper ones is awaited. Tells whether it was
    /// awaited; rows of its level are, from here on, where it is a context that waits for them.
    pub fn meet(&mut self, level: u64, waits: bool) -> Result<bool, Want>
        ensures awaited { IfOk result (λ awaited. awaited ≡ is_among self.old level) }
        ensures levels { OnOk result ((m : ℕ) → is_among self.new m
            ≡ ((is_among self.old m && nat_le m level) || (waits && (level == m)))) }
    {
        leave_deeper(&mut self.list, level);
        let is_awaited = ends_at(&self.list, level);
        if waits && !is_awaited {
            self.list.push(level)?;
        }
        Ok(is_awaited)
    }

    /// How many rows to read next: ever more while rows are awaited.
    pub fn wider(&self, width: u32) -> u32
        ensures { result ≡ wider_lem self.now width }
    {
        if self.list.is_empty() {
            return LEAST;
        }
        width.saturating_mul(2).min(MOST)
    }
}
