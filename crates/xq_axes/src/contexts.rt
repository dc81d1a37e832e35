//! The places of context nodes, met in turn.
ghost use Rattle.std.specs.Prelude.{◌≡◌, ◌≤◌, ◌+◌, length, slice_get};
ghost use Rattle.xq_axes.specs.private.Hits.{is_among, IsRising, IsReached};
ghost use Rattle.xq_axes.specs.private.Downward.{stop as stop_lem};
ghost use Rattle.xq_axes.specs.private.Passing.{is_next_within as is_next_within_lem};
ghost use Rattle.xq_axes.specs.private.Waiting.{latest as latest_lem, rows_below};

use crate::passing::end_of_row;
use xq_sources::LentRow;

/// Places in document order; those before an index were met.
#[derive(Clone, Copy)]
pub struct Contexts<'a> {
    places: &'a [u32],
    met: usize,
}

impl<'a> Contexts<'a> {
    /// The places, none of them met.
    pub fn new(places: &'a [u32]) -> Contexts<'a>
        ensures places { result.places.now ≡ places.now }
        ensures met { result.met ≡ 0 }
    {
        Contexts { places, met: 0 }
    }

    /// Whether the place, which comes after all that were asked for, is one of them.
    pub fn meets(&mut self, place: u32) -> bool
        ensures places { self.new.places.now ≡ self.old.places.now }
        ensures met { IsRising self.old.places.now → IsReached self.old.places.now self.old.met
            place
            → (result ≡ is_among self.old.places.now place)
            × IsReached self.old.places.now self.new.met (place + 1) }
    {
        match self.next() {
            None => false,
            Some(next) => {
                if next != place {
                    return false;
                }
                self.met += 1;
                true
            }
        }
    }

    /// The next of the places that were not met yet.
    pub fn next(&self) -> Option<u32>
        ensures { result ≡ slice_get self.now.places.now self.now.met }
    {
        self.places.get(self.met).copied()
    }

    /// Whether one of the places that were not met yet is not after the end.
    pub fn is_next_within(&self, end: u64) -> bool
        ensures { result ≡ is_next_within_lem self.now.places.now self.now.met end }
    {
        match self.next() {
            None => false,
            Some(next) => u64::from(next) <= end,
        }
    }

    /// How many of the rows right after the row, which was met, need no look where only those with
    /// contexts below them do: all below it, up to the last that is read, where they hold none.
    pub fn rows_over(&self, row: &LentRow<'_>, last: u32) -> u32
        ensures { result ≡ rows_below (slice_get self.now.places.now self.now.met)
            row.now.pre row.now.size last }
    {
        if self.is_next_within(end_of_row(row)) {
            return 0;
        }
        row.size.min(last.saturating_sub(row.pre))
    }

    /// The last place before those that were not met yet, or `last` where that is less.
    pub fn stop(&self, last: u32) -> u32
        ensures { result ≡ stop_lem (slice_get self.now.places.now self.now.met) last }
    {
        match self.next() {
            None => last,
            Some(next) => next.saturating_sub(1).min(last),
        }
    }
}

/// Places in document order; those from an index on were met.
#[derive(Clone, Copy)]
pub struct Earlier<'a> {
    places: &'a [u32],
    left: usize,
}

impl<'a> Earlier<'a> {
    /// The places, none of them met.
    pub fn new(places: &'a [u32]) -> Earlier<'a>
        ensures places { result.places.now ≡ places.now }
        ensures left { result.left ≡ length places.now }
    {
        Earlier {
            places,
            left: places.len(),
        }
    }

    /// Whether the place, which comes before all that were asked for, is one of them.
    pub fn meets(&mut self, place: u32) -> bool
        ensures places { self.new.places.now ≡ self.old.places.now }
        ensures met { IsRising self.old.places.now → IsReached self.old.places.now self.old.left
            (place + 1)
            → (result ≡ is_among self.old.places.now place)
            × IsReached self.old.places.now self.new.left place }
    {
        match self.latest() {
            None => false,
            Some(latest) => {
                if latest != place {
                    return false;
                }
                self.left = self.left.saturating_sub(1);
                true
            }
        }
    }

    /// The last of the places that were not met yet.
    pub fn latest(&self) -> Option<u32>
        ensures { self.now.left ≤ length self.now.places.now
            → result ≡ latest_lem self.now.places.now self.now.left }
    {
        if self.left == 0 {
            return None;
        }
        self.places.get(self.left - 1).copied()
    }
}
