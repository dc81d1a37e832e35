//! A place in few bytes.
ghost use Rattle.std.specs.Prelude.{◌≡◌, ◌-◌, ◌<◌, ◌^◌, Some, None};

use std::marker::Model;

/// The place of a variable, or none.
#[derive(Drop)]
pub struct Place {
    /// One more than the place, and 0 for none: in four bytes, so that many names fit the cache.
    next: u32,
}

impl Model for Place {
    ghost use Rattle.std.specs.Prelude.{ℕ, Option};
    ghost use Rattle.xq_expressions.specs.private.Places.{place_before};

    ghost Value = { Option ℕ };

    ghost view = { λ place. place_before place.next };
}

impl Place {
    /// No place.
    pub fn none() -> Place
        ensures { result ≡ None }
    {
        Place { next: 0 }
    }

    /// The place with this number.
    pub fn at(place: usize) -> Place
        requires { place < 2 ^ 32 - 1 }
        ensures { result ≡ Some place }
    {
        Place {
            next: place as u32 + 1,
        }
    }

    /// The place's number; none where it is no place.
    pub fn get(&self) -> Option<usize>
        ensures { result ≡ self.now }
    {
        if self.next > 0 {
            Some(self.next as usize - 1)
        } else {
            None
        }
    }
}
