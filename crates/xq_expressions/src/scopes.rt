//! The variables in scope, in the order in which they were bound.

ghost use Rattle.std.specs.Prelude.{◌≡◌, ◌-◌, [], ◌∷◌, ◌++◌, length, take, drop, OnOk, OnErr};
ghost use Rattle.xq_expressions.specs.Scopes.{is_among, last_place, from_place};

use crate::place::Place;
use indexmap::IndexMap;
use std::alloc::{AllocError, Global};
use std::marker::Model;

/// The most variables, and the most names, of a scope: their numbers have four bytes.
const MOST: usize = 0xFFFF_FFFF;

/// A variable in scope.
#[derive(Drop)]
struct Bound {
    /// The number of its name.
    number: u32,
    /// The place of the last binding before it with the same name, which this one hides.
    hidden: Place,
}

/// The variables in scope. Each is found by its name in the same time, however many there are.
#[derive(Drop)]
pub struct Scope<'a> {
    bound: Vec<Bound>,
    /// For each name that was ever bound the place of its last binding that is in scope. A name
    /// stays, so it keeps its number, and leaving a scope reads no name.
    last: IndexMap<&'a str, Place>,
}

impl<'a> Model for Scope<'a> {
    ghost use Rattle.std.specs.Prelude.{ℕ, List, []};
    ghost use Rattle.indexmap.specs.IndexMap.{keys};
    ghost use Rattle.xq_expressions.specs.private.Kept.{names_of, IsLast, AreHidden, AreNumbered};

    ghost Value = { List (List ℕ) };

    ghost view = { λ scope. names_of (keys scope.last) scope.bound.items };

    ghost invariant = { λ scope. IsLast scope.last scope.bound.items
        × AreHidden (keys scope.last) [] scope.bound.items
        × AreNumbered (keys scope.last) scope.bound.items };
}

impl<'a> Scope<'a> {
    /// No variable.
    pub fn new(alloc: Global) -> Scope<'a>
        ensures { result ≡ [] }
    {
        Scope {
            bound: Vec::new(alloc),
            last: IndexMap::new(alloc),
        }
    }

    /// How many variables have been bound.
    pub fn len(&self) -> usize
        ensures { result ≡ length self.now }
    {
        self.bound.len()
    }

    /// The place of the last variable of this name.
    pub fn slot(&self, name: &str) -> Option<usize>
        ensures { result ≡ last_place name.now 0 self.now }
    {
        match self.last.get(name) {
            Some(last) => last.get(),
            None => None,
        }
    }

    /// The place of the last variable of this name among those from a place on, counted from there.
    pub fn slot_from(&self, place: usize, name: &str) -> Option<usize>
        ensures { result ≡ from_place place (last_place name.now 0 self.now) }
    {
        match self.slot(name) {
            Some(last) if last >= place => Some(last - place),
            _ => None,
        }
    }

    /// Whether a variable of this name is in scope.
    pub fn sees(&self, name: &str) -> bool
        ensures { result ≡ is_among name.now self.now }
    {
        self.slot(name).is_some()
    }

    /// Whether one of the variables from a place on has this name.
    pub fn sees_from(&self, place: usize, name: &str) -> bool
        ensures { result ≡ is_among name.now (drop place self.now) }
    {
        match self.slot(name) {
            Some(last) => last >= place,
            None => false,
        }
    }

    /// Brings a variable into scope. It refuses only for want of memory, and then leaves the scope
    /// as it was.
    pub fn bind(&mut self, name: &'a str) -> Result<(), AllocError>
        ensures bound { OnOk result (self.new ≡ self.old ++ name.now ∷ []) }
        ensures kept { OnErr result (self.new ≡ self.old) }
    {
        let place = self.bound.len();
        if place >= MOST || self.last.len() >= MOST {
            return Err(AllocError);
        }
        self.bound.reserve(1)?;
        let (number, before) = self.last.insert_full(name, Place::at(place))?;
        let hidden = match before {
            Some(last) => last,
            None => Place::none(),
        };
        self.bound.push_reserved(Bound {
            number: number as u32,
            hidden,
        });
        Ok(())
    }

    /// Takes the last variable out of scope, if there is one.
    fn unbind(&mut self)
        ensures { self.new ≡ take (length self.old - 1) self.old }
    {
        let Some(variable) = self.bound.pop() else {
            return;
        };
        if let Some(last) = self.last.get_index_mut(variable.number as usize) {
            *last = variable.hidden;
        }
    }

    /// Takes the variables from a place on out of scope.
    pub fn leave(&mut self, place: usize)
        ensures { self.new ≡ take place self.old }
    {
        while self.len() > place {
            self.unbind();
        }
    }
}
