//! Addresses of documents, each found by halves.
ghost use Rattle.std.specs.Prelude.{◌≡◌, ◌↔◌, ◌<◌, [], None, Some, length, map, slice_get, string_bytes, IfSome, IsTrue, MatchResult, OnErr, OnOk};
ghost use Rattle.std.specs.List.{insert as insert_lem, remove as remove_lem};
ghost use Rattle.xq_sources.specs.Addresses.{IsBefore, IsGap, Rise};

use std::alloc::Global;
use std::cmp::Ordering;
use std::marker::Model;
use xq_atoms::Want;

/// Addresses in the order of their bytes, each once. Contracts see their bytes.
#[derive(Drop)]
pub struct Addresses {
    list: Vec<String>,
}

impl Model for Addresses {
    ghost use Rattle.std.specs.Prelude.{ℕ, List, map, string_bytes};
    ghost use Rattle.std.specs.Coded.{coded_list, coded_ℕ};
    ghost use Rattle.xq_sources.specs.Addresses.{Rise};

    ghost Value = { List (List ℕ) };

    ghost coded = { coded_list (coded_list coded_ℕ) };

    ghost view = { λ a. map string_bytes a.list.items };

    ghost invariant = { λ a. Rise (map string_bytes a.list.items) };
}

impl Addresses {
    /// No address.
    pub fn new(alloc: Global) -> Addresses
        ensures { result ≡ [] }
    {
        Addresses {
            list: Vec::new(alloc),
        }
    }

    /// These addresses, or None where one does not come before the next.
    pub fn from_rising(list: Vec<String>) -> Option<Addresses>
        ensures some { IfSome result (λ all. all ≡ map string_bytes list.items) }
        ensures none { result ≡ None → ¬ (Rise (map string_bytes list.items)) }
    {
        if do_rise(&list) {
            Some(Addresses { list })
        } else {
            None
        }
    }

    /// The addresses, in their order.
    pub fn as_slice(&self) -> &[String]
        ensures { map string_bytes result.now ≡ self.now }
    {
        &self.list
    }

    /// Where the address stands, or else where it would.
    pub fn search(&self, address: &str) -> Result<usize, usize>
        ensures found { MatchResult result (λ place. slice_get self.now place ≡ Some address.now)
            (λ place. IsGap self.now place address.now) }
        ensures rise { Rise self.now }
    {
        let mut low = 0;
        let mut high = self.list.len();
        while low < high {
            let middle = low + (high - low) / 2;
            match self.list[middle].as_str().cmp(address) {
                Ordering::Less => low = middle + 1,
                Ordering::Equal => return Ok(middle),
                Ordering::Greater => high = middle,
            }
        }
        Err(low)
    }

    /// Adds an address where it would stand. Where memory is short the others are as before.
    pub fn insert(&mut self, place: usize, address: &str) -> Result<(), Want>
        requires { IsGap self.old place address.now }
        ensures ok { OnOk result (self.new ≡ insert_lem self.old place address.now) }
        ensures err { OnErr result (self.new ≡ self.old) }
    {
        let added = String::from_str(*self.list.allocator(), address)?;
        self.list.insert(place, added)?;
        Ok(())
    }

    /// Takes the address at a place out.
    pub fn remove(&mut self, place: usize)
        requires { place < length self.old }
        ensures { self.new ≡ remove_lem self.old place }
    {
        let _removed = self.list.remove(place);
    }
}

/// Whether the bytes of one address come before those of the other.
fn comes_before(first: &str, second: &str) -> bool
    ensures { IsTrue result ↔ IsBefore first.now second.now }
{
    matches!(first.cmp(second), Ordering::Less)
}

/// Whether each address comes before the next.
fn do_rise(list: &[String]) -> bool
    ensures { IsTrue result ↔ Rise (map string_bytes list.now) }
{
    for next in 1..list.len() {
        if !comes_before(list[next - 1].as_str(), list[next].as_str()) {
            return false;
        }
    }
    true
}
