//! Distinct names, which are numbered.
ghost use Rattle.std.specs.Prelude.{◌≡◌, ◌<◌, ◌++◌, ◌∷◌, [], false, length, position, string_bytes, bytes_eq, IfOk, IfErr, OnOk, OnErr, IfSome, IfNone};
ghost use Rattle.std.specs.List.{IsDistinct, list_any};
ghost use Rattle.xq_packed.specs.Packed.{with_name, IsNumbered, IsNumberOf};

use indexmap::IndexSet;
use std::alloc::Global;
use std::marker::Model;
use xq_atoms::Want;

/// How many names are looked for one by one. Most constructed trees have no more, and make no
/// table then.
const FEW: usize = 16;

/// The most names: their numbers have four bytes.
const MOST_NAMES: usize = 0x1_0000_0000;

/// What a name takes beside its own bytes: where they lie, and what it is found by.
const BESIDE_A_NAME: usize = 64;

/// Distinct names, each with its number: how many were added before it. Contracts see them in the
/// order of their numbers.
#[derive(Drop)]
pub struct NameTable {
    /// The first of them.
    few: Vec<String>,
    /// Those after them, where there are more.
    many: IndexSet<String>,
    /// How many bytes they take in all.
    bytes: usize,
}

impl Model for NameTable {
    ghost use Rattle.std.specs.Prelude.{ℕ, List, ◌++◌, map, string_bytes};
    ghost use Rattle.std.specs.Coded.{coded_ℕ, coded_list};

    ghost Value = { List (List ℕ) };

    ghost coded = { coded_list (coded_list coded_ℕ) };

    ghost use Rattle.xq_packed.specs.private.Names.{AreNumbered};

    ghost view = { λ n. map string_bytes n.few.items ++ map string_bytes n.many.keys };

    ghost invariant = { λ n. AreNumbered (map string_bytes n.few.items)
        (map string_bytes n.many.keys) };
}

/// The first place at which the name is among others.
fn place_among(names: &[String], name: &str) -> Option<usize>
    ensures { result ≡ position (λ other. bytes_eq name.now (string_bytes other)) names.now }
{
    names.iter().position(|other| name == other.as_str())
}

impl NameTable {
    /// No name.
    pub fn new(alloc: Global) -> NameTable
        ensures { result ≡ [] }
    {
        NameTable {
            few: Vec::new(alloc),
            many: IndexSet::new(alloc),
            bytes: 0,
        }
    }

    /// How many bytes they take in all.
    #[inline]
    pub fn bytes(&self) -> usize {
        self.bytes
    }

    /// Where the names are kept.
    pub fn allocator(&self) -> Global
        ensures { IsDistinct bytes_eq self.now }
    {
        *self.few.allocator()
    }

    /// The name with this number.
    #[inline]
    pub fn get(&self, number: u32) -> &str
        requires { number < length self.now }
        ensures { IsNumbered self.now number result.now }
    {
        let place = number as usize;
        if place < self.few.len() {
            self.few[place].as_str()
        } else {
            self.many[place - self.few.len()].as_str()
        }
    }

    /// The number of a name; none where it is not among them.
    pub fn number_of(&self, name: &str) -> Option<u32>
        ensures number { IfSome result (λ number. IsNumberOf self.now number name.now) }
        ensures none { IfNone result (list_any (bytes_eq name.now) self.now ≡ false) }
    {
        if let Some(place) = place_among(&self.few, name) {
            return Some(place as u32);
        }
        match self.many.get_index_of(name) {
            Some(place) => Some((self.few.len() + place) as u32),
            None => None,
        }
    }

    /// Adds a name that is not among them, and gives its number.
    fn add(&mut self, name: &str) -> Result<u32, Want>
        requires { list_any (bytes_eq name.now) self.old ≡ false }
        ensures number { IfOk result (λ number. IsNumbered self.new number name.now) }
        ensures names { OnOk result (self.new ≡ self.old ++ name.now ∷ []) }
        ensures err { OnErr result (self.new ≡ self.old) }
        ensures want { IfErr result (λ want. want ≡ Want.Memory) }
    {
        let number = self.few.len() + self.many.len();
        if number >= MOST_NAMES {
            return Err(Want::Memory);
        }
        let kept = String::from_str(*self.few.allocator(), name)?;
        let bytes = name.len().saturating_add(BESIDE_A_NAME);
        if number < FEW {
            self.few.push(kept)?;
            self.bytes = self.bytes.saturating_add(bytes);
            return Ok(number as u32);
        }
        let _ = self.many.insert(kept)?;
        self.bytes = self.bytes.saturating_add(bytes);
        Ok(number as u32)
    }

    /// The number of a name, which is added where it is not among them. Where it is refused, they
    /// are as before.
    pub fn number_among(&mut self, name: &str) -> Result<u32, Want>
        ensures number { IfOk result (λ number. IsNumbered self.new number name.now) }
        ensures names { OnOk result (self.new ≡ with_name self.old name.now) }
        ensures err { OnErr result (self.new ≡ self.old) }
        ensures want { IfErr result (λ want. want ≡ Want.Memory) }
    {
        match self.number_of(name) {
            Some(number) => Ok(number),
            None => self.add(name),
        }
    }
}
