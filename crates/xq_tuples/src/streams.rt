//! The stream of tuples, and the clauses that make one stream of another.
ghost use Rattle.std.specs.Prelude.{◌≡◌, ◌*◌, ◌<◌, ◌^◌, [], ◌∷◌, length, map, slice_index_or, All, IsTrue, ◌↔◌, IfOk, IfErr, Ok, false, true};
ghost use Rattle.std.specs.List.{flat_map};
ghost use Rattle.xq_trees.specs.Tuples.{bound, expanded, grouped, numbered, satisfying, ordered, value_at};
ghost use Rattle.xq_tuples.specs.Keys.{columns_of, row_of, rows_in, by_specification, by_tuple};
ghost use Rattle.xq_atoms.specs.Answers.{IsRefusal};
ghost use Rattle.xq_tuples.specs.Orders.{rule_of};
ghost use Rattle.xq_tuples.specs.Views.{values_of};
ghost use Rattle.xq_trees.specs.Items.{Value as AtomView, item_view, item_views};

use crate::groups::{gather, joined};
use crate::keys::{dealt, key_columns, key_lists, turned};
use crate::order::{sort_columns, sorted};
use crate::rows::{Key, OrderSpec};
use crate::slots::SlotValue;
use crate::values::{
    move_slots, position_value, push_copies, push_each, push_each_or_empty, push_tuple, slots_bound,
};
use std::alloc::Global;
use std::marker::Model;
use xq_atoms::{Atom, Fault, Want};
use xq_trees::{Item, Items};

/// A stream of tuples, which have equally many slots. Contracts see the list of tuples, each as
/// the list of its values.
#[derive(Drop)]
pub struct Tuples {
    alloc: Global,
    /// The slots of all tuples, one tuple after another.
    slots: Vec<SlotValue>,
    /// How many slots each tuple has, and none where there is no tuple.
    width: usize,
    /// How many tuples there are.
    count: usize,
}

impl Model for Tuples {
    ghost use Rattle.std.specs.Prelude.{List, length};
    ghost use Rattle.xq_trees.specs.Items.{ItemView};
    ghost use Rattle.xq_tuples.specs.Keys.{by_tuple};
    ghost use Rattle.xq_tuples.specs.Views.{values_of};
    ghost use Rattle.xq_tuples.specs.private.Laid.{AreLaid};

    ghost Value = { List (List (List ItemView)) };

    ghost view = { λ t. by_tuple t.count t.width (values_of t.slots.items) };

    ghost invariant = { λ t. AreLaid t.count t.width (length t.slots.items) };
}

impl Tuples {
    /// The stream of so many tuples, of so many slots each, which lie one after another.
    fn of_slots(alloc: Global, slots: Vec<SlotValue>, count: usize, width: usize) -> Tuples
        requires long { length slots.items ≡ count * width }
        requires few { count < 2 ^ 63 }
        ensures { result ≡ by_tuple count width (values_of slots.items) }
    {
        if count == 0 {
            return Tuples {
                alloc,
                slots,
                width: 0,
                count,
            };
        }
        Tuples {
            alloc,
            slots,
            width,
            count,
        }
    }

    /// The stream of one tuple without slots, with which a FLWOR expression begins.
    pub fn one(alloc: Global) -> Result<Tuples, Want>
        ensures stream { IfOk result (λ stream. stream ≡ [] ∷ []) }
        ensures want { IfErr result (λ want. want ≡ Want.Memory) }
    {
        Ok(Tuples::of_slots(alloc, Vec::new(alloc), 1, 0))
    }

    /// The number of tuples.
    #[inline]
    pub fn len(&self) -> usize
        ensures { result ≡ length self.now }
    {
        self.count
    }

    /// Whether each tuple has the slot.
    pub fn has_slot(&self, slot: usize) -> bool
        ensures { IsTrue result ↔ All (λ tuple. slot < length tuple) self.now }
    {
        if self.count == 0 {
            return true;
        }
        slot < self.width
    }

    /// The value of the slot in each tuple.
    pub fn column(&self, slot: usize) -> Result<Vec<Items>, Want>
        requires { All (λ tuple. slot < length tuple) self.now }
        ensures values { IfOk result (λ column. map item_views column.items
            ≡ map (value_at slot) self.now) }
        ensures want { IfErr result (λ want. want ≡ Want.Memory) }
    {
        let alloc = self.alloc;
        let mut column = Vec::with_capacity(alloc, self.count)?;
        for index in 0..self.count {
            let mut value = Vec::new(alloc);
            push_copies(alloc, &mut value, self.value(index, slot))?;
            column.push(value)?;
        }
        Ok(column)
    }

    /// The value of the slot in one tuple.
    pub fn value(&self, tuple: usize, slot: usize) -> &[Item]
        requires tuple { tuple < length self.now }
        requires slot { slot < length (slice_index_or self.now tuple []) }
        ensures { map item_view result.now ≡ value_at slot (slice_index_or self.now tuple []) }
    {
        self.tuple(tuple)[slot].items()
    }

    /// The values of one tuple, which it may share with others.
    #[inline]
    pub fn tuple(&self, index: usize) -> &[SlotValue]
        requires { index < length self.now }
        ensures { values_of result.now ≡ slice_index_or self.now index [] }
    {
        let start = index * self.width;
        &self.slots[start..start + self.width]
    }

    /// The values of the tuple with this number; none where there is no such tuple.
    pub(crate) fn found(&self, number: usize) -> &[SlotValue]
        ensures { values_of result.now ≡ slice_index_or self.now number [] }
    {
        if number >= self.count {
            return &self.slots[..0];
        }
        self.tuple(number)
    }

    /// The slots of the tuples with these numbers, one tuple after another.
    fn arranged(&self, numbers: &[usize]) -> Result<Vec<SlotValue>, Want>
        ensures slots { IfOk result (λ slots. values_of slots.items
            ≡ flat_map (λ number. slice_index_or self.now number []) numbers.now) }
        ensures want { IfErr result (λ want. want ≡ Want.Memory) }
    {
        let mut slots = Vec::with_capacity(self.alloc, self.slots.len())?;
        for number in numbers {
            push_tuple(&mut slots, self.found(*number))?;
        }
        Ok(slots)
    }

    /// `for`: the stream where each tuple stands once for each item of the list at its place in
    /// `lists`, with a slot that holds the item, and where `at` asks for it another that holds its
    /// position, from 1.
    pub fn expand(self, lists: Vec<Items>, at: bool) -> Result<Tuples, Want>
        requires { length lists.items ≡ length self }
        ensures stream { IfOk result (λ stream. stream
            ≡ expanded AtomView false at self (map item_views lists.items)) }
        ensures want { IfErr result (λ want. want ≡ Want.Memory) }
    {
        let alloc = self.alloc;
        let mut slots = Vec::new(alloc);
        let mut count = 0;
        for (index, items) in lists.into_iter().enumerate() {
            let more = items.len();
            push_each(alloc, &mut slots, self.tuple(index), items, at)?;
            count += more;
        }
        let width = self.width + slots_bound(at);
        Ok(Tuples::of_slots(alloc, slots, count, width))
    }

    /// `for` that allows the empty sequence: as [`Tuples::expand`], and where the list at a tuple's
    /// place is empty, the tuple stands once, with a slot that holds the empty sequence, and where
    /// `at` asks for it another that holds 0.
    pub fn expand_empty(self, lists: Vec<Items>, at: bool) -> Result<Tuples, Want>
        requires { length lists.items ≡ length self }
        ensures stream { IfOk result (λ stream. stream
            ≡ expanded AtomView true at self (map item_views lists.items)) }
        ensures want { IfErr result (λ want. want ≡ Want.Memory) }
    {
        let alloc = self.alloc;
        let mut slots = Vec::new(alloc);
        let mut count = 0;
        for (index, items) in lists.into_iter().enumerate() {
            let more = items.len().max(1);
            push_each_or_empty(alloc, &mut slots, self.tuple(index), items, at)?;
            count += more;
        }
        let width = self.width + slots_bound(at);
        Ok(Tuples::of_slots(alloc, slots, count, width))
    }

    /// `count`: the stream where each tuple has one slot more, with the tuple's number from 1.
    pub fn number(self) -> Result<Tuples, Want>
        ensures stream { IfOk result (λ stream. stream ≡ numbered AtomView self) }
        ensures want { IfErr result (λ want. want ≡ Want.Memory) }
    {
        let alloc = self.alloc;
        let room = self.slots.len().saturating_add(self.count);
        let mut slots = Vec::with_capacity(alloc, room)?;
        for index in 0..self.count {
            push_tuple(&mut slots, self.tuple(index))?;
            slots.push(position_value(alloc, index + 1)?)?;
        }
        Ok(Tuples::of_slots(alloc, slots, self.count, self.width + 1))
    }

    /// `let`: the stream where each tuple has one slot more, with the value at its place in
    /// `values`.
    pub fn bind(self, values: Vec<Items>) -> Result<Tuples, Want>
        requires { length values.items ≡ length self }
        ensures stream { IfOk result (λ stream. stream ≡ bound self (map item_views values.items)) }
        ensures want { IfErr result (λ want. want ≡ Want.Memory) }
    {
        let alloc = self.alloc;
        let room = self.slots.len().saturating_add(self.count);
        let mut slots = Vec::with_capacity(alloc, room)?;
        for (index, value) in values.into_iter().enumerate() {
            push_tuple(&mut slots, self.tuple(index))?;
            slots.push(SlotValue::of_items(alloc, value)?)?;
        }
        Ok(Tuples::of_slots(alloc, slots, self.count, self.width + 1))
    }

    /// `where`: the stream of the tuples at whose places `tests` holds.
    pub fn keep(self, tests: &[bool]) -> Tuples
        requires { length tests.now ≡ length self }
        ensures { result ≡ satisfying self tests.now }
    {
        let width = self.width;
        let mut slots = self.slots;
        let mut count = 0;
        let mut kept = 0;
        let mut start = 0;
        for holds in tests {
            if *holds {
                move_slots(&mut slots, kept, start, width);
                count += 1;
                kept += width;
            }
            start += width;
        }
        slots.truncate(kept);
        Tuples::of_slots(self.alloc, slots, count, width)
    }

    /// `group by`: the stream of one tuple for each group of tuples whose keys are equal, the
    /// groups by their first tuples. Of the slots, those of the grouping variables, which stand in
    /// `slots` in the order of their keys, hold the first tuple's key, and each other the values of
    /// all its tuples. `keys` has for each grouping variable the atomized value at each tuple.
    /// XPTY0004 where one of them is more than one value.
    pub fn group(self, slots: &[usize], keys: Vec<Vec<Vec<Atom>>>) -> Result<Tuples, Fault>
        requires slots { length slots.now ≡ length keys.items }
        requires keys { All (λ column. length column.items ≡ length self) keys.items }
        ensures stream { IfOk result (λ stream. grouped AtomView slots.now self (columns_of keys)
            ≡ Ok stream) }
        ensures refused { IfErr result
            (IsRefusal (grouped AtomView slots.now self (columns_of keys))) }
    {
        let columns = key_lists(self.alloc, keys)?;
        self.group_by_keys(slots, columns)
    }

    /// `group by`, as [`Tuples::group`], from keys; a key that is one value is no list.
    pub fn group_by_keys(self, slots: &[usize], keys: Vec<Vec<Key>>) -> Result<Tuples, Fault>
        requires slots { length slots.now ≡ length keys.items }
        requires keys { All (λ column. length column ≡ length self) (rows_in keys) }
        ensures stream { IfOk result (λ stream. grouped AtomView slots.now self (rows_in keys)
            ≡ Ok stream) }
        ensures refused { IfErr result
            (IsRefusal (grouped AtomView slots.now self (rows_in keys))) }
    {
        let alloc = self.alloc;
        let held = key_columns(alloc, keys)?;
        let columns = held.as_slice();
        let groups = gather(alloc, self.count, columns)?;
        let made = joined(alloc, &self, slots, columns, &groups)?;
        Ok(Tuples::of_slots(alloc, made, groups.len(), self.width))
    }

    /// `order by`: the stream of the same tuples in the order of their keys, by the first
    /// specification that tells them apart; equals stay in their order. `keys` has for each
    /// specification the atomized value at each tuple. XPTY0004 where one of them is more than one
    /// value, or those of one specification aren't all numbers, all strings or all booleans.
    pub fn order(self, keys: Vec<Vec<Vec<Atom>>>, specs: &[OrderSpec]) -> Result<Tuples, Fault>
        requires specs { length specs.now ≡ length keys.items }
        requires keys { All (λ column. length column.items ≡ length self) keys.items }
        ensures stream { IfOk result
            (λ stream. ordered (map rule_of specs.now) self (columns_of keys) ≡ Ok stream) }
        ensures refused { IfErr result
            (IsRefusal (ordered (map rule_of specs.now) self (columns_of keys))) }
    {
        let columns = key_lists(self.alloc, keys)?;
        self.order_by_columns(columns, specs)
    }

    /// `order by`, as [`Tuples::order`], from the keys of each tuple: `keys` has for each tuple the
    /// atomized values of the specifications. One that a tuple lacks is empty, and those after the
    /// specifications don't count.
    pub fn order_by_rows(self, keys: Vec<Vec<Key>>, specs: &[OrderSpec]) -> Result<Tuples, Fault>
        requires { length keys.items ≡ length self }
        ensures stream { IfOk result (λ stream. ordered (map rule_of specs.now) self
            (by_specification (length specs.now) (rows_in keys)) ≡ Ok stream) }
        ensures refused { IfErr result (IsRefusal (ordered (map rule_of specs.now) self
            (by_specification (length specs.now) (rows_in keys)))) }
    {
        let columns = turned(self.alloc, keys, specs.len())?;
        self.order_by_columns(columns, specs)
    }

    /// `order by`, as [`Tuples::order`], from the keys of all tuples, one tuple after another, each
    /// the atomized values of the specifications. One that is lacking at the end is empty.
    pub fn order_by_keys(self, keys: Vec<Key>, specs: &[OrderSpec]) -> Result<Tuples, Fault>
        ensures stream { IfOk result (λ stream. ordered (map rule_of specs.now) self
            (by_specification (length specs.now) (by_tuple (length self) (length specs.now)
            (row_of keys))) ≡ Ok stream) }
        ensures refused { IfErr result (IsRefusal (ordered (map rule_of specs.now) self
            (by_specification (length specs.now) (by_tuple (length self) (length specs.now)
            (row_of keys))))) }
    {
        let count = self.len();
        let columns = dealt(self.alloc, keys, count, specs.len())?;
        self.order_by_columns(columns, specs)
    }

    /// `order by`, as [`Tuples::order`].
    fn order_by_columns(self, keys: Vec<Vec<Key>>, specs: &[OrderSpec]) -> Result<Tuples, Fault>
        requires { All (λ column. length column ≡ length self) (rows_in keys) }
        ensures stream { IfOk result
            (λ stream. ordered (map rule_of specs.now) self (rows_in keys) ≡ Ok stream) }
        ensures refused { IfErr result
            (IsRefusal (ordered (map rule_of specs.now) self (rows_in keys))) }
    {
        let alloc = self.alloc;
        let columns = sort_columns(alloc, keys)?;
        let numbers = sorted(alloc, specs, self.count, &columns)?;
        let slots = self.arranged(&numbers)?;
        Ok(Tuples::of_slots(alloc, slots, numbers.len(), self.width))
    }
}
