//! The entries that are due, in the order of the chain.

ghost use Rattle.std.specs.Prelude.{◌≡◌, ◌≤◌, ◌<◌, ℕ, [], true, false, length, nat_eq, OnOk, slice_index_or, vec_capacity};
ghost use Rattle.std.specs.List.{IsDistinct};
ghost use Rattle.calc_chain.specs.Chain.{behind_first, entries_among, first_of, has, without};
ghost use Rattle.calc_chain.specs.Due.{due_of};

use super::orders::LinkedOrder;
use cell_refs::Memory;
use std::alloc::Global;

/// Entries that are due.
#[derive(Drop)]
pub struct DueList {
    /// Those that were made due last, in the order of the chain.
    pub numbers: Vec<u32>,
    /// How many of them were passed.
    pub taken: usize,
    /// Whether a number that was made due is so still, where it wasn't passed.
    pub flags: Vec<bool>,
}

impl DueList {
    /// None is due.
    pub fn new(alloc: Global) -> DueList
        ensures due { due_of result ≡ [] }
    {
        DueList {
            numbers: Vec::new(alloc),
            taken: 0,
            flags: Vec::new(alloc),
        }
    }

    /// Takes the room for so many numbers, and for one. What is due stays.
    pub fn make_room(&mut self, count: usize, x: u32) -> Result<(), Memory>
        ensures due { due_of self.new ≡ due_of self.old }
        ensures room { OnOk result (count ≤ vec_capacity self.new.numbers) }
        ensures kept { vec_capacity self.old.numbers ≤ vec_capacity self.new.numbers }
        ensures flag { OnOk result (x < length self.new.flags.items) }
        ensures flags { length self.old.flags.items ≤ length self.new.flags.items }
    {
        let more = count.saturating_sub(self.numbers.len());
        self.numbers.reserve(more)?;
        make_flag(&mut self.flags, x)
    }

    /// A number is no longer due.
    pub fn remove(&mut self, x: u32)
        ensures due { due_of self.new ≡ without (due_of self.old) x }
        ensures room { vec_capacity self.new.numbers ≡ vec_capacity self.old.numbers }
        ensures flags { length self.new.flags.items ≡ length self.old.flags.items }
    {
        let place = x as usize;
        if place < self.flags.len() {
            self.flags[place] = false;
        }
    }

    /// Makes these entries due, and no others.
    pub fn fill(&mut self, due: &[u32], order: &LinkedOrder)
        requires room { length due.now ≤ vec_capacity self.old.numbers }
        requires flags { (x : ℕ) → has due.now x ≡ true → x < length self.old.flags.items }
        requires entries { (x : ℕ) → has due.now x ≡ true → has order.now x ≡ true }
        requires once { IsDistinct nat_eq due.now }
        ensures due { due_of self.new ≡ entries_among order.now due.now }
        ensures room { vec_capacity self.old.numbers ≤ vec_capacity self.new.numbers }
        ensures flags { length self.new.flags.items ≡ length self.old.flags.items }
    {
        fill_reserved(&mut self.numbers, due);
        raise(&mut self.flags, due);
        put_in_order(&mut self.numbers, order);
        self.taken = 0;
    }

    /// The first one that is due, which then is due no longer.
    pub fn next(&mut self) -> Option<u32>
        ensures first { result ≡ first_of (due_of self.old) }
        ensures left { due_of self.new ≡ behind_first (due_of self.old) }
        ensures room { vec_capacity self.new.numbers ≡ vec_capacity self.old.numbers }
        ensures flags { length self.new.flags.items ≡ length self.old.flags.items }
    {
        'passed: while self.taken < self.numbers.len() {
            let x = self.numbers[self.taken];
            self.taken += 1;
            if is_raised(&self.flags, x) {
                return Some(x);
            }
        }
        None
    }
}

/// Makes room for the flag of a number. What is flagged stays.
fn make_flag(flags: &mut Vec<bool>, x: u32) -> Result<(), Memory>
    ensures room { OnOk result (x < length flags.new.items) }
    ensures kept { length flags.old.items ≤ length flags.new.items }
    ensures same { (y : ℕ) → slice_index_or flags.new.items y false
        ≡ slice_index_or flags.old.items y false }
{
    let len = x as usize + 1;
    if flags.len() < len {
        flags.resize(len, false)?;
    }
    Ok(())
}

/// Whether a number is flagged.
fn is_raised(flags: &[bool], x: u32) -> bool
    ensures { result ≡ slice_index_or flags.now x false }
{
    let place = x as usize;
    place < flags.len() && flags[place]
}

/// Puts numbers into a list that has room for them, in place of what is in it.
fn fill_reserved(numbers: &mut Vec<u32>, others: &[u32])
    requires { length others.now ≤ vec_capacity numbers.old }
    ensures items { numbers.new.items ≡ others.now }
    ensures room { vec_capacity numbers.old ≤ vec_capacity numbers.new }
{
    numbers.clear();
    let _ = numbers.extend_from_slice(others);
}

/// Puts entries into the order in which they stand.
fn put_in_order(numbers: &mut Vec<u32>, order: &LinkedOrder)
    requires entries { (x : ℕ) → has numbers.old.items x ≡ true → has order.now x ≡ true }
    requires once { IsDistinct nat_eq numbers.old.items }
    ensures items { numbers.new.items ≡ entries_among order.now numbers.old.items }
    ensures room { vec_capacity numbers.new ≡ vec_capacity numbers.old }
{
    order.sort(numbers.as_mut_slice());
}

/// Flags each of some numbers.
fn raise(flags: &mut Vec<bool>, numbers: &[u32])
    requires { (x : ℕ) → has numbers.now x ≡ true → x < length flags.old.items }
    ensures raised { (x : ℕ) → has numbers.now x ≡ true
        → slice_index_or flags.new.items x false ≡ true }
    ensures len { length flags.new.items ≡ length flags.old.items }
{
    raise_each(flags.as_mut_slice(), numbers);
}

/// The same in a slice.
fn raise_each(flags: &mut [bool], numbers: &[u32])
    requires { (x : ℕ) → has numbers.now x ≡ true → x < length flags.old }
    ensures raised { (x : ℕ) → has numbers.now x ≡ true
        → slice_index_or flags.new x false ≡ true }
    ensures len { length flags.new ≡ length flags.old }
{
    for x in numbers {
        flags[*x as usize] = true;
    }
}
