ghost use Rattle.std.specs.Prelude.{◌≡◌};

use super::open_calls::OpenCall;
use super::tree::{Sides, Tree};
use addin_types::Call;
use cell_refs::{Cell, Handle};
use cell_values::{Memory, Name};
use functions::Values;
use std::alloc::Global;
use std::marker::Model;
use std::mem;

/// The open asynchronous calls of a session. A call is open from its issue until its handle is redeemed or all calls
/// are cancelled, and a cell has at most one.
#[derive(Drop)]
pub struct Handles {
    alloc: Global,
    session: u64,
    calls: Tree,
    /// How many calls are open.
    live: usize,
    /// The places of calls to come. There is room for those of the open calls too.
    places: Vec<Sides>,
}

impl Model for Handles {
    ghost use Rattle.std.specs.Prelude.{◌≡◌, ◌+◌, ◌≤◌, length, vec_capacity, vec_len};
    ghost use Rattle.async_handles.specs.OpenCalls.{AreOpenCalls, OpenCalls};

    ghost Value = { OpenCalls };

    ghost view = { λ h. record {
      session = h.session;
      calls = h.calls;
      spare = vec_len h.places;
    } };

    ghost invariant = { λ h.
        AreOpenCalls (record { session = h.session; calls = h.calls; spare = vec_len h.places })
        × (h.live ≡ length h.calls)
        × (h.live + vec_len h.places ≤ vec_capacity h.places) };
}

impl Handles {
    ghost use Rattle.std.specs.Prelude.{ℕ, ◌+◌, ◌-◌, ◌<◌, ◌≤◌, [], true, false, Some, None, is_some, map, length, if◌then◌else◌, IfOk, OnOk, OnErr};
    ghost use Rattle.std.specs.Option.{option_map};
    ghost use Rattle.async_handles.specs.OpenCalls.{AreOpenCalls, call_at, calls_after_serving, calls_without, first_call, first_unserved, handle_of, is_live, with_call};

    /// No open calls, of this session.
    pub fn new(alloc: Global, session: u64) -> Handles
        ensures { result ≡ record { session = session; calls = []; spare = 0 } }
    {
        Handles {
            alloc,
            session,
            calls: Tree::new(),
            live: 0,
            places: Vec::new(alloc),
        }
    }

    /// Makes room for at least `n` more calls. A refusal may leave some of that room made.
    pub fn reserve(&mut self, n: usize) -> Result<(), Memory>
        ensures spare { OnOk result (n ≤ self.new.spare) }
        ensures kept_spare { self.old.spare ≤ self.new.spare }
        ensures kept { self.new ≡ record self.old { spare = self.new.spare } }
        ensures are_open { AreOpenCalls self.new }
    {
        let missing = n.saturating_sub(self.places.len());
        let Some(room) = self.live.checked_add(missing) else {
            return Err(Memory);
        };
        self.places.reserve(room)?;
        make_places(self.alloc, &mut self.places, n)
    }

    /// Opens a call of a cell that has none, and gives its handle. It takes no memory.
    pub fn issue(&mut self, round: u64, cell: Cell, site: u16, name: Name, args: Values) -> Handle
        requires spare { 0 < self.old.spare }
        requires free { handle_of self.old.calls cell ≡ None }
        ensures handle { result ≡ record {
          session = self.old.session;
          round = round;
          cell = cell;
          site = site;
        } }
        ensures issued { self.new ≡ record self.old {
          calls = with_call self.old.calls (record {
            call = record { handle = result; name = name; args = args };
            is_served = false;
          });
          spare = self.old.spare - 1;
        } }
        ensures are_open { AreOpenCalls self.new }
    {
        let handle = Handle {
            session: self.session,
            round,
            cell,
            site,
        };
        let call = Call { handle, name, args };
        let entry = OpenCall {
            call,
            is_served: false,
        };
        let Some(sides) = self.places.pop() else {
            unreachable!()
        };
        let calls = mem::replace(&mut self.calls, Tree::new());
        self.calls = calls.with(entry, sides);
        self.live += 1;
        handle
    }

    /// Ends the call of a handle, and tells its cell and its site; None exactly where the handle isn't live here. It
    /// takes no memory.
    pub fn redeem(&mut self, h: &Handle) -> Option<(Cell, u16)>
        ensures redeemed { result ≡ (if is_live self.old.calls h.now
            then Some (h.now.cell, h.now.site) else None) }
        ensures ended { self.new ≡ (if is_live self.old.calls h.now
            then record self.old {
              calls = calls_without self.old.calls h.now.cell;
              spare = self.old.spare + 1;
            }
            else self.old) }
        ensures are_open { AreOpenCalls self.new }
    {
        if !self.is_live(h) {
            return None;
        }
        self.end(h.cell);
        Some((h.cell, h.site))
    }

    /// Whether a handle is live.
    fn is_live(&self, h: &Handle) -> bool
        ensures live { result ≡ is_live self.now.calls h.now }
        ensures are_open { AreOpenCalls self.now }
    {
        match self.handle_of(h.cell) {
            Some(live) => live == *h,
            None => false,
        }
    }

    /// Ends the call of a cell that has one.
    fn end(&mut self, cell: Cell)
        requires { is_some (call_at self.old.calls cell) ≡ true }
        ensures ended { self.new ≡ record self.old {
          calls = calls_without self.old.calls cell;
          spare = self.old.spare + 1;
        } }
        ensures are_open { AreOpenCalls self.new }
    {
        let calls = mem::replace(&mut self.calls, Tree::new());
        let (calls, sides) = calls.without(cell);
        self.calls = calls;
        let Some(sides) = sides else { unreachable!() };
        self.places.push_reserved(sides);
        self.live -= 1;
    }

    /// The live handle of a cell.
    pub fn handle_of(&self, cell: Cell) -> Option<Handle>
        ensures handle { result ≡ handle_of self.now.calls cell }
        ensures are_open { AreOpenCalls self.now }
    {
        self.calls.get(cell).map(|entry| entry.call.handle)
    }

    /// How many calls are open.
    pub fn live(&self) -> usize
        ensures { result ≡ length self.now.calls }
    {
        self.live
    }

    /// The live handle of the least cell.
    pub fn first(&self) -> Option<Handle>
        ensures handle { result
            ≡ option_map (λ entry. entry.call.handle) (first_call self.now.calls) }
        ensures are_open { AreOpenCalls self.now }
    {
        self.calls.first().map(|entry| entry.call.handle)
    }

    /// Ends all calls. It takes no memory.
    pub fn cancel_all(&mut self)
        ensures { self.new ≡ record self.old { calls = [] } }
    {
        self.calls = Tree::new();
        self.live = 0;
    }

    /// The open calls, in cell order.
    pub fn list(&self) -> Result<Vec<Call>, Memory>
        ensures calls { IfOk result (λ list. list.items
            ≡ map (λ entry. entry.call) self.now.calls) }
        ensures are_open { AreOpenCalls self.now }
    {
        let mut list = Vec::with_capacity(self.alloc, self.live)?;
        self.calls.append_to(self.alloc, &mut list)?;
        Ok(list)
    }

    /// The call of the least cell that wasn't served, which is served now; None exactly where there is none. A refusal
    /// changes nothing.
    pub fn next_unserved(&mut self) -> Result<Option<Call>, Memory>
        ensures first { IfOk result (λ call. call
            ≡ option_map (λ entry. entry.call) (first_unserved self.old.calls)) }
        ensures served { OnOk result (self.new
            ≡ record self.old { calls = calls_after_serving self.old.calls }) }
        ensures refused { OnErr result (self.new ≡ self.old) }
        ensures are_open { AreOpenCalls self.new }
    {
        let Some(entry) = self.calls.first_unserved() else {
            return Ok(None);
        };
        let call = entry.call.copy(self.alloc)?;
        let calls = mem::replace(&mut self.calls, Tree::new());
        self.calls = calls.after_serving();
        Ok(Some(call))
    }
}

ghost use Rattle.std.specs.Prelude.{◌≤◌, max, OnOk, vec_capacity, vec_len};

/// Makes places until there are so many, for which there is room in the list. A refusal leaves those that were made.
fn make_places(alloc: Global, places: &mut Vec<Sides>, count: usize) -> Result<(), Memory>
    requires { count ≤ vec_capacity places.old }
    ensures made { OnOk result (count ≤ vec_len places.new) }
    ensures more { vec_len places.old ≤ vec_len places.new }
    ensures at_most { vec_len places.new ≤ max (vec_len places.old) count }
    ensures room { vec_capacity places.new ≡ vec_capacity places.old }
{
    while places.len() < count {
        let sides = Box::new(alloc, (Tree::new(), Tree::new()))?;
        places.push_reserved(sides);
    }
    Ok(())
}
