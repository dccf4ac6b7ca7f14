ghost use Rattle.std.specs.Prelude.{◌≡◌, ◌+◌, ◌<◌, ◌≤◌, ◌≢◌, ◌++◌, ◌⊎◌, ℕ, true, false, List, [], length, drop, IfOk, IfErr, OnOk, OnErr, vec_len, vec_capacity};
ghost use Rattle.std.specs.Io.KnownBytes.{Consumes, Keeps, IsAtEnd};
ghost use Rattle.host_io.specs.Count.{Rose};
ghost use Rattle.host_io.specs.LineReader.{Backlog, Moves};
ghost use Rattle.host_io.specs.LineBuffer.{Misses};

use super::failures::Failed;
use super::limits::MAX_INPUT;
use super::reader::LineFault;
use super::sources::Source;
use std::alloc::{AllocError, Global};
use std::marker::Model;

/// The most bytes that one read asks for.
const PIECE: usize = 8192;

/// The bytes that were taken from a source and not yet given out.
#[derive(Drop)]
pub struct Buffer {
    bytes: Vec<u8>,
    start: usize,
    taken: usize,
}

impl Model for Buffer {
    ghost use Rattle.std.specs.Prelude.{◌-◌, ◌≤◌, drop, length};
    ghost use Rattle.host_io.specs.declared.limits.TheConstants.{MAX_INPUT};
    ghost use Rattle.host_io.specs.LineReader.{Backlog};

    ghost Value = { Backlog };

    ghost view = { λ b. record { pending = drop b.start b.bytes.items; taken = b.taken } };

    ghost invariant = { λ b. (b.start ≤ length b.bytes.items)
        × (length b.bytes.items - b.start ≤ b.taken) × (b.taken ≤ MAX_INPUT) };
}

impl Buffer {
    pub fn new(alloc: Global) -> Buffer
        ensures { result ≡ record { pending = []; taken = 0 } }
    {
        Buffer {
            bytes: Vec::new(alloc),
            start: 0,
            taken: 0,
        }
    }

    /// The bytes that were not yet given out.
    pub fn pending(&self) -> &[u8]
        ensures bytes { result.now ≡ self.now.pending }
        ensures fewer { length self.now.pending ≤ self.now.taken }
        ensures within { self.now.taken ≤ MAX_INPUT }
    {
        &self.bytes[self.start..]
    }

    /// Gives out the first bytes.
    pub fn remove(&mut self, count: usize)
        requires { count ≤ length self.old.pending }
        ensures { self.new ≡ record self.old { pending = drop count self.old.pending } }
    {
        self.start += count;
    }

    /// Takes the next piece from the source; false at its end.
    pub fn refill<I: Source>(&mut self, src: &mut I) -> Result<bool, LineFault>
        ensures moved { IfOk result (λ _. Moves self.old self.new (I.remaining src.old)
            (I.remaining src.new) []) }
        ensures more { result ≡ Ok true → self.old.taken < self.new.taken }
        ensures within { self.new.taken ≤ MAX_INPUT }
        ensures fewer { length self.new.pending ≤ self.new.taken }
        ensures unmoved { result ≡ Ok false → self.new ≡ self.old }
        ensures end { result ≡ Ok false → IsAtEnd (I.remaining src.new) }

        ensures err { OnErr result (self.new ≡ self.old) }
        ensures missed { IfErr result (λ fault. Misses fault self.old.taken (I.remaining src.old)
            (I.remaining src.new)) }
        ensures steady { (result ≡ Err LineFault.Read) ⊎ (I.faults src.new ≡ I.faults src.old) }
        ensures failed { result ≡ Err LineFault.Read → Rose (I.faults src.old) (I.faults src.new) }
        ensures count { I.faults src.old ≤ I.faults src.new }
    {
        if make_room(&mut self.bytes, self.start).is_err() {
            return Err(LineFault::Memory);
        }
        self.start = 0;
        if self.taken == MAX_INPUT {
            return look_beyond(src);
        }
        let most = PIECE.min(MAX_INPUT - self.taken);
        match append_piece(&mut self.bytes, src, most) {
            Ok(count) => {
                self.taken += count;
                Ok(count > 0)
            }
            Err(Failed) => Err(LineFault::Read),
        }
    }
}

/// Makes room for a piece behind the bytes, and drops those before `start`.
fn make_room(bytes: &mut Vec<u8>, start: usize) -> Result<(), AllocError>
    requires { start ≤ length bytes.old.items }
    ensures ok { OnOk result (bytes.new.items ≡ drop start bytes.old.items) }
    ensures room { OnOk result (vec_len bytes.new + 8192 ≤ vec_capacity bytes.new) }
    ensures err { OnErr result (bytes.new.items ≡ bytes.old.items) }
{
    bytes.reserve(PIECE)?;
    drop_prefix(bytes, start);
    Ok(())
}

/// Drops the first bytes.
fn drop_prefix(bytes: &mut Vec<u8>, count: usize)
    requires { count ≤ length bytes.old.items }
    ensures bytes { bytes.new.items ≡ drop count bytes.old.items }
    ensures room { vec_len bytes.new + vec_capacity bytes.old
        ≤ vec_len bytes.old + vec_capacity bytes.new }
{
    if count > 0 {
        let len = bytes.len();
        bytes.copy_within(count.., 0);
        bytes.truncate(len - count);
    }
}

/// Reads a piece of at most `most` bytes behind the bytes.
fn append_piece<I: Source>(bytes: &mut Vec<u8>, src: &mut I, most: usize) -> Result<usize, Failed>
    requires small { most ≤ 8192 }
    requires room { vec_len bytes.old + 8192 ≤ vec_capacity bytes.old }
    ensures fits { IfOk result (λ count. count ≤ most) }
    ensures came { IfOk result (λ count. (came : List ℕ) × (length came ≡ count)
        × (bytes.new.items ≡ bytes.old.items ++ came)
        × Consumes (I.remaining src.old) (I.remaining src.new) came) }
    ensures end { result ≡ Ok 0 → 0 < most → IsAtEnd (I.remaining src.new) }
    ensures err { OnErr result (bytes.new.items ≡ bytes.old.items) }
    ensures kept { OnErr result (Keeps (I.remaining src.old) (I.remaining src.new)) }
    ensures steady { OnOk result (I.faults src.new ≡ I.faults src.old) }
    ensures failed { OnErr result (Rose (I.faults src.old) (I.faults src.new)) }
    ensures count { I.faults src.old ≤ I.faults src.new }
{
    let mut room = [0u8; PIECE];
    let count = src.read(&mut room[..most])?;
    let Ok(()) = bytes.extend_from_slice(&room[..count]) else {
        unreachable!()
    };
    Ok(count)
}

/// Asks the source, of which all was taken that may be, for one byte more; false at its end.
fn look_beyond<I: Source>(src: &mut I) -> Result<bool, LineFault>
    ensures end { IfOk result (λ more. (more ≡ false) × IsAtEnd (I.remaining src.new)) }
    ensures kept { OnOk result (Consumes (I.remaining src.old) (I.remaining src.new) []) }
    ensures missed { IfErr result (λ fault. Misses fault MAX_INPUT (I.remaining src.old)
        (I.remaining src.new)) }
    ensures memory { result ≢ Err LineFault.Memory }
    ensures steady { (result ≡ Err LineFault.Read) ⊎ (I.faults src.new ≡ I.faults src.old) }
    ensures failed { result ≡ Err LineFault.Read → Rose (I.faults src.old) (I.faults src.new) }
    ensures count { I.faults src.old ≤ I.faults src.new }
{
    let mut room = [0u8; 1];
    match src.read(&mut room) {
        Ok(0) => Ok(false),
        Ok(_) => Err(LineFault::Limit),
        Err(Failed) => Err(LineFault::Read),
    }
}
