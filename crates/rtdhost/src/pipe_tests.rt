//! A program at the other end of two pipes, which gives a line once it has the whole reply to those before.

ghost use Rattle.std.specs.Prelude.{None};

use super::program::{Status, rtd_host_plain};
use host_io::{Failed, Sink, Source};
use std::alloc::Global;
use std::sync::Arc;
use std::sync::atomic::{AtomicU64, Ordering};
use std::test::Fail;

/// What the program writes in one piece, and how many bytes of replies it has then.
#[derive(Clone, Copy)]
struct Turn {
    piece: &'static str,
    replied: u64,
}

/// The end that it writes to. Where the replies aren't there yet, it ends the input in place of waiting for good.
#[derive(Drop)]
struct Asking {
    turns: Vec<Turn>,
    next: usize,
    replied: Arc<AtomicU64, Global>,
}

impl Source for Asking {
    ghost remaining = { λ asking. None };

    ghost faults = { λ asking. 0 };

    fn read(&mut self, buf: &mut [u8]) -> Result<usize, Failed> {
        if self.next >= self.turns.len() {
            return Ok(0);
        }
        let turn = self.turns[self.next];
        if self.replied.load(Ordering::SeqCst) != turn.replied {
            return Ok(0);
        }
        self.next += 1;
        let bytes = turn.piece.as_bytes();
        let count = if bytes.len() < buf.len() {
            bytes.len()
        } else {
            buf.len()
        };
        buf[..count].copy_from_slice(&bytes[..count]);
        Ok(count)
    }
}

/// The end that it reads from.
#[derive(Drop)]
struct Hearing {
    replied: Arc<AtomicU64, Global>,
    finished: bool,
}

impl Sink for Hearing {
    ghost written = { λ hearing. None };

    ghost faults = { λ hearing. 0 };

    ghost is_finished = { λ hearing. hearing.finished };

    fn write(&mut self, bytes: &[u8]) -> Result<usize, Failed> {
        self.finished = false;
        self.replied.fetch_add(bytes.len() as u64, Ordering::SeqCst);
        Ok(bytes.len())
    }

    fn finish(&mut self) -> Result<(), Failed> {
        self.finished = true;
        Ok(())
    }
}

#[test]
fn a_reply_comes_before_more_input_is_read(rt: HostRuntime) -> Result<(), Fail> {
    let mut turns = Vec::new(rt.alloc());
    for (piece, replied) in [
        ("set A1 2\n", 0),
        // ok
        ("calc\n", 3),
        // begun 1, done 1 cells 0
        ("print\n", 26),
        // A1=2, end
        ("\n", 35),
        ("set A2 =\r", 35),
        ("\nset A3 4\nset A4", 35),
        // bad formula syntax 1, ok
        (" 5\n", 59),
        // ok
        ("print", 62),
    ] {
        turns.push(Turn { piece, replied })?;
    }
    let replied = Arc::new(rt.alloc(), AtomicU64::new(0))?;
    let mut src = Asking {
        turns,
        next: 0,
        replied: Arc::try_clone(&replied)?,
    };
    let mut out = Hearing {
        replied: Arc::try_clone(&replied)?,
        finished: false,
    };
    let words = vec![in rt.alloc(); String::from_str(rt.alloc(), "run")?]?;
    let status = rtd_host_plain(rt.alloc(), words.as_slice(), &mut src, &mut out);
    assert_eq!(rt; status, Status::Ok);
    // A1=2, end: the sheet of the last recalculation
    assert_eq!(rt; replied.load(Ordering::SeqCst), 71);
    Ok(())
}
