ghost use Rattle.std.specs.Prelude.{◌≡◌, ◌≤◌, false};
ghost use Rattle.host_io.specs.Count.{count_with_one_more};

use super::counts::Count;
use super::failures::Failed;
use super::sinks::Sink;
use std::io::Write;

/// A stream as a sink, which holds nothing back: a write is one of the stream. It tells what its
/// stream tells of its bytes: the streams of the system tell nothing.
#[derive(Drop)]
pub struct StdSink<W> {
    writer: W,
    faults: Count,
    finished: bool,
}

impl<W: Write> StdSink<W> {
    pub fn new(writer: W) -> StdSink<W>
        ensures { result ≡ record { writer = writer; faults = 0; finished = false } }
    {
        StdSink {
            writer,
            faults: Count::new(),
            finished: false,
        }
    }

    /// Counts a failure.
    fn fail(&mut self) -> Failed
        ensures faults { self.new.faults ≡ count_with_one_more self.old.faults }
        ensures rises { self.old.faults ≤ self.new.faults }
        ensures finished { self.new.finished ≡ self.old.finished }
        ensures writer { self.new.writer ≡ self.old.writer }
    {
        self.faults.add_one();
        Failed
    }
}

impl<W: Write> Sink for StdSink<W> {
    ghost written = { λ s. W.contents s.writer };

    ghost faults = { λ s. s.faults };

    ghost is_finished = { λ s. s.finished };

    fn write(&mut self, bytes: &[u8]) -> Result<usize, Failed> {
        self.finished = false;
        match self.writer.write(bytes) {
            Ok(0) if !bytes.is_empty() => Err(self.fail()),
            Ok(taken) => Ok(taken),
            Err(_) => Err(self.fail()),
        }
    }

    fn finish(&mut self) -> Result<(), Failed> {
        self.finished = false;
        if self.writer.flush().is_err() {
            return Err(self.fail());
        }
        self.finished = true;
        Ok(())
    }
}
