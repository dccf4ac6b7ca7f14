ghost use Rattle.std.specs.Prelude.{◌≡◌};

use super::counts::Count;
use super::failures::Failed;
use super::sources::Source;
use std::io::Read;

/// A stream as a source. It tells what its stream tells of its bytes: the streams of the system tell
/// nothing.
#[derive(Drop)]
pub struct StdSource<R> {
    reader: R,
    faults: Count,
}

impl<R: Read> StdSource<R> {
    pub fn new(reader: R) -> StdSource<R>
        ensures { result ≡ record { reader = reader; faults = 0 } }
    {
        StdSource {
            reader,
            faults: Count::new(),
        }
    }
}

impl<R: Read> Source for StdSource<R> {
    ghost remaining = { λ s. R.remaining s.reader };

    ghost faults = { λ s. s.faults };

    fn read(&mut self, buf: &mut [u8]) -> Result<usize, Failed> {
        match self.reader.read(buf) {
            Ok(count) => Ok(count),
            Err(_) => {
                self.faults.add_one();
                Err(Failed)
            }
        }
    }
}
