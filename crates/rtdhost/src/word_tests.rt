use super::words::program_words;
use std::alloc::Global;
use std::env::{Env, FillError};
use std::test::Fail;

/// The arguments of a process, up to the first empty one.
#[derive(Drop)]
struct Arguments<'a> {
    words: [&'a [u8]; 4],
    alloc: Global,
}

impl Alloc for Arguments<'_> {
    type A = Global;

    fn alloc(&self) -> Global {
        self.alloc
    }
}

impl Env for Arguments<'_> {
    fn arg(&self, i: usize, buf: &mut [u8]) -> Result<usize, FillError> {
        if i >= 4 || self.words[i].is_empty() {
            return Err(FillError::NotPresent);
        }
        let word = self.words[i];
        if word.len() > buf.len() {
            return Err(FillError::TooLong);
        }
        buf[..word.len()].copy_from_slice(word);
        Ok(word.len())
    }

    fn var(&self, _name: &str, _buf: &mut [u8]) -> Result<usize, FillError> {
        Err(FillError::NotPresent)
    }

    fn var_at(&self, _i: usize, _buf: &mut [u8]) -> Result<usize, FillError> {
        Err(FillError::NotPresent)
    }
}

#[test]
fn the_words_stand_behind_the_programs_name(rt: HostRuntime) -> Result<(), Fail> {
    let table: [([&[u8]; 4], &str); 5] = [
        ([b"rtdhost", b"run", b"", b""], "run|"),
        ([b"rtdhost", b"", b"", b""], ""),
        ([b"rtdhost", b"run", b"--workers", b"2"], "run|--workers|2|"),
        ([b"rtdhost", b"\xff", b"", b""], ""),
        ([b"rtdhost", b"run", b"\xff", b""], ""),
    ];
    for (words, want) in table {
        let mut text = String::new(rt.alloc());
        for word in program_words(&Arguments {
            words,
            alloc: rt.alloc(),
        })? {
            text.push_str(word.as_str())?;
            text.push('|')?;
        }
        assert_eq!(rt; text.as_str(), want);
    }
    Ok(())
}
