//! The words of the command line.
use bf_io::{Bytes, Word};
use std::alloc::{AllocError, Global};
use std::cell::Cell;
use std::env::{self, FillError};
use std::io::ErrorKind;
use std::rt::Env;

/// The words of the command line, without the program's name. Where an argument is no text there are none.
#[derive(Drop)]
pub(crate) struct CommandLine {
    pub(crate) words: Vec<Word>,
    /// The first argument that is no text. The one of index 0 is the program's name.
    pub(crate) no_text: Option<usize>,
}

/// The arguments of a process, with the index of the one that was asked for last.
#[derive(Drop)]
struct CountedArgs<'a, R> {
    rt: &'a R,
    last: &'a Cell<usize>,
}

impl<R: Env> Env for CountedArgs<'_, R> {
    fn arg(&self, i: usize, buf: &mut [u8]) -> Result<usize, FillError> {
        self.last.set(i);
        self.rt.arg(i, buf)
    }

    fn var(&self, name: &str, buf: &mut [u8]) -> Result<usize, FillError> {
        self.rt.var(name, buf)
    }

    fn var_at(&self, i: usize, buf: &mut [u8]) -> Result<usize, FillError> {
        self.rt.var_at(i, buf)
    }
}

/// Reads the command line.
pub(crate) fn read<R: Env + Alloc<A = Global>>(rt: &R) -> Result<CommandLine, AllocError> {
    let alloc = rt.alloc();
    let last = Cell::new(0);
    let mut words = Vec::new(alloc);
    match env::args(&(CountedArgs { rt, last: &last }, alloc)) {
        Ok(args) => {
            for arg in args.skip(1) {
                words.push(Bytes::from_slice(alloc, arg.as_str().as_bytes())?)?;
            }
            Ok(CommandLine {
                words,
                no_text: None,
            })
        }
        Err(error) if error.kind() == ErrorKind::OutOfMemory => Err(AllocError),
        Err(_) => Ok(CommandLine {
            words,
            no_text: Some(last.get()),
        }),
    }
}
