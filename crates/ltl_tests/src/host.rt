//! Tests of `ltl_host` over a runtime that isn't the system's.

ghost use Rattle.std.specs.Prelude.{◌≤◌};

use crate::memory::LOOP;
use ltl_cli::Source;
use ltl_host::{HostFiles, run, texts, words};
use ltl_streams::ByteSource;
use ltl_words::{PlanFault, Tool};
use refusing::Refusing;
use std::alloc::Allocator;
use std::env::FillError;
use std::fs::{Metadata, OpenFile, OpenOptions};
use std::io::{Read, Seek, SeekFrom, Write};
use std::rt::{Env, Files};
use std::test::Fail;
use std::{env, io};

/// A runtime with these words. Each name but `absent` is that of a file whose content is its name.
#[derive(Clone, Copy)]
struct Desk<'a> {
    words: &'a [&'a [u8]],
}

impl<'a> Env for Desk<'a> {
    fn arg(&self, i: usize, buf: &mut [u8]) -> Result<usize, FillError> {
        if i >= self.words.len() {
            return Err(FillError::NotPresent);
        }
        let word = self.words[i];
        if word.len() > buf.len() {
            return Err(FillError::TooLong);
        }
        buf[..word.len()].copy_from_slice(word);
        Ok(word.len())
    }

    fn var(&self, _name: &str, _buf: &mut [u8]) -> Result<usize, FillError> {
        Err(FillError::NotPresent)
    }

    fn var_at(&self, _i: usize, _buf: &mut [u8]) -> Result<usize, FillError> {
        Err(FillError::NotPresent)
    }
}

fn unsupported() -> io::Error {
    io::Error::from(io::ErrorKind::Unsupported)
}

/// A file whose content is its name.
#[derive(Drop)]
struct Named {
    name: [u8; 16],
    len: usize,
    ghost within: { len ≤ 16 },
}

impl Read for Named {
    fn read(&mut self, buf: &mut [u8]) -> io::Result<usize> {
        let count = self.len.min(buf.len());
        buf[..count].copy_from_slice(&self.name[..count]);
        self.len = 0;
        Ok(count)
    }
}

impl Write for Named {
    fn write(&mut self, _buf: &[u8]) -> io::Result<usize> {
        Err(unsupported())
    }

    fn flush(&mut self) -> io::Result<()> {
        Err(unsupported())
    }
}

impl Seek for Named {
    fn seek(&mut self, _to: SeekFrom) -> io::Result<u64> {
        Err(unsupported())
    }
}

impl OpenFile for Named {
    fn metadata(&self) -> io::Result<Metadata> {
        Err(unsupported())
    }

    fn set_len(&self, _size: u64) -> io::Result<()> {
        Err(unsupported())
    }

    fn sync_all(&self) -> io::Result<()> {
        Err(unsupported())
    }

    fn sync_data(&self) -> io::Result<()> {
        Err(unsupported())
    }
}

impl<'a> Files for Desk<'a> {
    type File = Named;

    type Dir = Named;

    fn open_file(&self, _how: &OpenOptions, path: &str) -> io::Result<Named> {
        let text = path.as_bytes();
        if path == "absent" || text.len() > 16 {
            return Err(io::Error::from(io::ErrorKind::NotFound));
        }
        let mut name = [0u8; 16];
        name[..text.len()].copy_from_slice(text);
        Ok(Named {
            name,
            len: text.len(),
        })
    }

    fn open_dir(&self, _path: &str) -> io::Result<Named> {
        Err(unsupported())
    }

    fn metadata(&self, _path: &str) -> io::Result<Metadata> {
        Err(unsupported())
    }

    fn symlink_metadata(&self, _path: &str) -> io::Result<Metadata> {
        Err(unsupported())
    }

    fn copy(&self, _from: &str, _to: &str) -> io::Result<u64> {
        Err(unsupported())
    }

    fn rename(&self, _from: &str, _to: &str) -> io::Result<()> {
        Err(unsupported())
    }

    fn remove_file(&self, _path: &str) -> io::Result<()> {
        Err(unsupported())
    }

    fn create_dir(&self, _path: &str) -> io::Result<()> {
        Err(unsupported())
    }

    fn remove_dir(&self, _path: &str) -> io::Result<()> {
        Err(unsupported())
    }

    fn remove_dir_all<B: Allocator>(&self, _alloc: B, _path: &str) -> io::Result<()> {
        Err(unsupported())
    }
}

/// The name of the file that was opened, or what the source is instead.
fn shown<R: ByteSource + Drop>(source: Source<R>, name: &mut [u8; 16]) -> &[u8] {
    match source {
        Source::Text => b"(text)",
        Source::NotOpened => b"(not opened)",
        Source::Input(file) => {
            let mut file = file;
            match file.read(name.as_mut_slice()) {
                Ok(count) => &name[..count],
                Err(_) => b"(not read)",
            }
        }
    }
}

/// The words come unchanged and in their order, the empty one too, or the error says why there are none.
#[test]
fn words_of_the_system(rt: HostRuntime) -> Result<(), Fail> {
    let given: [&[u8]; 4] = [b"ltl2ba", b"", b"-f", b"[]<>p"];
    let alloc = rt.alloc();
    let words = words(&alloc, env::args(&(Desk { words: &given }, &alloc)))?;
    assert_eq!(rt; words.len(), given.len());
    for i in 0..given.len() {
        assert_eq!(rt; words[i].as_bytes(), given[i]);
    }
    Ok(())
}

#[test]
fn words_that_are_no_text(rt: HostRuntime) {
    let alloc = rt.alloc();
    let given: [&[u8]; 3] = [b"ltl2ba", b"-f", b"p\xff"];
    let words = words(&alloc, env::args(&(Desk { words: &given }, &alloc)));
    assert_eq!(rt; words.err(), Some(PlanFault::Usage));
}

/// Whichever allocation is refused, the answer is that memory was refused.
#[test]
fn each_growth_refused(rt: HostRuntime) {
    let given: [&[u8]; 5] = [b"ltlcheck", b"-f", b"[]<>p", b"-a", b"m.hoa"];
    let mut refused = 0;
    for n in 1..40 {
        let alloc = Refusing::new(rt.alloc(), n);
        let fault = match words(&alloc, env::args(&(Desk { words: &given }, &alloc))) {
            Ok(words) => texts(&alloc, words.as_slice()).err(),
            Err(fault) => Some(fault),
        };
        if alloc.has_refused() {
            refused = n;
            assert_eq!(rt; fault, Some(PlanFault::OutOfMemory));
        } else {
            assert_eq!(rt; fault, None);
        }
    }
    assert!(rt; 0 < refused && refused < 39);
}

#[test]
fn files_by_name(rt: HostRuntime) {
    let desk = Desk { words: &[] };
    let mut files = HostFiles::new(&desk, b"".as_slice());
    let mut name = [0u8; 16];
    assert_eq!(rt;
        shown(ltl_cli::Files::open(&mut files, "m.hoa"), &mut name),
        b"m.hoa".as_slice()
    );
    assert_eq!(rt;
        shown(ltl_cli::Files::open(&mut files, ""), &mut name),
        b"".as_slice()
    );
    assert_eq!(rt;
        shown(ltl_cli::Files::open(&mut files, "absent"), &mut name),
        b"(not opened)".as_slice()
    );
}

/// Runs whole programs over the words and the files of a runtime. The content of a file is its name.
#[test]
fn programs_of_a_runtime(rt: HostRuntime) -> Result<(), Fail> {
    let rows: [(Tool, &[&[u8]], &[u8], &[u8], u8); 5] = [
        (
            Tool::Evaluator,
            &[b"ltleval", b"-F", b"p && q", b"-w", b"cycle {p,q}"],
            b"true\n",
            b"",
            0,
        ),
        (
            Tool::Evaluator,
            &[b"ltleval", b"-F", b"absent", b"-w", b"cycle {}"],
            b"",
            b"ltleval: cannot open\n",
            5,
        ),
        (
            Tool::Checker,
            &[b"ltlcheck", b"-f", b"[]!p"],
            b"contained\n",
            b"",
            0,
        ),
        (
            Tool::Checker,
            &[b"ltlcheck", b"-f", b"p", b"-A", b"p"],
            b"",
            b"ltlcheck: automaton: line 1: not HOA v1\n",
            3,
        ),
        (
            Tool::Translator,
            &[b"ltl2ba", b"-f", b"p\xff"],
            b"",
            b"ltl2ba: usage: ltl2ba [-l] [-o] [-p] [-H | -G] (-f formula | -F file)\n",
            2,
        ),
    ];
    for (tool, words, wanted, told, status) in rows {
        let mut output = Vec::new(rt.alloc());
        let mut message = Vec::new(rt.alloc());
        let found = run(
            &(Desk { words }, rt.alloc()),
            tool,
            LOOP,
            &mut output,
            &mut message,
        );
        assert_eq!(rt; output.as_slice(), wanted);
        assert_eq!(rt; message.as_slice(), told);
        assert_eq!(rt; found, status);
    }
    Ok(())
}
