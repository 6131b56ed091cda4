ghost use Rattle.std.specs.Prelude.{◌≡◌, ◌++◌};

use super::{Report, filter, status};
use std::alloc::{AllocError, Global};
use std::io;
use std::io::{ErrorKind, Read, Write};
use std::process::ExitCode;
use std::test::Fail;

// A program that writes twice what it reads.
struct Twice;

impl Report for Twice {
    ghost says = { λ _ bytes out. out ≡ bytes ++ bytes };

    fn report(&self, heap: Global, input: &[u8]) -> Result<Vec<u8>, AllocError> {
        let mut out = Vec::new(heap);
        out.extend_from_slice(input)?;
        out.extend_from_slice(input)?;
        Ok(out)
    }
}

// A reader that fails where its text ends.
#[derive(Drop)]
struct Torn<'a>(&'a [u8]);

impl Read for Torn<'_> {
    fn read(&mut self, buf: &mut [u8]) -> io::Result<usize> {
        match self.0.read(buf) {
            Ok(0) => Err(ErrorKind::Other.into()),
            read => read,
        }
    }
}

// A writer that takes one byte and then fails.
#[derive(Drop)]
struct Full(bool);

impl Write for Full {
    fn write(&mut self, buf: &[u8]) -> io::Result<usize> {
        if self.0 || buf.is_empty() {
            return Err(ErrorKind::StorageFull.into());
        }
        self.0 = true;
        Ok(1)
    }

    fn flush(&mut self) -> io::Result<()> {
        Ok(())
    }
}

#[test]
fn the_report_follows_what_the_output_holds(rt: HostRuntime) -> Result<(), Fail> {
    let mut input: &[u8] = b"ab\n";
    let mut output = vec![in rt.alloc(); b'>']?;
    filter(&Twice, rt.alloc(), &mut input, &mut output)?;
    assert_eq!(rt; output.as_slice(), b">ab\nab\n".as_slice());
    assert!(rt; status(&rt, "twice", Ok(())) == ExitCode::SUCCESS);
    Ok(())
}

#[test]
fn a_read_that_fails_leaves_the_output(rt: HostRuntime) {
    let mut output = Vec::new(rt.alloc());
    let outcome = filter(&Twice, rt.alloc(), &mut Torn(b"ab"), &mut output);
    assert!(rt; outcome.is_err());
    assert!(rt; output.is_empty());
}

#[test]
fn a_write_that_fails_is_told(rt: HostRuntime) {
    let mut input: &[u8] = b"ab";
    let outcome = filter(&Twice, rt.alloc(), &mut input, &mut Full(false));
    assert!(rt; status(&rt, "twice", outcome) == ExitCode::FAILURE);
}
