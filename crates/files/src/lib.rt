// Bytes in and out, for the programs. A call that fails is told from the end of the input, one that a signal interrupts is made again, and one that
// moves a part only is followed by a call for the rest.

#![tactic(auto)]

mod calls;

ghost use Rattle.std.specs.Prelude.{◌≤◌, length, take};
ghost use Rattle.std.specs.Io.KnownBytes.{Appends};
ghost use Rattle.files.specs.Moved.{CameFrom};
ghost use Rattle.files.specs.Within.{Within};

use calls::Next;
use std::fs::File;
use std::io::{Read, Write};
use std::rt::Files;
use std::str;

// Reads until the buffer is full or the input ends. Where a read fails nothing counts as read, also not the bytes that came before. The loop is by
// hand, since std's read_exact says nothing of an input that ends early, its read_to_end wants a Vec, and a call moves as many bytes as it likes.
#[tactic(auto, using(crate::proofs::Following::borne, crate::proofs::Following::some_read, crate::proofs::Following::stopped))]
pub fn fill<R: Read>(from: &mut R, buffer: &mut [u8]) -> Option<usize>
    ensures within { Within (length buffer.new) result }
    ensures bytes { CameFrom (R.remaining from.old) (R.remaining from.new) result buffer.new }
{
    let mut done = 0;
    let mut left = calls::BORNE;
    while done < buffer.len() {
        let called = from.read(&mut buffer[done..]);
        match calls::after(called, left, done) {
            Next::On(n) => {
                done += n;
                left = calls::BORNE;
            }
            Next::Again => left -= 1,
            Next::Stop(came) => return came,
        }
    }
    Some(done)
}

// Reads as much of a file as the buffer holds. One that cannot be opened and one that cannot be read are alike: a folder can be opened. The name is
// bytes, for a &str would ask more of callers.
pub fn load<F: Files>(files: &F, name: &[u8], buffer: &mut [u8]) -> Option<usize>
    ensures { Within (length buffer.new) result }
{
    let mut file = open(files, name)?;
    fill(&mut file, buffer)
}

// A file, opened for reading. Its name has to be text, as std's names are.
fn open<F: Files>(files: &F, name: &[u8]) -> Option<F::File> {
    let name = str::from_utf8(name).ok()?;
    File::open(files, name).ok()
}

// Writes all bytes, or as many as can be written, and returns how many these were. The loop is by hand, since std's write_all does not say how many
// went before a write that fails. It is that of fill but for the call; with a closure for the call one loop could serve both, but what fill and put
// say of the bytes it would have to say of each call that it made, in a contract longer than itself.
#[tactic(auto, using(crate::proofs::Following::borne, crate::proofs::Following::some_written))]
pub fn put<W: Write>(to: &mut W, bytes: &[u8]) -> usize
    ensures within { result ≤ length bytes.now }
    ensures written { Appends (W.contents to.old) (W.contents to.new) (take result bytes.now) }
{
    let mut done = 0;
    let mut left = calls::BORNE;
    while done < bytes.len() {
        let called = to.write(&bytes[done..]);
        match calls::after(called, left, done) {
            Next::On(n) => {
                done += n;
                left = calls::BORNE;
            }
            Next::Again => left -= 1,
            Next::Stop(_) => return done,
        }
    }
    done
}

#[cfg(test)]
mod tests {
    use super::{fill, put};
    use std::io;
    use std::io::{ErrorKind, Read, Write};

    // A stream that moves one byte at a time, as many as there are, and each only after so many interrupted calls; then it ends, or fails.
    #[derive(Drop)]
    struct Fake {
        bytes: usize,
        interruptions: usize,
        waits: usize,
        fails: bool,
    }

    impl Fake {
        fn new(bytes: usize, interruptions: usize, fails: bool) -> Fake {
            Fake {
                bytes,
                interruptions,
                waits: interruptions,
                fails,
            }
        }

        fn moves(&mut self) -> io::Result<bool> {
            if self.waits > 0 {
                self.waits -= 1;
                return Err(io::Error::from(ErrorKind::Interrupted));
            }
            if self.bytes > 0 {
                self.bytes -= 1;
                self.waits = self.interruptions;
                return Ok(true);
            }
            if self.fails {
                return Err(io::Error::from_raw_os_error(5));
            }
            Ok(false)
        }
    }

    impl Read for Fake {
        fn read(&mut self, buf: &mut [u8]) -> io::Result<usize> {
            if buf.is_empty() || !self.moves()? {
                return Ok(0);
            }
            buf[0] = 7;
            Ok(1)
        }
    }

    impl Write for Fake {
        fn write(&mut self, buf: &[u8]) -> io::Result<usize> {
            if buf.is_empty() || !self.moves()? {
                return Ok(0);
            }
            Ok(1)
        }

        fn flush(&mut self) -> io::Result<()> {
            Ok(())
        }
    }

    #[test]
    fn reads_until_the_end(rt: HostRuntime) {
        let runs = [
            (3, 0, false, Some(3)),
            (9, 0, true, Some(8)),
            (3, 0, true, None),
            (3, 1000, false, Some(3)),
            (3, 1001, false, None),
        ];
        for (bytes, interruptions, fails, want) in runs {
            let mut buffer = [0u8; 8];
            let came = fill(&mut Fake::new(bytes, interruptions, fails), &mut buffer);
            assert!(rt;
                came == want,
                "{bytes} bytes, {interruptions} interruptions"
            );
        }
    }

    #[test]
    fn writes_what_it_can(rt: HostRuntime) {
        let runs = [
            (9, 0, false, 8),
            (3, 0, false, 3),
            (3, 0, true, 3),
            (9, 1000, false, 8),
            (9, 1001, false, 0),
        ];
        for (bytes, interruptions, fails, want) in runs {
            let count = put(&mut Fake::new(bytes, interruptions, fails), &[7u8; 8]);
            assert!(rt;
                count == want,
                "{bytes} bytes, {interruptions} interruptions"
            );
        }
    }
}
