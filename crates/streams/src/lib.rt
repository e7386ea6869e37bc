// Reading a stream into a lent buffer.
#![tactic(auto)]

ghost use Rattle.std.specs.Prelude.{◌≡◌, ◌<◌, ◌≤◌, length, take, OnOk};
ghost use Rattle.std.specs.Io.KnownBytes.{Consumes, IsAtEnd};

use std::io;
use std::io::Read;

// Reads until the buffer is full, the input ends or a read fails: how many bytes stand at the start of the buffer now, which are all that
// were taken from the input; and the error of the read that failed. On an empty buffer nothing is read.
// The library's `read_exact` does not tell how many bytes came before an early end, so the loop goes on by what each read gives.
pub fn read_full<R: Read>(input: &mut R, buf: &mut [u8]) -> (usize, io::Result<()>)
    ensures within { (result.0 ≤ length buf.new) × (result.0 ≡ length (take result.0 buf.new)) }
    ensures taken { Consumes (R.remaining input.old) (R.remaining input.new) (take result.0 buf.new) }
    ensures end { OnOk result.1 (result.0 < length buf.new → IsAtEnd (R.remaining input.new)) }
{
    let mut done = 0;
    while done < buf.len() {
        match input.read(&mut buf[done..]) {
            Ok(0) => break,
            Ok(n) => done += n,
            Err(e) => return (done, Err(e)),
        }
    }
    (done, Ok(()))
}

#[cfg(test)]
mod tests {
    use super::read_full;
    use std::io;
    use std::io::{ErrorKind, Read};
    use std::test::Fail;

    // Gives its bytes two at a time, and fails where three are left.
    #[derive(Drop)]
    struct Worn<'a> {
        left: &'a [u8],
    }

    impl Read for Worn<'_> {
        fn read(&mut self, buf: &mut [u8]) -> io::Result<usize> {
            if self.left.len() == 3 {
                return Err(io::Error::from(ErrorKind::Other));
            }
            let n = buf.len().min(2);
            self.left.read(&mut buf[..n])
        }
    }

    #[test]
    fn stops_at_a_full_buffer(rt: HostRuntime) -> Result<(), Fail> {
        let mut buf = [b'.'; 5];
        let mut input = Worn { left: b"abcdefgh" };
        let (n, ended) = read_full(&mut input, &mut buf);
        assert_eq!(rt; n, 5);
        assert!(rt; ended.is_ok());
        assert_eq!(rt; buf.as_slice(), b"abcde".as_slice());
        assert_eq!(rt; input.left, b"fgh".as_slice());
        Ok(())
    }

    #[test]
    fn stops_at_the_end(rt: HostRuntime) -> Result<(), Fail> {
        let mut buf = [b'.'; 8];
        let (n, ended) = read_full(&mut Worn { left: b"abcdef" }, &mut buf);
        assert_eq!(rt; n, 6);
        assert!(rt; ended.is_ok());
        assert_eq!(rt; buf.as_slice(), b"abcdef..".as_slice());
        Ok(())
    }

    #[test]
    fn stops_at_a_read_that_fails(rt: HostRuntime) -> Result<(), Fail> {
        let mut buf = [b'.'; 8];
        let (n, ended) = read_full(&mut Worn { left: b"abcdefg" }, &mut buf);
        assert_eq!(rt; n, 4);
        assert!(rt; ended.is_err());
        assert_eq!(rt; buf.as_slice(), b"abcd....".as_slice());
        Ok(())
    }
}
