// `show_or_unwritten` and `make_room_or_unwritten` for a caller that wants the file's own error.
ghost use Rattle.std.specs.Prelude.{◌≡◌, ◌≤◌, ◌+◌, OnOk};

use super::{Output, SIZE};
use std::io;

impl<'a, W: Print> Output<'a, W> {
    // The bytes that wait go to the file, and wait no longer, also where they could not be written.
    pub fn show(&mut self) -> io::Result<()>
        ensures { self.new.done ≡ 0 }
    {
        let done = self.done;
        self.done = 0;
        self.file.write_all(&self.bytes[..done])
    }

    // Where fewer than n bytes are free, those that wait are shown first.
    pub fn make_room(&mut self, n: usize) -> io::Result<()>
        ensures { OnOk result (n ≤ 32768 → self.new.done + n ≤ 32768) }
    {
        if SIZE - self.done < n {
            return self.show();
        }
        Ok(())
    }
}

#[cfg(test)]
mod tests {
    use super::*;
    use std::fmt::Display;
    use std::io::ErrorKind;

    const HEADER: &[u8] = b"sched 1\n";

    // A file that takes the header, and nothing else.
    struct Header;

    impl Print for Header {
        fn print<D: Display + Drop>(&self, _value: D) -> io::Result<()> {
            Err(io::Error::from(ErrorKind::Unsupported))
        }

        fn println<D: Display + Drop>(&self, value: D) -> io::Result<()> {
            self.print(value)
        }

        fn write_all(&self, bytes: &[u8]) -> io::Result<()> {
            if bytes == HEADER {
                Ok(())
            } else {
                Err(io::Error::from(ErrorKind::StorageFull))
            }
        }
    }

    // What was answered: nothing where all went well, else what sort of failure it is.
    fn failure(answered: io::Result<()>) -> Option<ErrorKind> {
        answered.err().map(|error| error.kind())
    }

    #[test]
    fn shown(rt: HostRuntime) {
        let mut output = Output::new(&Header);
        assert_eq!(rt; failure(output.make_room(SIZE)), None);
        output.bytes[..8].copy_from_slice(HEADER);
        output.add(8);
        assert_eq!(rt; failure(output.make_room(SIZE - 8)), None);
        assert_eq!(rt; output.done, 8, "there was room, so nothing was shown");
        assert_eq!(rt; failure(output.make_room(SIZE - 7)), None);
        assert_eq!(rt;
            output.done,
            0,
            "there was no room, so the header was shown"
        );
        output.add(8);
        assert_eq!(rt; failure(output.show()), None);
        assert_eq!(rt; output.done, 0);
    }

    #[test]
    fn not_written(rt: HostRuntime) {
        let mut output = Output::new(&Header);
        output.add(9);
        assert_eq!(rt; failure(output.show()), Some(ErrorKind::StorageFull));
        assert_eq!(rt; output.done, 0);
        output.add(SIZE);
        assert_eq!(rt; failure(output.make_room(1)), Some(ErrorKind::StorageFull));
        assert_eq!(rt;
            failure(output.make_room(1)),
            None,
            "what could not be written waits no longer"
        );
    }
}
