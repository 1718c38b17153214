// Bytes that wait in a buffer until they are shown.
mod error;

ghost use Rattle.std.specs.Prelude.{◌≡◌, ◌≤◌, ◌+◌, IsOk, OnOk, min};

// How many bytes can wait.
pub const SIZE: usize = 32768;

// That a file could not be written, and no more: an `io::Error` would take 88 bytes of the stack at each place that may get one, while the buffer is on it.
#[derive(Clone, Copy)]
pub struct Unwritten;

// The file, and the first `done` bytes of the buffer, which it has yet to be given. An array and a length, since nothing is allocated.
#[derive(Drop)]
pub struct Output<'a, W: Print> {
    file: &'a W,
    pub bytes: [u8; SIZE],
    pub done: usize,
    ghost within: { done ≤ 32768 },
}

impl<'a, W: Print> Output<'a, W> {
    pub fn new(file: &'a W) -> Self
        ensures { result.done ≡ 0 }
    {
        Output {
            file,
            bytes: [0; SIZE],
            done: 0,
        }
    }

    // The bytes that wait go to the file, and wait no longer, also where they could not be written. Not inlined, so that one place writes.
    #[inline(never)]
    pub fn show_or_unwritten(&mut self) -> Result<(), Unwritten>
        ensures { self.new.done ≡ 0 }
    {
        let done = self.done;
        self.done = 0;
        self.file
            .write_all(&self.bytes[..done])
            .map_err(|_| Unwritten)
    }

    // Where fewer than n bytes are free, those that wait are shown first. Then a program writes behind them, and adds what it wrote: a method over a closure would
    // ask that it can be called, and what `compose` writes may be refused, while what `explain` writes may not.
    pub fn make_room_or_unwritten(&mut self, n: usize) -> Result<(), Unwritten>
        ensures { OnOk result (n ≤ 32768 → self.new.done + n ≤ 32768) }
    {
        if SIZE - self.done < n {
            return self.show_or_unwritten();
        }
        Ok(())
    }

    // n bytes more wait, but no more than the buffer has.
    pub fn add(&mut self, n: usize)
        ensures { self.new.done ≡ min (self.old.done + n) 32768 }
    {
        self.done += n.min(SIZE - self.done);
    }
}
