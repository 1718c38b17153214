// Why a listing ends before its stream does. Input and output are told as in `replay`: an enum of their own would be one more case to take apart.
use std::fmt;

#[derive(Clone, Copy)]
pub enum Failure {
    Input,
    Output,
    // The byte at this offset is no command.
    Unknown { offset: u64, byte: u8 },
    // The stream ends inside the command that begins at this offset.
    CutShort { offset: u64, byte: u8 },
}

impl fmt::Display for Failure {
    fn fmt<W: fmt::Write>(&self, f: &mut fmt::Formatter<W>) -> fmt::Result {
        match *self {
            Failure::Input => write!(f, "standard input could not be read"),
            Failure::Output => write!(f, "standard output could not be written"),
            Failure::Unknown { offset, byte } => {
                write!(f, "byte {offset}: {byte:#04x} is no command")
            }
            Failure::CutShort { offset, byte } => {
                write!(f, "byte {offset}: {byte:#04x} is cut short")
            }
        }
    }
}

impl Failure {
    // A fault of the stream ends its text with a comment; standard error has every failure. Not inlined, so that what it tells by is off the stack while `run` is on it.
    #[inline(never)]
    pub fn tell(self, stdout: &impl Print, stderr: &impl Print) {
        let shown = match self {
            Failure::Input | Failure::Output => Ok(()),
            Failure::Unknown { .. } | Failure::CutShort { .. } => println!(stdout; "# {self}"),
        };
        let failure = if shown.is_ok() { self } else { Failure::Output };
        let _ = println!(stderr; "explain: {failure}");
    }
}
