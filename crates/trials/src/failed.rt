//! Why the program ends before its trials do.
use group_history::Refusal;
use script_parser::Fault;
use std::alloc::AllocError;
use std::io;

/// A stream failed, a trial can't be read, or a group can't be opened.
#[derive(Clone, Copy, Debug)]
pub(crate) enum Failed {
    Stream(io::ErrorKind),
    Script(Fault),
    Refused(Refusal),
}

impl From<io::Error> for Failed {
    fn from(e: io::Error) -> Failed {
        Failed::Stream(e.kind())
    }
}

impl From<Refusal> for Failed {
    fn from(e: Refusal) -> Failed {
        Failed::Refused(e)
    }
}

impl From<AllocError> for Failed {
    fn from(_: AllocError) -> Failed {
        Failed::Refused(Refusal::NoMemory)
    }
}

impl From<Fault> for Failed {
    fn from(fault: Fault) -> Failed {
        Failed::Script(fault)
    }
}
