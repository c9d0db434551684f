//! Why a session file is refused.
ghost use Rattle.std.specs.Prelude.{◌≡◌, Some};
ghost use Rattle.fault.specs.declared.Layer.TheVariants.{Reader};
ghost use Rattle.vocab.specs.declared.faults.LineFault.TheVariants.{BadLink};
ghost use Rattle.vocab.specs.declared.faults.ReadError.TheVariants.{Memory, Fault};
ghost use Rattle.vocab.specs.Faults.{line_fault_number, line_fault_field, fault_number, fault_line, fault_field, line_fault_text, read_fault_text, read_error_text};

use fault::Layer;
use mesh::link::LinkFault;
use std::alloc::AllocError;
use std::error::Error;
use std::fmt;

/// Why a line is refused.
#[derive(Clone, Copy, Debug, PartialEq, Eq, Hash)]
pub enum LineFault {
    /// The line is not made of as many fields as its table has columns.
    Layout,
    /// The names are not those of the table, each once.
    WrongNames,
    /// The field of this number, from 1, does not hold what its column takes.
    BadField(usize),
    /// The link breaks a rule of the mesh.
    BadLink(LinkFault),
}

impl From<LinkFault> for LineFault {
    ghost from_gives = { λ e r. r ≡ BadLink e };

    fn from(e: LinkFault) -> LineFault {
        LineFault::BadLink(e)
    }
}

/// Why a file is refused. Lines count from 1.
#[derive(Clone, Copy, Debug, PartialEq, Eq, Hash)]
pub enum ReadFault {
    /// The file has more than 65,536 bytes.
    TooLong,
    /// The line of this number is refused.
    Line(usize, LineFault),
    /// The file ends before the line of this number, which must come.
    Missing(usize),
}

impl LineFault {
    /// The number of the rule that is broken.
    pub fn number(self) -> u8
        ensures { result ≡ line_fault_number self }
    {
        match self {
            LineFault::Layout => 2,
            LineFault::WrongNames => 3,
            LineFault::BadField(_) => 4,
            LineFault::BadLink(fault) => fault.number(),
        }
    }

    /// The field, from 1, where a field is at fault; else 0.
    pub fn field(self) -> usize
        ensures { result ≡ line_fault_field self }
    {
        match self {
            LineFault::BadField(field) => field,
            LineFault::Layout | LineFault::WrongNames | LineFault::BadLink(_) => 0,
        }
    }
}

impl ReadFault {
    /// The number of the rule that is broken.
    pub fn number(self) -> u8
        ensures { result ≡ fault_number self }
    {
        match self {
            ReadFault::TooLong => 1,
            ReadFault::Line(_, fault) => fault.number(),
            ReadFault::Missing(_) => 8,
        }
    }

    /// The line, from 1, or 0 where the whole file is refused.
    pub fn line(self) -> usize
        ensures { result ≡ fault_line self }
    {
        match self {
            ReadFault::TooLong => 0,
            ReadFault::Line(line, _) => line,
            ReadFault::Missing(line) => line,
        }
    }

    /// The field, from 1, where a field is at fault; else 0.
    pub fn field(self) -> usize
        ensures { result ≡ fault_field self }
    {
        match self {
            ReadFault::Line(_, fault) => fault.field(),
            ReadFault::TooLong | ReadFault::Missing(_) => 0,
        }
    }

    /// The layer that refused: the reader.
    pub fn layer(self) -> Layer
        ensures { result ≡ Reader }
    {
        Layer::Reader
    }
}

/// Why a file gave no session: a fault of its own, or want of memory before it was looked at.
#[derive(Clone, Copy, Debug, PartialEq, Eq, Hash)]
pub enum ReadError {
    Fault(ReadFault),
    Memory,
}

impl From<ReadFault> for ReadError {
    ghost from_gives = { λ e r. r ≡ Fault e };

    fn from(e: ReadFault) -> ReadError {
        ReadError::Fault(e)
    }
}

impl From<AllocError> for ReadError {
    ghost from_gives = { λ _ r. r ≡ Memory };

    fn from(_e: AllocError) -> ReadError {
        ReadError::Memory
    }
}

impl fmt::Display for LineFault {
    ghost output = { λ f. Some (line_fault_text f) };

    fn fmt<W: fmt::Write>(&self, f: &mut fmt::Formatter<W>) -> fmt::Result {
        match self {
            LineFault::Layout => f.write_str("not as many fields as the table has columns"),
            LineFault::WrongNames => f.write_str("not the names of the table, each once"),
            LineFault::BadField(field) => {
                write!(f, "field {field} does not hold what its column takes")
            }
            LineFault::BadLink(fault) => write!(f, "{fault}"),
        }
    }
}

impl Error for LineFault {}

impl fmt::Display for ReadFault {
    ghost output = { λ f. Some (read_fault_text f) };

    fn fmt<W: fmt::Write>(&self, f: &mut fmt::Formatter<W>) -> fmt::Result {
        match self {
            ReadFault::TooLong => f.write_str("more than 65,536 bytes"),
            ReadFault::Line(line, fault) => write!(f, "line {line}: {fault}"),
            ReadFault::Missing(line) => write!(f, "line {line} is missing"),
        }
    }
}

impl Error for ReadFault {}

impl fmt::Display for ReadError {
    ghost output = { λ e. Some (read_error_text e) };

    fn fmt<W: fmt::Write>(&self, f: &mut fmt::Formatter<W>) -> fmt::Result {
        match self {
            ReadError::Fault(fault) => write!(f, "{fault}"),
            ReadError::Memory => f.write_str("out of memory"),
        }
    }
}

impl Error for ReadError {}
