use std::fmt;

/// What a number in a line stands for.
#[derive(Clone, Copy, Debug, PartialEq, Eq)]
pub enum Noun {
    Cells,
    Size,
    Length,
    Stride,
    Index,
    Person,
    Code,
    Amount,
    Axis,
    Rank,
    Count,
    Place,
    Start,
    Stop,
    Step,
}

impl Noun {
    /// The numbers that are allowed, as a message has them.
    // A second text of a noun, beside the one that it is shown by.
    fn range(self) -> &'static str {
        match self {
            Noun::Stride | Noun::Amount | Noun::Place | Noun::Start | Noun::Stop | Noun::Step => {
                "-9223372036854775808 to 9223372036854775807"
            }
            Noun::Person => "0 to 4294967295",
            Noun::Code => "0 to 255",
            _ => "0 to 18446744073709551615",
        }
    }
}

impl fmt::Display for Noun {
    fn fmt<W: fmt::Write>(&self, f: &mut fmt::Formatter<W>) -> fmt::Result {
        f.write_str(match *self {
            Noun::Cells => "a number of cells",
            Noun::Size => "a cell size in bytes",
            Noun::Length => "a length",
            Noun::Stride => "a stride",
            Noun::Index | Noun::Place => "an index",
            Noun::Person => "a person's number",
            Noun::Code => "a pay code",
            Noun::Amount => "an amount in cents",
            Noun::Axis => "an axis",
            Noun::Rank => "a rank",
            Noun::Count => "a count of axes",
            Noun::Start => "the start of a range",
            Noun::Stop => "the end of a range",
            Noun::Step => "the step of a range",
        })
    }
}

/// What a line lacks.
#[derive(Clone, Copy, Debug, PartialEq, Eq)]
pub enum What {
    Ascii,
    Command,
    Number(Noun),
    Range(Noun),
    Kind,
    Row,
    RowEnd,
    Strides,
    Value,
    Selection,
    Element,
    Dots,
    Count,
    Slash,
    End,
    Grid,
    CentsLent,
    LinesLent,
    CellMemory(usize),
    Memory,
}

impl fmt::Display for What {
    fn fmt<W: fmt::Write>(&self, f: &mut fmt::Formatter<W>) -> fmt::Result {
        let words = match *self {
            What::CellMemory(count) => return write!(f, "not enough memory for {count} cells"),
            What::Memory => return f.write_str("not enough memory"),
            What::Number(noun) => return write!(f, "expected {noun}"),
            What::Range(noun) => return write!(f, "expected {noun} from {}", noun.range()),
            What::Ascii => "ASCII text",
            What::Command => {
                "lend, open, slice, collapse, merge, fill, read, rule, info, cells or report"
            },
            What::Kind => "cents or lines",
            What::Row => "a row in brackets, such as [2,3,4]",
            What::RowEnd => ", or ]",
            What::Strides => "c, f or a row of strides",
            What::Value => "an amount in cents or a pay line PERSON/CODE/CENTS",
            What::Selection => "a selection in brackets, such as [0..10;2,3,NewAxis]",
            What::Element => "a range START..END;STEP, an index or NewAxis",
            What::Dots => ".. as in a range START..END;STEP",
            What::Count => "a count of axes or _",
            What::Slash => "/ and an amount in cents",
            What::End => "the end of the command",
            What::Grid => "an open grid",
            What::CentsLent => "an amount in cents, since cents are lent",
            What::LinesLent => "a pay line PERSON/CODE/CENTS, since lines are lent",
        };
        write!(f, "expected {words}")
    }
}

/// Why a line is not performed: what it lacks, and at which column.
#[derive(Clone, Copy, Debug, PartialEq, Eq)]
pub struct Expected {
    pub column: usize,
    pub what: What,
}
