use cells::PayLine;
use script::{Value, What};

/// A type of cells that can be lent.
pub(crate) trait Cell: Copy + Default + PartialEq + Into<Value> {
    /// What a report calls such cells.
    const KIND: &'static str;

    /// What is lacking where a value for such cells is of another type.
    const WANTED: What;

    /// The cell that a value stands for, if the value is of this type.
    fn of(value: Value) -> Option<Self>;

    /// The cents that the cell comes to.
    fn cents(self) -> i64;
}

impl Cell for i64 {
    const KIND: &'static str = "cents";

    const WANTED: What = What::CentsLent;

    fn of(value: Value) -> Option<i64> {
        match value {
            Value::Cents(cents) => Some(cents),
            Value::Line(_) => None,
        }
    }

    fn cents(self) -> i64 {
        self
    }
}

impl Cell for PayLine {
    const KIND: &'static str = "lines";

    const WANTED: What = What::LinesLent;

    fn of(value: Value) -> Option<PayLine> {
        match value {
            Value::Line(line) => Some(line),
            Value::Cents(_) => None,
        }
    }

    fn cents(self) -> i64 {
        self.cents
    }
}
