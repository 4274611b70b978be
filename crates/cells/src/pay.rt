use std::fmt;

/// What a person is paid under a pay code.
#[derive(Clone, Copy, PartialEq, Eq, Default, Debug)]
pub struct PayLine {
    pub person: u32,
    pub code: u8,
    pub cents: i64,
}

impl fmt::Display for PayLine {
    fn fmt<W: fmt::Write>(&self, f: &mut fmt::Formatter<W>) -> fmt::Result {
        write!(f, "{}/{}/{}", self.person, self.code, self.cents)
    }
}
