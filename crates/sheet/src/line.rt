// What the first byte of a line says that it is.

// A line that is none of ours, or has other fields than such a line has.
#[derive(Clone, Copy, Debug, PartialEq, Eq)]
pub struct Unreadable;

impl From<text::ReadError> for Unreadable {
    fn from(_e: text::ReadError) -> Unreadable {
        Unreadable
    }
}

// A table that a line sets.
#[derive(Clone, Copy, Debug, PartialEq, Eq)]
pub enum Set {
    Codes,
    Lent,
    Rules,
    Nodes,
    Edges,
}

// An entry point that a row calls.
#[derive(Clone, Copy, Debug, PartialEq, Eq)]
pub enum Call {
    Build,
    Parse,
    Verify,
    Stretch,
}

impl Call {
    // A build asks by three numbers, a stretch by one, the others by a statement.
    pub fn most_asked(self) -> usize {
        match self {
            Call::Build => 3,
            Call::Stretch => 1,
            Call::Parse | Call::Verify => usize::MAX,
        }
    }
}

#[derive(Clone, Copy, Debug, PartialEq, Eq)]
pub enum Line {
    Remark,
    Set(Set),
    Row(Call),
}

impl TryFrom<&[u8]> for Line {
    type Error = Unreadable;

    fn try_from(line: &[u8]) -> Result<Self, Unreadable> {
        match line.first() {
            None | Some(&text::REMARK) => Ok(Line::Remark),
            Some(b'c') => Ok(Line::Set(Set::Codes)),
            Some(b'l') => Ok(Line::Set(Set::Lent)),
            Some(b'r') => Ok(Line::Set(Set::Rules)),
            Some(b'n') => Ok(Line::Set(Set::Nodes)),
            Some(b'e') => Ok(Line::Set(Set::Edges)),
            Some(b'b') => Ok(Line::Row(Call::Build)),
            Some(b'p') => Ok(Line::Row(Call::Parse)),
            Some(b'v') => Ok(Line::Row(Call::Verify)),
            Some(b's') => Ok(Line::Row(Call::Stretch)),
            Some(_) => Err(Unreadable),
        }
    }
}
