// A package and a place in it, and the record that stands there.
ghost use Rattle.std.specs.Prelude.{◌≡◌, drop, length};
ghost use Rattle.package.specs.Package.{whole, head_demands, record_demands};
ghost use Rattle.package.specs.Code.{FoundIn, last_number};

use super::kind::Kind;
use super::number::number_of;
use words::Refusal;

// A record: its kind, and how many bytes it has in all.
#[derive(Clone, Copy, PartialEq, Eq)]
pub struct Record {
    pub kind: Kind,
    pub size: usize,
}

#[derive(Clone, Copy)]
pub struct Reader<'a> {
    pub bytes: &'a [u8],
    pub at: usize,
}

fn whole(s: &[u8]) -> bool
    ensures { result ≡ whole s.now }
{
    if s.len() < 4 {
        return false;
    }
    let length = number_of::<4>(s) as usize;
    2 <= length && length <= s.len() - 4
}

// The record at the front of the bytes, or what it is refused with: that there is none is tried first.
fn first_record(s: &[u8]) -> Result<Record, Refusal>
    ensures { FoundIn (head_demands s.now) s.now result }
{
    if s.is_empty() {
        return Err(Refusal::WrongOrder);
    }
    if !whole(s) {
        return Err(Refusal::CutShort);
    }
    let kind = Kind::try_from(number_of::<2>(&s[4..]))?;
    let size = 4 + (number_of::<4>(s) as usize);
    if !kind.sized(&s[6..size]) {
        return Err(Refusal::WrongSize);
    }
    Ok(Record { kind, size })
}

impl<'a> Reader<'a> {
    // At the package's first record.
    pub fn new(bytes: &'a [u8]) -> Reader<'a>
        ensures { (result.bytes ≡ bytes.entry) × (result.at ≡ 0) }
    {
        Reader { bytes, at: 0 }
    }

    pub fn at(self) -> usize
        ensures { result ≡ self.entry.at }
    {
        self.at
    }

    // The record at the reader's place. Past the end of the bytes there is none.
    pub fn next(self) -> Result<Record, Refusal>
        ensures { FoundIn (head_demands (drop self.entry.at self.entry.bytes.now)) (drop self.entry.at self.entry.bytes.now) result }
    {
        match self.bytes.get(self.at..) {
            Some(rest) => first_record(rest),
            None => Err(Refusal::WrongOrder),
        }
    }

    // The record at the reader's place, refused also where its kind may not come after the kind `last`.
    pub(crate) fn next_after(self, last: Option<Kind>) -> Result<Record, Refusal>
        ensures { FoundIn (record_demands (last_number last) (drop self.entry.at self.entry.bytes.now))
            (drop self.entry.at self.entry.bytes.now) result }
    {
        let record = self.next()?;
        if !record.kind.in_order(last) {
            return Err(Refusal::WrongOrder);
        }
        Ok(record)
    }

    // The same package at another place.
    pub fn moved(self, at: usize) -> Reader<'a>
        ensures { (result.bytes ≡ self.entry.bytes) × (result.at ≡ at) }
    {
        Reader {
            bytes: self.bytes,
            at,
        }
    }
}
