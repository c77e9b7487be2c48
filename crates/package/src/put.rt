// A package's records written one after another. There is room for all that is written.
ghost use Rattle.std.specs.Prelude.{◌≡◌, true, ℕ, ◌+◌, ◌*◌, ◌≤◌, ◌<◌, length};
ghost use Rattle.words.specs.Limits.{most_rules};
ghost use Rattle.words.specs.Counted.{counted, the_lists};
ghost use Rattle.rules.specs.Code.{some_rules};
ghost use Rattle.package.specs.Package.{most_written, short, record_bytes, rule_records, statement_records, written};
ghost use Rattle.package.specs.Code.{kind_number, pasted, Room, package_of};

use super::kind::Kind;
use super::number::{put_number, put_words};

// What is written: good rules, and statements that are whole.
#[derive(Clone, Copy)]
pub struct Parcel<'a> {
    pub codes: rules::Codes,
    pub rules: &'a [u32],
    pub statements: &'a [u32],
    ghost good: { some_rules rules.now ≡ true },
    ghost whole: { counted (the_lists statements.now) ≡ statements.now },
}

// The most tokens of a statement that is written.
const MOST_WRITTEN: u32 = 1073741823;

// ---- records, each at the front of `to`: how many bytes were written

fn put_record(to: &mut [u8], kind: Kind, ws: &[u32]) -> usize
    requires { Room to.old 0 (record_bytes (kind_number kind) ws.now) × (length ws.now ≤ most_written) }
    ensures { (result ≡ length (record_bytes (kind_number kind) ws.now)) × (to.new ≡ pasted to.old 0 (record_bytes (kind_number kind) ws.now)) }
{
    let size = 4 * ws.len();
    put_number::<4>(to, (2 + size) as u32);
    put_number::<2>(&mut to[4..], kind.into());
    put_words(&mut to[6..], ws);
    6 + size
}

impl<'a> Parcel<'a> {
    // A record for each rule.
    fn put_rules(self, to: &mut [u8]) -> usize
        requires { Room to.old 0 (rule_records most_rules self.rules.now) }
        ensures { (result ≡ length (rule_records most_rules self.entry.rules.now))
            × (to.new ≡ pasted to.old 0 (rule_records most_rules self.entry.rules.now)) }
    {
        let mut next = 0;
        for (_, rest) in rules::each(self.rules) {
            let rule = &rest[..rules::size_of(rest)];
            next += put_record(&mut to[next..], Kind::OneRule, rule);
        }
        next
    }

    // Whether no statement is too long for its record.
    pub fn short(self) -> bool
        ensures { result ≡ short (the_lists self.entry.statements.now) }
    {
        let mut rest = self.statements;
        while let Some((count, after)) = rest.split_first() {
            if MOST_WRITTEN < *count {
                return false;
            }
            rest = &after[*count as usize..];
        }
        true
    }

    // A record for each statement. Its walk and that of the rules differ in where a record's words end, and so in all that is known there.
    fn put_statements(self, to: &mut [u8]) -> usize
        requires { Room to.old 0 (statement_records (the_lists self.statements.now)) × (short (the_lists self.statements.now) ≡ true) }
        ensures { (result ≡ length (statement_records (the_lists self.entry.statements.now)))
            × (to.new ≡ pasted to.old 0 (statement_records (the_lists self.entry.statements.now))) }
    {
        let mut next = 0;
        let mut rest = self.statements;
        while let Some((count, after)) = rest.split_first() {
            let (tokens, others) = after.split_at(*count as usize);
            next += put_record(&mut to[next..], Kind::Statement, tokens);
            rest = others;
        }
        next
    }

    // The bytes that it needs, of so many statements.
    pub fn needed(self, count: usize) -> usize
        requires { count ≡ length (the_lists self.statements.now) }
        ensures { result ≡ length (written (package_of self.entry.codes.provable.0 self.entry.codes.logic.0 self.entry.rules.now self.entry.statements.now)) }
    {
        let r = rules::count(self.rules) as usize;
        20 + 6 * r + 4 * self.rules.len() + 2 * count + 4 * self.statements.len()
    }

    // The whole package, at the front of `to`.
    pub fn put(self, to: &mut [u8])
        requires { Room to.old 0 (written (package_of self.codes.provable.0 self.codes.logic.0 self.rules.now self.statements.now))
            × (short (the_lists self.statements.now) ≡ true) }
        ensures { to.new ≡ pasted to.old 0 (written (package_of self.entry.codes.provable.0 self.entry.codes.logic.0 self.entry.rules.now self.entry.statements.now)) }
    {
        let pair = [self.codes.provable.0, self.codes.logic.0];
        let head = put_record(to, Kind::Typecodes, &pair);
        let middle = head + self.put_rules(&mut to[head..]);
        let end = middle + self.put_statements(&mut to[middle..]);
        put_record(&mut to[end..], Kind::TheEnd, &[]);
    }
}
