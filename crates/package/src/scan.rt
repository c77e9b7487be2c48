// A package's records one after another, their words put into two slices as far as there is room.
ghost use Rattle.std.specs.Prelude.{◌≡◌, true, List, [], ◌∷◌, ℕ, ◌+◌, ◌≤◌, ◌<◌, ◌^◌, length};
ghost use Rattle.package.specs.Bytes.{words_of};
ghost use Rattle.package.specs.Package.{typecodes, one_rule, old_rule, statement, sized, renewed, says};
ghost use Rattle.package.specs.Code.{kind_number, Put, PutItem, Takes, Scanned, Small};

use super::kind::Kind;
use super::number::{copy_words, number_of};
use super::reader::Reader;
use words::{Refusal, Refused, SymbolNo};

// What was read: both typecodes, and how many rule words, statements and statement words.
#[derive(Clone, Copy)]
pub struct Contents {
    pub codes: rules::Codes,
    pub rules: usize,
    pub statements: usize,
    pub words: usize,
}

// ---- a record's words

// A word at `at`, if there is room for it.
fn put_word(to: &mut [u32], at: usize, x: u32)
    ensures { Put to.old at (x ∷ []) to.new }
{
    if at < to.len() {
        to[at] = x;
    }
}

// An old rule's item, and its third word: v for a slot. The variable of the next slot.
fn put_item(to: &mut [u32], at: usize, item: &[u8; 8], v: u32) -> u32
    requires { (at < 2 ^ 63) × (v < 2 ^ 31) }
    ensures { PutItem to.old at item.now v result to.new }
{
    copy_words(to, at, item);
    if number_of::<4>(item) == 0 {
        put_word(to, at + 2, 0);
        return v;
    }
    put_word(to, at + 2, v);
    v + 1
}

// The words of an old rule from `at` on, if there is room for all of them: where they end.
fn put_old_rule(to: &mut [u32], at: usize, body: &[u8]) -> usize
    requires { (sized old_rule body.now ≡ true) × (length body.now < 2 ^ 32) × (at < 2 ^ 62) }
    ensures { Put to.old at (renewed (words_of body.now)) to.new
        × (result ≡ at + length (renewed (words_of body.now))) }
{
    let (head, rest) = body.split_at(8);
    copy_words(to, at, head);
    let (items, _) = rest.as_chunks::<8>();
    let mut next = at + 2;
    let mut v: u32 = 1;
    for item in items {
        v = put_item(to, next, item, v);
        next += rules::ITEM_WIDTH;
    }
    next
}

// `Small` stays a `requires`: a body's words may pass any bound that is the counts' own, and only `scan` knows the bytes that bound them.
impl Contents {
    fn take_typecodes(self, body: &[u8]) -> Contents
        requires { length body.now ≡ 8 }
        ensures { (rs ss : List ℕ) → Takes self typecodes body.now result rs ss rs ss }
    {
        let codes = rules::Codes {
            provable: SymbolNo(number_of::<4>(body)),
            logic: SymbolNo(number_of::<4>(&body[4..])),
        };
        Contents { codes, ..self }
    }

    fn take_rule(self, body: &[u8], rules: &mut [u32]) -> Contents
        requires { Small self }
        ensures { (ss : List ℕ) → Takes self one_rule body.now result rules.old ss rules.new ss }
    {
        copy_words(rules, self.rules, body);
        Contents {
            rules: self.rules + body.len() / 4,
            ..self
        }
    }

    // An old rule's slots get their variables.
    fn take_old_rule(self, body: &[u8], rules: &mut [u32]) -> Contents
        requires { Small self × (length body.now < 2 ^ 32) × (sized old_rule body.now ≡ true) }
        ensures { (ss : List ℕ) → Takes self old_rule body.now result rules.old ss rules.new ss }
    {
        Contents {
            rules: put_old_rule(rules, self.rules, body),
            ..self
        }
    }

    // The count of its tokens, then the tokens.
    fn take_statement(self, body: &[u8], statements: &mut [u32]) -> Contents
        requires { Small self × (length body.now < 2 ^ 32) }
        ensures { (rs : List ℕ) → Takes self statement body.now result rs statements.old rs statements.new }
    {
        let n = body.len() / 4;
        put_word(statements, self.words, n as u32);
        copy_words(statements, self.words + 1, body);
        Contents {
            statements: self.statements + 1,
            words: self.words + 1 + n,
            ..self
        }
    }

    // A record's body, put to what was read before it.
    fn take_record(
        self,
        kind: Kind,
        body: &[u8],
        rules: &mut [u32],
        statements: &mut [u32],
    ) -> Contents
        requires { Small self × (length body.now < 2 ^ 32) × (sized (kind_number kind) body.now ≡ true) }
        ensures { Takes self (kind_number kind) body.now result rules.old statements.old rules.new statements.new }
    {
        match kind {
            Kind::Typecodes => self.take_typecodes(body),
            Kind::OneRule => self.take_rule(body, rules),
            Kind::OldRule => self.take_old_rule(body, rules),
            Kind::Statement => self.take_statement(body, statements),
            Kind::TheEnd => self,
        }
    }
}

// ---- all records

const NOTHING: Contents = Contents {
    codes: rules::Codes {
        provable: SymbolNo(0),
        logic: SymbolNo(0),
    },
    rules: 0,
    statements: 0,
    words: 0,
};

// What they say, or the first that is refused.
pub fn scan(bytes: &[u8], rules: &mut [u32], statements: &mut [u32]) -> Result<Contents, Refused>
    ensures { Scanned (says bytes.now) result rules.new statements.new }
{
    let mut contents = NOTHING;
    let mut reader = Reader::new(bytes);
    let mut last = None;
    let mut k: usize = 0;
    while last != Some(Kind::TheEnd) {
        let record = reader
            .next_after(last)
            .map_err(|why| Refused { why, place: k })?;
        let start = reader.at + 6;
        let end = reader.at + record.size;
        contents = contents.take_record(record.kind, &bytes[start..end], rules, statements);
        reader = reader.moved(end);
        last = Some(record.kind);
        k += 1;
    }
    if reader.at < bytes.len() {
        return Err(Refused {
            why: Refusal::WrongOrder,
            place: k,
        });
    }
    Ok(contents)
}
