// Rule packages: bytes read as typecodes, rules and statements, and these written as bytes.
#![tactic(auto)]

pub mod kind;
mod number;
mod put;
pub mod reader;
mod scan;

ghost use Rattle.std.specs.Prelude.{◌≡◌, ◌≤◌, length};
ghost use Rattle.package.specs.Package.{read_gives, write_gives};
ghost use Rattle.package.specs.Code.{read_is, Settled, written_is, Weighed, Composed};

use put::Parcel;
use scan::Contents;
use words::{Refusal, Refused};

// What a read answers, as C sees it: the number, the place, both typecodes, and the counts of rule words, of statements and of statement words.
#[repr(C)]
#[derive(Clone, Copy)]
pub struct Package {
    pub number: u32,
    pub place: usize,
    pub provable: u32,
    pub logic: u32,
    pub rules: usize,
    pub statements: usize,
    pub words: usize,
}

// What a write answers, as C sees it: the number, the place, and the count of bytes.
#[repr(C)]
#[derive(Clone, Copy)]
pub struct Written {
    pub number: u32,
    pub place: usize,
    pub length: usize,
}

// ---- read

impl From<Result<Contents, Refused>> for Package {
    ghost use Rattle.package.specs.Code.{answer_is};

    ghost from_gives = { answer_is };

    fn from(r: Result<Contents, Refused>) -> Package {
        match r {
            Ok(contents) => Package {
                number: words::ACCEPTED,
                place: 0,
                provable: contents.codes.provable.0,
                logic: contents.codes.logic.0,
                rules: contents.rules,
                statements: contents.statements,
                words: contents.words,
            },
            Err(y) => Package {
                number: y.why.into(),
                place: y.place,
                provable: 0,
                logic: 0,
                rules: 0,
                statements: 0,
                words: 0,
            },
        }
    }
}

// The package's words at the front of the two slices: what stands after them is not said.
fn settle(bytes: &[u8], rules: &mut [u32], statements: &mut [u32]) -> Result<Contents, Refused>
    ensures { Settled (read_gives bytes.now (length rules.old) (length statements.old))
        result rules.new statements.new }
{
    let contents = scan::scan(bytes, rules, statements)?;
    if rules.len() < contents.rules || statements.len() < contents.words {
        return Err(Refusal::NoRoom.into());
    }
    if !rules::rules_good(&rules[..contents.rules], contents.codes) {
        return Err(Refusal::BadRules.into());
    }
    Ok(contents)
}

// A package's typecodes, its rule words, and its statements as counted words; zeros after them, and after a refusal zeros alone.
pub fn read(bytes: &[u8], rules: &mut [u32], statements: &mut [u32]) -> Package
    ensures { read_is result rules.new statements.new
        ≡ read_gives bytes.now (length rules.old) (length statements.old) }
{
    let p = Package::from(settle(bytes, rules, statements));
    words::clear_from(rules, p.rules);
    words::clear_from(statements, p.words);
    p
}

// ---- write

impl From<Result<usize, Refusal>> for Written {
    ghost use Rattle.package.specs.Code.{wrote_is};

    ghost from_gives = { wrote_is };

    fn from(r: Result<usize, Refusal>) -> Written {
        match r {
            Ok(length) => Written {
                number: words::ACCEPTED,
                place: 0,
                length,
            },
            Err(y) => Written {
                number: y.into(),
                place: 0,
                length: 0,
            },
        }
    }
}

// The bytes that are needed; `room` is there for them.
fn weigh(
    codes: rules::Codes,
    rules: &[u32],
    statements: &[u32],
    room: usize,
) -> Result<usize, Refusal>
    ensures { Weighed (write_gives codes.provable.0 codes.logic.0 rules.now statements.now room) result }
{
    if !rules::rules_good(rules, codes) {
        return Err(Refusal::BadRules);
    }
    let Ok(n) = words::count_lists(statements) else {
        return Err(Refusal::WrongSize);
    };
    let parcel = Parcel {
        codes,
        rules,
        statements,
    };
    if !parcel.short() {
        return Err(Refusal::WrongSize);
    }
    let length = parcel.needed(n);
    if room < length {
        return Err(Refusal::NoRoom);
    }
    Ok(length)
}

// The package at the front of the bytes: what stands after it is not said.
fn compose(
    codes: rules::Codes,
    rules: &[u32],
    statements: &[u32],
    bytes: &mut [u8],
) -> Result<usize, Refusal>
    ensures { Composed (write_gives codes.provable.0 codes.logic.0 rules.now statements.now (length bytes.old))
        result bytes.new }
{
    let length = weigh(codes, rules, statements, bytes.len())?;
    let parcel = Parcel {
        codes,
        rules,
        statements,
    };
    parcel.put(bytes);
    Ok(length)
}

// The package of these typecodes, rules and statements, in a slice of any length and content; zeros after it, and after a refusal zeros alone.
pub fn write(codes: rules::Codes, rules: &[u32], statements: &[u32], bytes: &mut [u8]) -> Written
    ensures { written_is result bytes.new
        ≡ write_gives codes.provable.0 codes.logic.0 rules.now statements.now (length bytes.old) }
{
    let w = Written::from(compose(codes, rules, statements, bytes));
    bytes[w.length..].fill(0);
    w
}
