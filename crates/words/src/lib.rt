// The limits, the refusals, one type for each kind of number, and writing to a lent slice.
#![tactic(auto)]

ghost use Rattle.std.specs.Prelude.{◌≡◌, ◌+◌, ◌≤◌, ◌<◌, length};
ghost use Rattle.words.specs.Lent.{zeros, cleared_from, moved_up, inserted};
ghost use Rattle.words.specs.Outcome.{lesser};
ghost use Rattle.words.specs.Counted.{lists_of};
ghost use Rattle.words.specs.Code.{how_many};

// Symbols and typecodes are 1 to this.
pub const MOST_SYMBOL: u32 = 65535;

pub const MOST_ITEMS: u32 = 32;

pub const MOST_RULES: u32 = 2048;

pub const MOST_NODES: usize = 8192;

pub const MOST_EDGES: usize = 16384;

pub const MOST_REDUCES: u32 = 5;

pub const MOST_OFFSET: u32 = 255;
// The tokens of a statement, its typecode among them.
pub const MOST_TOKENS: usize = 32769;
// The rows that a clone may take up in one garden path.
pub const MOST_TAKEN: usize = 16384;
// The words of an edge.
pub const ROW_WIDTH: usize = 16;

// The number given back where nothing is refused.
pub const ACCEPTED: u32 = 0;

// Why something is refused. Each is given back as its number.
#[derive(Clone, Copy, PartialEq, Eq)]
pub enum Refusal {
    TooFewTokens = 1,
    Unparseable = 2,
    TooShort = 3,
    Misfit = 4,
    NoPass = 5,
    NoFrame = 6,
    // A slice lent is too short.
    NoRoom = 7,
    BadTables = 8,
    TooManyTokens = 9,
    BadRules = 10,
    Collides = 11,
    NoNode = 12,
    NoEdge = 13,
    SixthReduce = 14,
    FarOffset = 15,
    BadCopy = 16,
    ManyRows = 17,
    // Of a package: the four below.
    CutShort = 20,
    UnknownKind = 21,
    // Of a body, and of counted words whose count passes their end.
    WrongSize = 22,
    WrongOrder = 23,
}

impl From<Refusal> for u32 {
    ghost use Rattle.words.specs.Code.{code_is};

    ghost from_gives = { code_is };

    fn from(y: Refusal) -> u32 {
        y as u32
    }
}

// A number that no refusal has.
#[derive(Clone, Copy, PartialEq, Eq)]
pub struct NoRefusal(pub u32);

impl TryFrom<u32> for Refusal {
    type Error = NoRefusal;

    ghost use Rattle.words.specs.Code.{refusal_is};

    ghost try_from_gives = { refusal_is };

    fn try_from(n: u32) -> Result<Refusal, NoRefusal> {
        match n {
            1 => Ok(Refusal::TooFewTokens),
            2 => Ok(Refusal::Unparseable),
            3 => Ok(Refusal::TooShort),
            4 => Ok(Refusal::Misfit),
            5 => Ok(Refusal::NoPass),
            6 => Ok(Refusal::NoFrame),
            7 => Ok(Refusal::NoRoom),
            8 => Ok(Refusal::BadTables),
            9 => Ok(Refusal::TooManyTokens),
            10 => Ok(Refusal::BadRules),
            11 => Ok(Refusal::Collides),
            12 => Ok(Refusal::NoNode),
            13 => Ok(Refusal::NoEdge),
            14 => Ok(Refusal::SixthReduce),
            15 => Ok(Refusal::FarOffset),
            16 => Ok(Refusal::BadCopy),
            17 => Ok(Refusal::ManyRows),
            20 => Ok(Refusal::CutShort),
            21 => Ok(Refusal::UnknownKind),
            22 => Ok(Refusal::WrongSize),
            23 => Ok(Refusal::WrongOrder),
            _ => Err(NoRefusal(n)),
        }
    }
}

#[derive(Clone, Copy, PartialEq, Eq, PartialOrd, Ord)]
pub struct RuleNo(pub u32);

#[derive(Clone, Copy, PartialEq, Eq, PartialOrd, Ord)]
pub struct NodeNo(pub u32);

#[derive(Clone, Copy, PartialEq, Eq, PartialOrd, Ord)]
pub struct SymbolNo(pub u32);

// The number of the first list of counted words whose count passes their end.
#[derive(Clone, Copy, PartialEq, Eq)]
pub struct Cut(pub usize);

// A refusal, and the place of what is at fault; 0 where that is nothing that has a place.
#[derive(Clone, Copy, PartialEq, Eq)]
pub struct Refused {
    pub why: Refusal,
    pub place: usize,
}

impl From<Refusal> for Refused {
    ghost from_gives = { λ y r. r ≡ record { why = y; place = 0 } };

    fn from(why: Refusal) -> Refused {
        Refused { why, place: 0 }
    }
}

impl From<Cut> for Refused {
    ghost use Rattle.words.specs.declared.Refusal.TheVariants.{WrongSize};

    ghost from_gives = { λ k r. r ≡ record { why = WrongSize; place = k.0 } };

    fn from(cut: Cut) -> Refused {
        Refused {
            why: Refusal::WrongSize,
            place: cut.0,
        }
    }
}

// The smaller of two rooms.
#[tactic(auto, using(crate::proofs::Laws::min_is_lesser))]
pub fn lesser(a: usize, b: usize) -> usize
    ensures { result ≡ lesser a b }
{
    a.min(b)
}

// The words from `at` on 0, those before it as they were.
pub fn clear_from(s: &mut [u32], at: usize)
    requires { at ≤ length s.old }
    ensures { s.new ≡ cleared_from s.old at }
{
    s[at..].fill(0);
}

// The words from `from` to `to`, the last of them first, come to stand `by` further up.
#[tactic(auto, using(crate::proofs::Laws::moved_at_once))]
pub fn move_up(s: &mut [u32], from: usize, to: usize, by: usize)
    requires { (from ≤ to) × (to + by ≤ length s.old) }
    ensures { s.new ≡ moved_up s.old from to by }
{
    s.copy_within(from..to, from + by);
}

// `x` before word `p` of the first `n`, which move up by one from there on.
pub fn insert(s: &mut [u32], n: usize, p: usize, x: u32)
    requires { (p ≤ n) × (n < length s.old) }
    ensures { s.new ≡ inserted s.old n p x }
{
    move_up(s, p, n, 1);
    s[p] = x;
}

// The lists of counted words, counted.
pub fn count_lists(ws: &[u32]) -> Result<usize, Cut>
    ensures { result ≡ how_many 0 (lists_of ws.now) }
{
    let mut n = 0;
    let mut rest = ws;
    while let Some((size, after)) = rest.split_first() {
        let Some((_, others)) = after.split_at_checked(*size as usize) else {
            return Err(Cut(n));
        };
        rest = others;
        n += 1;
    }
    Ok(n)
}
