// The kinds of records.
ghost use Rattle.std.specs.Prelude.{◌≡◌, ◌≤◌, length};
ghost use Rattle.rules.specs.Rules.{item_width};
ghost use Rattle.package.specs.Package.{rule_sized, sized, rank, in_order};
ghost use Rattle.package.specs.Code.{kind_number, last_number};

use super::number::number_of;
use words::Refusal;

#[derive(Clone, Copy, PartialEq, Eq)]
pub enum Kind {
    Typecodes = 1,
    OneRule = 2,
    Statement = 3,
    TheEnd = 4,
    OldRule = 5,
}

// The words of an old rule's item.
const OLD_WIDTH: usize = 2;

impl From<Kind> for u32 {
    ghost use Rattle.package.specs.Code.{kind_is};

    ghost from_gives = { kind_is };

    fn from(kind: Kind) -> u32 {
        kind as u32
    }
}

impl TryFrom<u32> for Kind {
    type Error = Refusal;

    ghost use Rattle.package.specs.Code.{KnownAs};

    ghost try_from_gives = { KnownAs };

    fn try_from(n: u32) -> Result<Kind, Refusal> {
        match n {
            1 => Ok(Kind::Typecodes),
            2 => Ok(Kind::OneRule),
            3 => Ok(Kind::Statement),
            4 => Ok(Kind::TheEnd),
            5 => Ok(Kind::OldRule),
            _ => Err(Refusal::UnknownKind),
        }
    }
}

fn rule_sized(body: &[u8], width: usize) -> bool
    requires { width ≤ item_width }
    ensures { result ≡ rule_sized width body.now }
{
    body.len() >= 8 && body.len() == 4 * (2 + width * (number_of::<4>(&body[4..]) as usize))
}

impl Kind {
    // Whether a body has the size that its kind asks for.
    pub(crate) fn sized(self, body: &[u8]) -> bool
        ensures { result ≡ sized (kind_number self) body.now }
    {
        match self {
            Kind::Typecodes => body.len() == 8,
            Kind::OneRule => rule_sized(body, rules::ITEM_WIDTH),
            Kind::OldRule => rule_sized(body, OLD_WIDTH),
            Kind::Statement => body.len() % 4 == 0,
            Kind::TheEnd => body.is_empty(),
        }
    }

    // An old rule stands where a rule may.
    fn rank(self) -> u32
        ensures { result ≡ rank (kind_number self) }
    {
        match self {
            Kind::OldRule => Kind::OneRule.into(),
            other => other.into(),
        }
    }

    // Whether a record of this kind may come after one of the kind `last`.
    pub(crate) fn in_order(self, last: Option<Kind>) -> bool
        ensures { result ≡ in_order (last_number last) (kind_number self) }
    {
        match last {
            None => self == Kind::Typecodes,
            Some(last) => self != Kind::Typecodes && last.rank() <= self.rank(),
        }
    }
}
