// What each number says, as the end of a line.
use std::fmt;
use words::Refusal;

// A number that is given back.
#[derive(Clone, Copy, Debug, PartialEq, Eq)]
pub struct Outcome(pub u32);

fn refusal(number: u32) -> &'static str {
    match Refusal::try_from(number) {
        Ok(Refusal::TooFewTokens) => "a statement has at least two tokens",
        Ok(Refusal::Unparseable) => "no rule goes on with the token at this place",
        Ok(Refusal::TooShort) => "the statement ends before a rule does",
        Ok(Refusal::Misfit) => "the list does not fit the statement",
        Ok(Refusal::NoPass) => "the passes are used up",
        Ok(Refusal::NoFrame) => "this program has room for no more frames",
        Ok(Refusal::NoRoom) => "this program has no room for it",
        Ok(Refusal::BadTables) => "the tree is not one",
        Ok(Refusal::TooManyTokens) => "the statement has too many tokens",
        Ok(Refusal::BadRules) => "the rules or the typecodes are bad",
        Ok(Refusal::Collides) => "a rule's body is, begins or goes on from another's",
        Ok(Refusal::NoNode) => "the tree has more nodes than it may have",
        Ok(Refusal::NoEdge) => "the tree has more edges than this program has room for",
        Ok(Refusal::SixthReduce) => "an edge of the tree would get a sixth reduce",
        Ok(Refusal::BadCopy) => "branches would be copied from a leaf, to one, or to themselves",
        Ok(Refusal::CutShort) => "the length of this record is cut short, under 2 or past the end",
        Ok(Refusal::UnknownKind) => "this record has a kind that is none of 1 to 5",
        Ok(Refusal::WrongSize) => "the body of this record has the wrong size for its kind",
        Ok(Refusal::WrongOrder) => "a record is missing here, or stands in the wrong place",
        _ => "this number has no sentence",
    }
}

impl fmt::Display for Outcome {
    fn fmt<W: fmt::Write>(&self, f: &mut fmt::Formatter<W>) -> fmt::Result {
        match self.0 {
            words::ACCEPTED => write!(f, "good"),
            number => write!(f, "REFUSED, {}", refusal(number)),
        }
    }
}
