// Growing the tree: rules in order; conversions in order stand in `convert`.
#![tactic(auto)]

pub mod convert;
mod place;
pub mod table;

ghost use Rattle.std.specs.Prelude.{◌≡◌, true};
ghost use Rattle.rules.specs.Rules.{the_rules};
ghost use Rattle.rules.specs.Code.{some_rules};
ghost use Rattle.tree.specs.Grow.{plant};
ghost use Rattle.tree.specs.Code.{room_of, Within, Meets, Ready, Finishes};

use words::Refusal;

// How many nodes and edges there is room for.
#[derive(Clone, Copy)]
pub struct Room {
    pub nodes: usize,
    pub edges: usize,
}

// How many there are so far. Room, counts and the two slices are passed side by side: as a struct with methods, which was tried, each contract
// would have to say that the room, both references and their lengths stay, and often the nodes, which the parameters' types say.
#[derive(Clone, Copy)]
pub struct Counts {
    pub nodes: usize,
    pub edges: usize,
}

// Why a build is refused.
#[derive(Clone, Copy, PartialEq, Eq)]
pub enum Fault {
    Collides,
    NoNode,
    NoEdge,
    SixthReduce,
    FarOffset,
    BadCopy,
    ManyRows,
    NoClone,
}

// The refusal that it is given back as.
impl From<Fault> for Refusal {
    ghost use Rattle.words.specs.Code.{code};
    ghost use Rattle.words.specs.Numbers.{fault_number};
    ghost use Rattle.tree.specs.Code.{fault_of};

    ghost from_gives = { λ f y. code y ≡ fault_number (fault_of f) };

    #[tactic(auto, unfolding(words::specs::Numbers::fault_number))]
    fn from(f: Fault) -> Refusal {
        match f {
            Fault::Collides => Refusal::Collides,
            Fault::NoNode => Refusal::NoNode,
            Fault::NoEdge => Refusal::NoEdge,
            Fault::SixthReduce => Refusal::SixthReduce,
            Fault::FarOffset => Refusal::FarOffset,
            Fault::BadCopy => Refusal::BadCopy,
            Fault::ManyRows => Refusal::ManyRows,
            Fault::NoClone => Refusal::NoFrame,
        }
    }
}

// Node 0, and the rules that are no conversions.
pub fn plant(
    rules: &[u32],
    room: Room,
    nodes: &mut [u32],
    edges: &mut [u32],
) -> Result<Counts, Fault>
    requires { (some_rules rules.now ≡ true) × Within room nodes.old edges.old }
    ensures { Meets room (plant (room_of room) (the_rules rules.now)) result nodes.new edges.new }
{
    if room.nodes == 0 {
        return Err(Fault::NoNode);
    }
    nodes[0] = 0;
    let root = Counts { nodes: 1, edges: 0 };
    place::place_rules(room, root, rules, nodes, edges)
}

// The end of a build: the last words of the rows, which are free while it grows, are cleared.
pub fn finish(grew: Result<Counts, Fault>, edges: &mut [u32]) -> Result<Counts, Fault>
    requires { Ready grew edges.old }
    ensures { (result ≡ grew) × Finishes grew edges.old edges.new }
{
    let c = grew?;
    rows::clear_last(edges, c.edges);
    Ok(c)
}
