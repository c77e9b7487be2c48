// `clone_branches`: the clones that have begun and are not done stand in frames, the last one on top.
ghost use Rattle.std.specs.Prelude.{◌≡◌, ◌-◌, ◌/◌, ◌≤◌, ◌<◌, length};
ghost use Rattle.words.specs.Limits.{most_edges, row_width, most_reduces};
ghost use Rattle.rows.specs.Rows.{edge_of};
ghost use Rattle.rows.specs.Code.{row_at, written};
ghost use Rattle.tree.specs.Code.{grown_of, Stands, Meets};
ghost use Rattle.garden.specs.Garden.{clone_branches};
ghost use Rattle.garden.specs.Code.{NextAt, cloning_of, frame_is, bounds_of, Staged, stage_of, Turns, turns_left, Begins, AfterRow};

use crate::{copy, row};

// A clone that has begun: how many rows stood then, and how many of the node's own are taken up.
#[derive(Clone, Copy)]
pub struct Frame {
    pub clone: row::Cloning,
    pub stood: usize,
    pub place: usize,
}

// How far a garden path's clones are: the counts, the frames in use, and the rows that may still be taken up.
#[derive(Clone, Copy)]
pub struct Stage {
    pub counts: tree::Counts,
    pub depth: usize,
    pub left: usize,
}

// Frames lie in a slice of words that the caller lends, as the C interface has it. A frame has the words of an edge row: how many rows stood
// where the kind is, how many are taken up where the symbol is.
fn write_frame(frames: &mut [u32], at: usize, f: Frame)
    requires { (at < length frames.old / row_width) × (f.stood ≤ most_edges) × (f.place ≤ most_edges) }
    ensures { frames.new ≡ written frames.old at (frame_is f) }
{
    let key = rows::Key {
        from: f.clone.from,
        kind: f.stood as u32,
        symbol: words::SymbolNo(f.place as u32),
    };
    let e = rows::Edge {
        key,
        to: f.clone.to,
        reduces: f.clone.stored,
    };
    rows::write_edge(frames, at, e);
}

fn read_frame(frames: &[u32], at: usize) -> Frame
    requires { (at < length frames.now / row_width) × (length (edge_of (row_at frames.now at)).reduces ≤ most_reduces) }
    ensures { frame_is result ≡ edge_of (row_at frames.now at) }
{
    let e = rows::read_row(frames, at);
    let clone = row::Cloning {
        from: e.key.from,
        to: e.to,
        stored: e.reduces,
    };
    Frame {
        clone,
        stood: e.key.kind as usize,
        place: e.key.symbol.0 as usize,
    }
}

// A clone begins, over the rows that stand now: 6 where there is no frame for it.
fn begin(s: Stage, clone: row::Cloning, frames: &mut [u32]) -> Result<Stage, tree::Fault>
    requires { s.counts.edges ≤ most_edges }
    ensures { Begins s clone result frames.old frames.new }
{
    let depth = s.depth;
    if frames.len() / words::ROW_WIDTH <= depth {
        return Err(tree::Fault::NoClone);
    }
    let frame = Frame {
        clone,
        stood: s.counts.edges,
        place: 0,
    };
    write_frame(frames, depth, frame);
    Ok(Stage {
        depth: depth + 1,
        ..s
    })
}

// After a row: the clone that it leads to begins.
fn after_row(s: Stage, taken: row::Taken, frames: &mut [u32]) -> Result<Stage, tree::Fault>
    requires { (0 < s.left) × (taken.counts.edges ≤ most_edges) }
    ensures { AfterRow s taken result frames.old frames.new }
{
    let next = Stage {
        counts: taken.counts,
        left: s.left - 1,
        ..s
    };
    match taken.next {
        Some(clone) => begin(next, clone, frames),
        None => Ok(next),
    }
}

// The clone in the top frame takes up its next row, which stands here: 17 where no more may be taken up.
fn take_row(
    room: tree::Room,
    t: words::NodeNo,
    s: Stage,
    f: Frame,
    at: usize,
    nodes: &mut [u32],
    edges: &mut [u32],
    frames: &mut [u32],
) -> Result<Stage, tree::Fault>
    requires { Staged room t.0 s nodes.old edges.old frames.old × (0 < s.depth) × (frame_is f ≡ edge_of (row_at frames.old (s.depth - 1)))
        × NextAt s.counts f.clone.from.0 f.stood f.place edges.old at }
    ensures { Turns room (bounds_of room (length frames.old)) t.0 (turns_left s) (stage_of (bounds_of room (length frames.old)) t.0 s nodes.old edges.old frames.old) result nodes.new edges.new frames.new }
{
    if s.left == 0 {
        return Err(tree::Fault::ManyRows);
    }
    write_frame(
        frames,
        s.depth - 1,
        Frame {
            place: f.place + 1,
            ..f
        },
    );
    let e = rows::read_row(edges, at);
    let taken = row::take_up(room, s.counts, t, f.clone, e, nodes, edges)?;
    after_row(s, taken, frames)
}

// The clone in the top frame takes up its next row, or is done.
fn turn(
    room: tree::Room,
    t: words::NodeNo,
    s: Stage,
    nodes: &mut [u32],
    edges: &mut [u32],
    frames: &mut [u32],
) -> Result<Stage, tree::Fault>
    requires { Staged room t.0 s nodes.old edges.old frames.old × (0 < s.depth) }
    ensures { Turns room (bounds_of room (length frames.old)) t.0 (turns_left s) (stage_of (bounds_of room (length frames.old)) t.0 s nodes.old edges.old frames.old) result nodes.new edges.new frames.new }
{
    let top = s.depth - 1;
    let f = read_frame(frames, top);
    let counts = s.counts;
    let from = f.clone.from;
    let Some(at) = copy::next_row(counts, from, f.stood, f.place, edges) else {
        return Ok(Stage { depth: top, ..s });
    };
    take_row(room, t, s, f, at, nodes, edges, frames)
}

// Turn after turn, until no clone is left.
fn run(
    room: tree::Room,
    t: words::NodeNo,
    start: Stage,
    nodes: &mut [u32],
    edges: &mut [u32],
    frames: &mut [u32],
) -> Result<tree::Counts, tree::Fault>
    requires { Staged room t.0 start nodes.old edges.old frames.old }
    ensures { Meets room (stage_of (bounds_of room (length frames.old)) t.0 start nodes.old edges.old frames.old) result nodes.new edges.new }
{
    let mut s = start;
    while 0 < s.depth {
        s = turn(room, t, s, nodes, edges, frames)?;
    }
    Ok(s.counts)
}

// A node is cloned to another; `t` is the shadow's node.
pub fn clone_branches(
    room: tree::Room,
    c: tree::Counts,
    t: words::NodeNo,
    clone: row::Cloning,
    nodes: &mut [u32],
    edges: &mut [u32],
    frames: &mut [u32],
) -> Result<tree::Counts, tree::Fault>
    requires { Stands room c nodes.old edges.old × (room.edges ≤ most_edges) × (t.0 < c.nodes) × (clone.to.0 < c.nodes) }
    ensures { Meets room (clone_branches (bounds_of room (length frames.old)) t.0 (cloning_of clone) (grown_of c nodes.old edges.old))
        result nodes.new edges.new }
{
    let first = Stage {
        counts: c,
        depth: 0,
        left: words::MOST_TAKEN,
    };
    let s = begin(first, clone, frames)?;
    run(room, t, s, nodes, edges, frames)
}
