// Edges that are followed. The answer of a large function is taken by a local before it is returned, here and in a pass at a leaf. Without that it is
// written where the caller's own answers go, which then lie in memory too, and a pass waits for them.
ghost use Rattle.std.specs.Prelude.{◌≡◌, ◌/◌, ◌≤◌, ◌<◌, length};
ghost use Rattle.words.specs.Limits.{row_width, most_reduces};
ghost use Rattle.rows.specs.Rows.{edge_of};
ghost use Rattle.rows.specs.Code.{row_at};
ghost use Rattle.formula.specs.Code.{Inside};
ghost use Rattle.walk.specs.Code.{Follows, Steps, Roots};

use super::{At, Grammar, ROOT, Stand, Step, Why};

// The edge in this row is followed, its reduces first. It is large, and few passes need it: it stays out of its callers, so that what they hold
// is in registers.
#[inline(never)]
fn follow_reducing(
    g: &Grammar,
    row: usize,
    p: Stand,
    list: &mut [u32],
    work: &mut [u32],
) -> Result<Step, Why>
    requires { (row < length g.now.edges.now / row_width) × (length (edge_of (row_at g.now.edges.now row)).reduces ≤ most_reduces)
        × Inside p.room p.at.trees list.old work.old }
    ensures { Follows g.now.book.rules.now p.room (edge_of (row_at g.now.edges.now row)) p.at list.old work.old
        result list.new work.new }
{
    let e = rows::read_row(g.edges, row);
    let reduced = formula::reduce_all(&g.book, p.room, list, work, p.at.trees, e)?;
    Ok(Step::On(At {
        node: e.to,
        trees: reduced,
        ..p.at
    }))
}

// The edge in this row is followed. Most edges have no reduces: such a row is not read whole, and where it leads is found in line.
#[inline(always)]
pub fn follow(
    g: &Grammar,
    row: usize,
    p: Stand,
    list: &mut [u32],
    work: &mut [u32],
) -> Result<Step, Why>
    requires { (row < length g.now.edges.now / row_width) × (length (edge_of (row_at g.now.edges.now row)).reduces ≤ most_reduces)
        × Inside p.room p.at.trees list.old work.old }
    ensures { Follows g.now.book.rules.now p.room (edge_of (row_at g.now.edges.now row)) p.at list.old work.old
        result list.new work.new }
{
    if rows::has_reduces(g.edges, row) {
        let followed = follow_reducing(g, row, p, list, work);
        return followed;
    }
    Ok(Step::On(At {
        node: rows::end_of(g.edges, row),
        ..p.at
    }))
}

// The key of node `from`'s variable edge for `t`.
pub fn slot_key(from: words::NodeNo, t: words::SymbolNo) -> rows::Key
    ensures { result ≡ record { from = from; kind = 1; symbol = t } }
{
    rows::Key {
        from,
        kind: 1,
        symbol: t,
    }
}

// The variable edge of node `from` for `t` is followed; none, no rule goes on.
pub fn step(
    g: &Grammar,
    from: words::NodeNo,
    t: words::SymbolNo,
    p: Stand,
    list: &mut [u32],
    work: &mut [u32],
) -> Result<Step, Why>
    requires { Inside p.room p.at.trees list.old work.old }
    ensures { Steps g.now.book.rules.now g.now.edges.now p.room from.0 t.0 p.at list.old work.old
        result list.new work.new }
{
    match rows::row_of(g.edges, g.firsts, slot_key(from, t)) {
        Some(row) => follow(g, row, p, list, work),
        None => Err(Why::Unparseable(p.at.last)),
    }
}

// Root step: node 0's variable edge for `t` is followed.
pub fn root_step(
    g: &Grammar,
    t: words::SymbolNo,
    p: Stand,
    list: &mut [u32],
    work: &mut [u32],
) -> Result<Step, Why>
    requires { Inside p.room p.at.trees list.old work.old }
    ensures { Roots g.now.book.rules.now g.now.edges.now p.room t.0 p.at list.old work.old
        result list.new work.new }
{
    step(g, ROOT, t, p, list, work)
}
