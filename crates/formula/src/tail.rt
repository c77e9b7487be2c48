// The reduces of an edge, with the list's tail moved once: planned on the sizes of the trees, then woven into the list.
ghost use Rattle.std.specs.Prelude.{◌≡◌, [], ◌++◌, ◌+◌, ◌≤◌, ◌<◌, length, map, take, drop};
ghost use Rattle.words.specs.Limits.{most_reduces};
ghost use Rattle.rules.specs.Rules.{the_rules};
ghost use Rattle.rows.specs.Code.{reduce_is};
ghost use Rattle.formula.specs.Reducing.{reduce_all};
ghost use Rattle.formula.specs.Code.{most_room, trees_of, Inside, Gives};
ghost use Rattle.formula.specs.Tail.{put, Rising, woven, plan};
ghost use Rattle.formula.specs.TailCode.{Sized, rank, entries_of, entries_in, Plans};

use super::{RuleBook, Trees, Unfit, sizes};

// As many entries as an edge has reduces.
const MOST: usize = words::MOST_REDUCES as usize;

// A rule, and the words before it in the list as it was.
#[derive(Clone, Copy)]
pub struct Entry {
    pub place: u32,
    pub rule: words::RuleNo,
}

// How many entries stand before one that has `place` words before it, entries among them. The places of the entries are those in the list
// as it was, so each that is passed counts for one word more.
fn rank(entries: &[Entry], place: usize) -> usize
    requires { length entries.now ≤ most_reduces }
    ensures counted { result ≡ rank place (entries_of entries.now) }
    ensures within { (result ≤ place) × (result ≤ length entries.now) }
{
    for (i, e) in entries.iter().enumerate() {
        if place <= (e.place as usize) + i {
            return i;
        }
    }
    entries.len()
}

// An entry more, after the first `n`.
fn put(entries: &mut [Entry], n: usize, place: usize, rule: words::RuleNo)
    requires { (n < length entries.old) × (n < most_reduces) × (place ≤ most_room) }
    ensures { entries_in (n + 1) entries.new ≡ put place rule.0 (entries_in n entries.old) }
{
    let i = rank(&entries[..n], place);
    entries.copy_within(i..n, i + 1);
    entries[i] = Entry {
        place: (place - i) as u32,
        rule,
    };
}

// What an edge's reduces come to on the sizes alone, in order: the first that fails decides. Their entries are left in the slice.
fn plan(
    book: &RuleBook,
    room: usize,
    work: &mut [u32],
    s: Trees,
    reduces: &[rows::Reduce],
    entries: &mut [Entry],
) -> Result<Trees, Unfit>
    requires { Sized room s work.old × (length reduces.now ≤ most_reduces) × (most_reduces ≤ length entries.old) }
    ensures { Plans room (length reduces.now) result work.new entries.new
        (plan (the_rules book.now.rules.now) room (map reduce_is reduces.now) (take s.count work.old) []) }
{
    let mut out = s;
    for (k, d) in reduces.iter().enumerate() {
        let fit = sizes::measure(book, room, work, out, d.rule, d.offset)?;
        put(entries, k, fit.place, d.rule);
        out = Trees {
            count: fit.trees.count,
            len: fit.trees.len,
        };
    }
    Ok(out)
}

// The first `len` words of the list and the entries, put together from the end: what stands behind the last entry left moves up by as many
// words as entries are left.
fn weave(list: &mut [u32], len: usize, entries: &[Entry])
    requires { (len + length entries.now ≤ length list.old) × Rising 0 (entries_of entries.now) len }
    ensures { list.new ≡ woven 0 (entries_of entries.now) (take len list.old) ++ drop (len + length entries.now) list.old }
{
    let mut end = len;
    for last in (0..entries.len()).rev() {
        let e = entries[last];
        let place = e.place as usize;
        words::move_up(list, place, end, last + 1);
        list[place + last] = e.rule.0;
        end = place;
    }
}

// The reduces of an edge, the list's tail moved once for all of them.
pub fn reduce_at_once(
    book: &RuleBook,
    room: usize,
    list: &mut [u32],
    work: &mut [u32],
    s: Trees,
    reduces: &[rows::Reduce],
) -> Result<Trees, Unfit>
    requires { Inside room s list.old work.old × (length reduces.now ≤ most_reduces) }
    ensures { Gives room result list.new work.new
        (reduce_all (the_rules book.now.rules.now) room (map reduce_is reduces.now) (trees_of s list.old work.old)) }
{
    let none = Entry {
        place: 0,
        rule: words::RuleNo(0),
    };
    let mut entries = [none; MOST];
    let t = plan(book, room, work, s, reduces, &mut entries)?;
    weave(list, s.len, &entries[..reduces.len()]);
    Ok(t)
}
