// Garden paths: the commands that are run after the rules, and the whole build.
#![tactic(auto)]

pub mod clones;
pub mod copy;
pub mod lists;
pub mod path;
pub mod row;

ghost use Rattle.std.specs.Prelude.{◌≡◌, true, ◌≤◌, ◌<◌, length, get_or};
ghost use Rattle.words.specs.Limits.{most_edges};
ghost use Rattle.rules.specs.Rules.{the_rules};
ghost use Rattle.rules.specs.Code.{some_rules};
ghost use Rattle.tree.specs.Code.{grown_of, Within, Stands, Meets, Grows};
ghost use Rattle.garden.specs.Garden.{good_pairs, command_of, the_commands, handle_command, handle_commands, tend, build};
ghost use Rattle.garden.specs.Code.{bounds_of, command_is, CommandIn, Commands, Handles};

// A command: the conversions, or a path with its prefix and its shadow.
#[derive(Clone, Copy)]
pub enum Command<'a> {
    Conversions,
    Path(&'a [u32], &'a [u32]),
}

// Whether words are pairs, each of a kind that there is and a symbol.
fn good_pairs(ws: &[u32]) -> bool
    ensures { result ≡ good_pairs ws.now }
{
    let mut rest = ws;
    while let [kind, symbol, after @ ..] = rest {
        if 1 < *kind || !rules::symbol(*symbol) {
            return false;
        }
        rest = after;
    }
    rest.is_empty()
}

// The path that stands first, and the words after it.
fn path_of(ws: &[u32]) -> Option<(Command<'_>, &[u32])>
    requires { get_or ws.now 0 0 ≡ 1 }
    ensures { Commands ws.now result }
{
    let [_, p, s, words @ ..] = ws else {
        return None;
    };
    let p = 2 * (*p as usize);
    let s = 2 * (*s as usize);
    if words.len() < p + s {
        return None;
    }
    let (prefix, rest) = words.split_at(p);
    let (shadow, after) = rest.split_at(s);
    if good_pairs(prefix) && good_pairs(shadow) {
        return Some((Command::Path(prefix, shadow), after));
    }
    None
}

// The command that stands first, and the words after it.
fn command_of(ws: &[u32]) -> Option<(Command<'_>, &[u32])>
    requires { 0 < length ws.now }
    ensures { Commands ws.now result }
{
    match ws[0] {
        1 => path_of(ws),
        2 => Some((Command::Conversions, &ws[1..])),
        _ => None,
    }
}

fn handle_command(
    room: tree::Room,
    c: tree::Counts,
    rules: &[u32],
    command: Command<'_>,
    nodes: &mut [u32],
    edges: &mut [u32],
    frames: &mut [u32],
) -> Result<tree::Counts, tree::Fault>
    requires { Stands room c nodes.old edges.old × (room.edges ≤ most_edges) × (some_rules rules.now ≡ true) × CommandIn command }
    ensures { Meets room (handle_command (bounds_of room (length frames.old)) (the_rules rules.now) (command_is command.entry)
        (grown_of c nodes.old edges.old))
        result nodes.new edges.new }
{
    match command {
        Command::Conversions => tree::convert::convert_all(room, c, rules, nodes, edges),
        Command::Path(prefix, shadow) => {
            path::handle_common_prefixes(room, c, prefix, shadow, nodes, edges, frames)
        }
    }
}

// Every command, in order, and whether one of them was the conversions.
fn handle_commands(
    room: tree::Room,
    start: tree::Counts,
    rules: &[u32],
    commands: &[u32],
    nodes: &mut [u32],
    edges: &mut [u32],
    frames: &mut [u32],
) -> Result<(tree::Counts, bool), tree::Fault>
    requires { Stands room start nodes.old edges.old × (room.edges ≤ most_edges) × (some_rules rules.now ≡ true) }
    ensures { Handles room (the_commands commands.now)
        (handle_commands (bounds_of room (length frames.old)) (the_rules rules.now) (the_commands commands.now)
        (grown_of start nodes.old edges.old))
        result nodes.new edges.new }
{
    let mut c = start;
    let mut asked = false;
    let mut rest = commands;
    while !rest.is_empty() {
        let Some((command, after)) = command_of(rest) else {
            return Err(tree::Fault::BadCopy);
        };
        c = handle_command(room, c, rules, command, nodes, edges, frames)?;
        asked |= rest[0] == 2;
        rest = after;
    }
    Ok((c, asked))
}

// The commands, and then the conversions if none of them was those.
fn tend(
    room: tree::Room,
    c: tree::Counts,
    rules: &[u32],
    commands: &[u32],
    nodes: &mut [u32],
    edges: &mut [u32],
    frames: &mut [u32],
) -> Result<tree::Counts, tree::Fault>
    requires { Stands room c nodes.old edges.old × (room.edges ≤ most_edges) × (some_rules rules.now ≡ true) }
    ensures { Meets room (tend (bounds_of room (length frames.old)) (the_rules rules.now) (the_commands commands.now)
        (grown_of c nodes.old edges.old))
        result nodes.new edges.new }
{
    let (d, asked) = handle_commands(room, c, rules, commands, nodes, edges, frames)?;
    if asked {
        return Ok(d);
    }
    tree::convert::convert_all(room, d, rules, nodes, edges)
}

// The rules, and then the commands.
fn grow(
    rules: &[u32],
    commands: &[u32],
    room: tree::Room,
    nodes: &mut [u32],
    edges: &mut [u32],
    frames: &mut [u32],
) -> Result<tree::Counts, tree::Fault>
    requires { (some_rules rules.now ≡ true) × Within room nodes.old edges.old × (room.edges ≤ most_edges) }
    ensures { Meets room (build (bounds_of room (length frames.old)) (the_rules rules.now) (the_commands commands.now))
        result nodes.new edges.new }
{
    let c = tree::plant(rules, room, nodes, edges)?;
    tend(room, c, rules, commands, nodes, edges, frames)
}

// The tree of the rules and commands, in two slices with so much room, with a slice of frames for clones.
pub fn build(
    rules: &[u32],
    commands: &[u32],
    room: tree::Room,
    nodes: &mut [u32],
    edges: &mut [u32],
    frames: &mut [u32],
) -> Result<tree::Counts, tree::Fault>
    requires { (some_rules rules.now ≡ true) × Within room nodes.old edges.old × (room.edges ≤ most_edges) }
    ensures { Grows room (build (bounds_of room (length frames.old)) (the_rules rules.now) (the_commands commands.now))
        result nodes.new edges.new }
{
    let grew = grow(rules, commands, room, nodes, edges, frames);
    tree::finish(grew, edges)
}
