// Rules as a slice of words: the rule check, where a rule starts, and what stands there.
#![tactic(auto)]

ghost use Rattle.std.specs.Prelude.{◌≡◌, true, not, ltb, ◌&&◌, ◌+◌, ◌*◌, ◌≤◌, ◌<◌, length, drop};
ghost use Rattle.std.proofs.Math.Option.{some};
ghost use Rattle.std.proofs.Math.ListN.{get_elem?};
ghost use Rattle.words.specs.Limits.{most_items, most_rules};
ghost use Rattle.rules.specs.Rules.{item_width, size_of, rest_of, body_words, items_of, variables, the_rules, rule_of, slots, source, symbol, third, good_items, absent, distinct, good_body, good_head, equal_ends, good_rule, good_rules, rules_good, cut};
ghost use Rattle.rules.specs.Code.{marked, a_rule, some_rules, Starts, Found, Indexed, Ruled, item_is, source_of, stretch_of, body_in, PartOf};

mod order;

pub use order::{Rules, each};

// The words of an item: its kind, its symbol and its variable.
pub const ITEM_WIDTH: usize = 3;

// More than a rule has slots. An index word is where its rule starts, times this, and how many slots it has.
const MARK: u32 = 64;

// The two typecodes that come with the rules.
#[derive(Clone, Copy)]
pub struct Codes {
    pub provable: words::SymbolNo,
    pub logic: words::SymbolNo,
}

// One place of a body.
#[derive(Clone, Copy)]
pub enum Item {
    Con(words::SymbolNo),
    Slot(words::SymbolNo),
}

// A part of the rule slice.
#[repr(C)]
#[derive(Clone, Copy)]
pub struct Stretch {
    pub start: u32,
    pub length: u32,
}

// ---- the rule check

// Whether a word is a symbol, a typecode or a variable.
#[tactic(auto, unfolding(crate::specs::Rules::symbol))]
pub fn symbol(x: u32) -> bool
    ensures { result ≡ symbol x }
{
    1 <= x && x <= words::MOST_SYMBOL
}

// Whether an item of this kind may have this third word: a slot has a variable, a constant has none.
#[tactic(auto, unfolding(crate::specs::Rules::third))]
fn third(kind: u32, variable: u32) -> bool
    ensures { result ≡ third kind variable }
{
    if kind == 0 {
        variable == 0
    } else {
        symbol(variable)
    }
}

// Whether an item may have these three words.
fn good_item(kind: u32, name: u32, variable: u32) -> bool
    ensures { result ≡ not (ltb 1 kind) && symbol name && third kind variable }
{
    kind <= 1 && symbol(name) && third(kind, variable)
}

// Whether a body is whole items, each of a kind that there is, with a symbol and with a variable if it is a slot.
fn good_items(body: &[u32]) -> bool
    ensures { result ≡ good_items body.now }
{
    let mut rest = body;
    while let Some(([kind, name, variable], others)) = rest.split_first_chunk::<ITEM_WIDTH>() {
        if !good_item(*kind, *name, *variable) {
            return false;
        }
        rest = others;
    }
    rest.is_empty()
}

// Whether no slot among these items has this variable. A constant's third word is 0, so it is none.
fn absent(items: &[u32], variable: u32) -> bool
    requires { (good_items items.now ≡ true) × (symbol variable ≡ true) }
    ensures { result ≡ absent variable (variables items.now) }
{
    let mut rest = items;
    while let Some(([_, _, other], others)) = rest.split_first_chunk::<ITEM_WIDTH>() {
        if *other == variable {
            return false;
        }
        rest = others;
    }
    true
}

// Whether no variable stands in two slots.
fn distinct(items: &[u32]) -> bool
    requires { good_items items.now ≡ true }
    ensures { result ≡ distinct (variables items.now) }
{
    let mut rest = items;
    while let Some(([kind, _, variable], others)) = rest.split_first_chunk::<ITEM_WIDTH>() {
        if *kind == 1 && !absent(others, *variable) {
            return false;
        }
        rest = others;
    }
    true
}

// Whether a body's items are good and no two slots have one variable.
#[tactic(auto, unfolding(crate::specs::Rules::good_body))]
fn good_body(body: &[u32]) -> bool
    ensures { result ≡ good_body body.now }
{
    good_items(body) && distinct(body)
}

// Whether a rule may have this result and so many items.
#[tactic(auto, unfolding(crate::specs::Rules::good_head))]
fn good_head(provable: words::SymbolNo, res: words::SymbolNo, items: u32) -> bool
    ensures { result ≡ good_head provable.0 res.0 items }
{
    res != provable && symbol(res.0) && 1 <= items && items <= words::MOST_ITEMS
}

// The words of the rule that stands first.
pub fn size_of(s: &[u32]) -> usize
    requires { 1 < length s.now }
    ensures { result ≡ size_of s.now }
{
    2 + ITEM_WIDTH * (s[1] as usize)
}

// What stands after the rule that stands first.
#[tactic(auto, using(crate::proofs::Tail::whole_first))]
pub fn rest_of(s: &[u32]) -> &[u32]
    requires { a_rule s.now ≡ true }
    ensures { result.now ≡ rest_of s.now }
{
    &s[size_of(s)..]
}

// Whether the rule that stands first turns a typecode into itself.
#[tactic(auto, unfolding(crate::specs::Rules::equal_ends))]
fn equal_ends(s: &[u32]) -> bool
    requires { (1 < length s.now) × (size_of s.now ≤ length s.now) }
    ensures { result ≡ equal_ends s.now }
{
    s[1] == 1 && s[2] == 1 && s[3] == s[0]
}

// Whether a good rule stands first.
#[tactic(auto, unfolding(crate::specs::Rules::good_rule))]
fn good_rule(s: &[u32], provable: words::SymbolNo) -> bool
    ensures { result ≡ good_rule provable.0 s.now }
{
    if s.len() < 2 || !good_head(provable, words::SymbolNo(s[0]), s[1]) {
        return false;
    }
    let size = size_of(s);
    size <= s.len() && good_body(&s[2..size]) && !equal_ends(s)
}

// Whether the words are good rules, not too many of them, and no word is left over.
fn good_rules(rules: &[u32], provable: words::SymbolNo) -> bool
    ensures { result ≡ good_rules provable.0 most_rules rules.now }
{
    let mut rest = rules;
    let mut left = words::MOST_RULES;
    while !rest.is_empty() {
        if left == 0 {
            return false;
        }
        if !good_rule(rest, provable) {
            return false;
        }
        rest = rest_of(rest);
        left -= 1;
    }
    true
}

// Whether rules and typecodes are good.
#[tactic(auto, unfolding(crate::specs::Rules::rules_good))]
pub fn rules_good(rules: &[u32], codes: Codes) -> bool
    ensures { result ≡ rules_good codes.provable.0 codes.logic.0 rules.now }
{
    let Codes { provable, logic } = codes;
    provable != logic && symbol(provable.0) && symbol(logic.0) && good_rules(rules, provable)
}

// ---- rules by number

// How many rules there are.
pub fn count(rules: &[u32]) -> u32
    requires { some_rules rules.now ≡ true }
    ensures { result ≡ length (the_rules rules.now) }
{
    each(rules).count() as u32
}

// Where rule `no` starts, reached by stepping over those before it. The word is what is asked for, so words are counted here.
fn step_to(rules: &[u32], no: words::RuleNo) -> Option<usize>
    requires { some_rules rules.now ≡ true }
    ensures { Found rules.now no.0 result }
{
    let wanted = no.0;
    let mut n: u32 = 0;
    let mut i = 0;
    while i < rules.len() {
        n += 1;
        if n == wanted {
            return Some(i);
        }
        i += size_of(&rules[i..]);
    }
    None
}

// The index word of rule `no`, if the index has one.
fn marked(starts: &[u32], no: words::RuleNo) -> Option<u32>
    ensures { result ≡ marked starts.now no.0 }
{
    let k = (no.0 as usize).checked_sub(1)?;
    starts.get(k).copied()
}

// Where rule `no` starts: as the index says, and stepped to where the index has no such rule.
pub fn find_rule(rules: &[u32], starts: &[u32], no: words::RuleNo) -> Option<usize>
    requires { Ruled rules.now starts.now }
    ensures { Found rules.now no.0 result }
{
    match marked(starts, no) {
        Some(mark) => Some((mark / MARK) as usize),
        None => step_to(rules, no),
    }
}

// The slots of rule `no`, which starts at word `i`.
pub fn slots_at(rules: &[u32], starts: &[u32], no: words::RuleNo, i: usize) -> u32
    requires { Ruled rules.now starts.now × Starts rules.now no.0 i }
    ensures { result ≡ slots (rule_of (drop i rules.now)).body }
{
    match marked(starts, no) {
        Some(mark) => mark % MARK,
        None => slots_of(&rules[i..]),
    }
}

// The index of the rules, one word for each.
pub fn index_rules(rules: &[u32], starts: &mut [u32])
    requires { (some_rules rules.now ≡ true) × (length starts.old ≡ length (the_rules rules.now)) }
    ensures { Indexed rules.now starts.new × (length starts.new ≡ length starts.old) }
{
    let mut at = 0;
    for mark in starts {
        let rule = &rules[at..];
        *mark = (at as u32) * MARK + slots_of(rule);
        at += size_of(rule);
    }
}

// ---- the items of a body

// How many there are.
pub fn items_in(body: &[u32]) -> usize
    ensures { result ≡ length (items_of body.now) }
{
    body.len() / ITEM_WIDTH
}

// Item number `k`, from 0.
pub fn item_in(body: &[u32], k: usize) -> Item
    requires { k < length (items_of body.now) }
    ensures { get_elem? (items_of body.now) k ≡ some (item_is result) }
{
    let at = ITEM_WIDTH * k;
    let symbol = words::SymbolNo(body[at + 1]);
    if body[at] == 0 {
        Item::Con(symbol)
    } else {
        Item::Slot(symbol)
    }
}

// The slots among them.
fn slots_in(body: &[u32]) -> u32
    requires { (good_items body.now ≡ true) × (length body.now ≤ item_width * most_items) }
    ensures { result ≡ slots (items_of body.now) }
{
    let mut n = 0;
    let mut rest = body;
    while let Some(([kind, _, _], others)) = rest.split_first_chunk::<ITEM_WIDTH>() {
        if *kind == 1 {
            n += 1;
        }
        rest = others;
    }
    n
}

// ---- the rule that stands first in a slice

pub fn result_of(s: &[u32]) -> words::SymbolNo
    requires { a_rule s.now ≡ true }
    ensures { result.0 ≡ (rule_of s.now).result }
{
    words::SymbolNo(s[0])
}

// The body's words, as a part of the slice.
pub fn body_of(s: &[u32]) -> &[u32]
    requires { a_rule s.now ≡ true }
    ensures { result.now ≡ body_words s.now }
{
    let size = size_of(s);
    &s[2..size]
}

pub fn slots_of(s: &[u32]) -> u32
    requires { a_rule s.now ≡ true }
    ensures { result ≡ slots (rule_of s.now).body }
{
    let body = body_of(s);
    slots_in(body)
}

// Whether the rule is a conversion, and from where.
pub fn conversion_of(s: &[u32]) -> Option<words::SymbolNo>
    requires { a_rule s.now ≡ true }
    ensures { source_of result ≡ source (rule_of s.now).body }
{
    let [kind, from, _] = body_of(s) else {
        return None;
    };
    if *kind == 1 {
        Some(words::SymbolNo(*from))
    } else {
        None
    }
}

// ---- for callers with any words

// Where the body of rule `no` stands.
pub fn stretch_of(rules: &[u32], codes: Codes, no: words::RuleNo) -> Stretch
    ensures { stretch_of result ≡ body_in codes rules.now no }
{
    if !rules_good(rules, codes) {
        return Stretch {
            start: 0,
            length: 0,
        };
    }
    let Some(i) = step_to(rules, no) else {
        return Stretch {
            start: 0,
            length: 0,
        };
    };
    let size = size_of(&rules[i..]);
    Stretch {
        start: (i + 2) as u32,
        length: (size - 2) as u32,
    }
}

// The body of rule `no`, as that part of the caller's slice.
pub fn body(rules: &[u32], codes: Codes, no: words::RuleNo) -> &[u32]
    ensures { PartOf rules.entry result (body_in codes rules.now no) }
{
    let at = stretch_of(rules, codes, no);
    let a = at.start as usize;
    let e = a + at.length as usize;
    &rules[a..e]
}
