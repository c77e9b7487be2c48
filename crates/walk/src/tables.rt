// The rules and tables that a walk goes by.
ghost use Rattle.rows.specs.Code.{RootRows};
ghost use Rattle.walk.specs.Fit.{Fit, fit_props};

use formula::RuleBook;

// Rules, nodes and rows as words, with the rows' index and the table of node 0's constant edges.
#[derive(Clone, Copy)]
pub struct Grammar<'a> {
    pub book: RuleBook<'a>,
    pub nodes: &'a [u32],
    pub edges: &'a [u32],
    pub firsts: &'a [u32],
    pub roots: &'a [u32],
    ghost fit: { Fit edges.now firsts.now } by { Prim.hlevel fit_props },
    ghost rooted: { RootRows edges.now roots.now },
}

impl<'a> Grammar<'a> {
    ghost use Rattle.std.specs.Prelude.{◌≡◌, true, length};
    ghost use Rattle.rules.specs.Rules.{the_rules};
    ghost use Rattle.rows.specs.Rows.{tables_good};
    ghost use Rattle.rows.specs.Code.{Firsts};

    // Tables that have passed their checks. An index may be empty: it says nothing then.
    pub fn new(
        book: RuleBook<'a>,
        nodes: &'a [u32],
        edges: &'a [u32],
        firsts: &'a [u32],
        roots: &'a [u32],
    ) -> Grammar<'a>
        requires { (tables_good (length (the_rules book.rules.now)) nodes.now edges.now ≡ true) × Firsts edges.now firsts.now × RootRows edges.now roots.now }
        ensures { (result.book ≡ book.entry) × (result.nodes ≡ nodes.entry) × (result.edges ≡ edges.entry) × (result.firsts ≡ firsts.entry) × (result.roots ≡ roots.entry) }
    {
        Grammar {
            book,
            nodes,
            edges,
            firsts,
            roots,
        }
    }
}
