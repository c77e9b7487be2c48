// Rules and tables that have passed their checks.
ghost use Rattle.std.specs.Prelude.{◌≡◌, true, length};
ghost use Rattle.rules.specs.Rules.{the_rules, rules_good};
ghost use Rattle.rows.specs.Rows.{tables_good};

use words::Refusal;

// With indexes of both, which may be empty.
#[derive(Clone, Copy)]
pub struct Ground<'a> {
    pub codes: rules::Codes,
    pub grammar: walk::Grammar<'a>,
    ghost rules: { rules_good codes.provable.0 codes.logic.0 grammar.book.rules.now ≡ true },
    ghost tables: { tables_good (length (the_rules grammar.book.rules.now)) grammar.nodes.now grammar.edges.now ≡ true },
}

impl<'a> Ground<'a> {
    ghost use Rattle.std.specs.Prelude.{IfOk};
    ghost use Rattle.words.specs.Outcome.{first_fault};
    ghost use Rattle.words.specs.Code.{number_of};
    ghost use Rattle.desk.specs.Entry.{ground_demands};
    ghost use Rattle.desk.specs.Code.{Over};

    // These rules and tables, if they pass. One statement is not worth an index.
    pub fn new(
        codes: rules::Codes,
        rules: &'a [u32],
        nodes: &'a [u32],
        edges: &'a [u32],
    ) -> Result<Ground<'a>, Refusal>
        ensures number { number_of result ≡ first_fault (ground_demands codes.provable.0 codes.logic.0 rules.now nodes.now edges.now) }
        ensures same { IfOk result (λ g. Over g codes rules.now nodes.now edges.now) }
    {
        if !rules::rules_good(rules, codes) {
            return Err(Refusal::BadRules);
        }
        if !rows::tables_good(rules::count(rules), nodes, edges) {
            return Err(Refusal::BadTables);
        }
        let book = formula::RuleBook { rules, starts: &[] };
        let grammar = walk::Grammar::new(book, nodes, edges, &[], &[]);
        Ok(Ground { codes, grammar })
    }
}
