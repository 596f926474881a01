//! The tokens of a text, judged one after another.
ghost use Rattle.std.specs.Prelude.{◌≡◌, ◌++◌, ◌∷◌, [], false, IfOk, OnErr, OnOk, IsTrue, if◌then◌else◌};
ghost use Rattle.sh_token_grammar.specs.Shell.{complete, substitution};
ghost use Rattle.sh_parse_commands.specs.Levels.{open_compounds};
ghost use Rattle.sh_parse_commands.specs.Judging.{none_of, with_input, takes, open_in, is_none, are_whole, with_body, bodies_behind, with_bodies, tree_by, tree_where};
ghost use Rattle.sh_parse_commands.specs.Replacing.{behind_value, may_name_command};

use sh_aliases::Alias;
use sh_base::sequence::Sequence;
use sh_base::shared::Shared;
use sh_grammar::{Recognizer, Token as Input};
use sh_parse_actions::backward::Backward;
use sh_parse_actions::leaf::Leaf;
use sh_parse_words::syntax_tree;
use sh_syntax::tree::{CompoundList, Parts};
use sh_token_grammar::class::TokenClass;
use sh_token_grammar::grammar::{complete_command, substituted};
use sh_token_grammar::levels::{keep_open_compounds, open_compounds};
use std::alloc::{AllocError, Global};
use std::marker::Model;

/// Tokens that the grammar has taken, what each of them is to the tree, and the bodies of here-documents so
/// far.
#[derive(Drop)]
pub struct Prefix {
    alloc: Global,
    recognizer: Recognizer<'static>,
    leaves: Vec<Leaf>,
    bodies: Vec<Shared<Parts>>,
    /// An alias whose value ends in a blank was replaced, and no token has come since.
    is_behind_blank: bool,
}

impl Model for Prefix {
    ghost use Rattle.std.specs.Coded.{codes};
    ghost use Rattle.sh_parse_commands.specs.Judging.{IsShell, Judged};
    ghost use Rattle.sh_syntax.specs.contracts.tree.Parts as parts_row;
    ghost use Rattle.sh_syntax.specs.contracts.tree.Word as word_row;

    ghost Value = { Judged };

    ghost coded = { Prim.hlevel (codes, parts_row.the_row.coded, word_row.the_row.coded) };

    ghost view = { λ f. record { grammar = f.recognizer.grammar; tokens = f.recognizer.tokens; leaves = f.leaves.items; bodies = f.bodies.items; is_behind_blank = f.is_behind_blank } };

    ghost invariant = { λ f. IsShell f.recognizer.grammar };
}

impl Prefix {
    /// A complete command (XCU 2.10.2) without tokens yet. The only error is want of memory.
    pub fn of_command(alloc: Global) -> Result<Self, AllocError>
        ensures { IfOk result (λ prefix. prefix ≡ none_of complete) }
    {
        let mut recognizer = Recognizer::new(alloc, complete_command())?;
        keep_open_compounds(&mut recognizer);
        Ok(Prefix {
            alloc,
            recognizer,
            leaves: Vec::new(alloc),
            bodies: Vec::new(alloc),
            is_behind_blank: false,
        })
    }

    /// The text of a command substitution (XCU 2.6.3) without tokens yet. The only error is want of memory.
    pub fn of_substitution(alloc: Global) -> Result<Self, AllocError>
        ensures { IfOk result (λ prefix. prefix ≡ none_of substitution) }
    {
        let mut recognizer = Recognizer::new(alloc, substituted())?;
        keep_open_compounds(&mut recognizer);
        Ok(Prefix {
            alloc,
            recognizer,
            leaves: Vec::new(alloc),
            bodies: Vec::new(alloc),
            is_behind_blank: false,
        })
    }

    /// Shows a token to the grammar, which takes it (`true`) or refuses it (`false`). After a refusal, or
    /// want of memory, the value is as it was.
    pub(crate) fn show(&mut self, input: Input) -> Result<bool, AllocError>
        ensures taken { IfOk result (λ taken. taken ≡ takes (with_input self.old input)) }
        ensures with { IfOk result (λ taken. IsTrue taken → self.new ≡ with_input self.old input) }
        ensures kept { OnErr result (self.new ≡ self.old) }
        ensures refused { IfOk result (λ taken. taken ≡ false → self.new ≡ self.old) }
    {
        let taken = self.recognizer.take(input)?;
        Ok(taken)
    }

    /// How many compound commands (XCU 2.9.4) are open after the last token. Takes no memory.
    pub fn open(&self) -> usize
        ensures { result ≡ open_in self.now }
    {
        open_in(&self.recognizer)
    }

    /// Adds the leaf of the last token, and the bodies after this token.
    pub(crate) fn put(&mut self, leaf: Leaf, bodies: Vec<Shared<Parts>>) -> Result<(), AllocError>
        ensures { OnOk result
            (self.new ≡ record self.old
            { leaves = self.old.leaves ++ leaf ∷ []; bodies = self.old.bodies ++ bodies.items; is_behind_blank = false }) }
    {
        self.leaves.push(leaf)?;
        put_all(&mut self.bodies, bodies)?;
        self.is_behind_blank = false;
        Ok(())
    }

    /// Whether the name of a command may come next, so that an alias is replaced (XCU 2.3.1). Takes no memory.
    pub(crate) fn may_name_command(&self) -> bool
        ensures { result ≡ may_name_command self.now }
    {
        self.recognizer.accepts(TokenClass::CommandName.number())
    }

    /// Whether an alias whose value ends in a blank was replaced, and no token has come since. Takes no memory.
    pub(crate) fn is_behind_blank(&self) -> bool
        ensures { result ≡ self.now.is_behind_blank }
    {
        self.is_behind_blank
    }

    /// The tokens of an alias's value are over. Takes no memory.
    pub(crate) fn end_value(&mut self, alias: &Alias)
        ensures { self.new ≡ behind_value alias.now self.old }
    {
        self.is_behind_blank = self.is_behind_blank || alias.ends_in_blank();
    }

    /// Adds bodies of here-documents after the others. The only error is want of memory; after it any number
    /// of them may have been added.
    pub fn put_bodies(&mut self, bodies: Vec<Shared<Parts>>) -> Result<(), AllocError>
        ensures { OnOk result
            (self.new ≡ record self.old { bodies = self.old.bodies ++ bodies.items }) }
    {
        put_all(&mut self.bodies, bodies)
    }

    /// Whether there is no token yet. Takes no memory.
    pub fn is_none(&self) -> bool
        ensures { result ≡ is_none self.now }
    {
        self.leaves.is_empty()
    }

    /// Whether the tokens are a whole text. Takes no memory.
    pub fn is_whole(&self) -> bool
        ensures { result ≡ are_whole self.now }
    {
        self.recognizer.may_end()
    }

    /// The syntax tree of the tokens, or `None` where they are no whole text. The only error is want of memory.
    pub fn into_tree(self) -> Result<Option<CompoundList>, AllocError>
        ensures { IfOk result (λ tree. tree ≡ tree_where self) }
    {
        let Prefix {
            alloc,
            recognizer,
            leaves,
            bodies,
            ..
        } = self;
        let Some(actions) = recognizer.finish()? else {
            return Ok(None);
        };
        let leaves = fill(alloc, leaves, bodies)?;
        let tree = syntax_tree(alloc, actions.as_slice(), leaves)?;
        match tree {
            Some(tree) => Ok(Some(tree)),
            None => Ok(Some(CompoundList {
                items: Sequence::new(alloc),
            })),
        }
    }
}

/// How many compound commands are open after the tokens.
#[tactic(auto, unfolding(crate::specs::Levels::open_compounds))]
fn open_in(recognizer: &Recognizer) -> usize
    ensures { result ≡ open_compounds recognizer.now.grammar recognizer.now.tokens }
{
    open_compounds(recognizer)
}

/// Adds bodies after others.
fn put_all(bodies: &mut Vec<Shared<Parts>>, others: Vec<Shared<Parts>>) -> Result<(), AllocError>
    ensures { OnOk result (bodies.new.items ≡ bodies.old.items ++ others.items) }
{
    let mut rest = in_order(others);
    loop {
        let Some((body, behind)) = rest.split_first() else {
            return Ok(());
        };
        bodies.push(body)?;
        rest = behind;
    }
}

/// The items in their order.
fn in_order<T>(items: Vec<T>) -> Backward<T>
    ensures { result ≡ items.items }
{
    let mut items = items;
    items.reverse();
    Backward::from_last(items)
}

/// Gives the next body to a here-document.
fn fill_leaf(
    alloc: Global,
    leaf: Leaf,
    bodies: Backward<Shared<Parts>>,
) -> (Leaf, Backward<Shared<Parts>>)
    ensures leaf { result.0 ≡ with_body leaf bodies }
    ensures bodies { result.1 ≡ bodies_behind leaf bodies }
{
    let Leaf::HereDocument { operator, body } = leaf else {
        return (leaf, bodies);
    };
    match bodies.split_first() {
        Some((next, others)) => (
            Leaf::HereDocument {
                operator,
                body: next,
            },
            others,
        ),
        None => (Leaf::HereDocument { operator, body }, Backward::new(alloc)),
    }
}

/// Gives the n-th body to the n-th here-document.
fn fill(
    alloc: Global,
    leaves: Vec<Leaf>,
    bodies: Vec<Shared<Parts>>,
) -> Result<Vec<Leaf>, AllocError>
    ensures { IfOk result (λ all. all.items ≡ with_bodies leaves.items bodies.items) }
{
    let mut all = Vec::new(alloc);
    let mut rest = in_order(leaves);
    let mut left = in_order(bodies);
    loop {
        let Some((leaf, others)) = rest.split_first() else {
            return Ok(all);
        };
        let (leaf, behind) = fill_leaf(alloc, leaf, left);
        all.push(leaf)?;
        rest = others;
        left = behind;
    }
}
