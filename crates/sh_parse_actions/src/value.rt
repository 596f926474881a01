//! The values of the symbols of a derivation.
ghost use Rattle.std.specs.Prelude.{◌≡◌, Some, None, IfOk, IfErr};
ghost use Rattle.sh_parse_actions.specs.Values.{and_or_in, body_in, case_items_in, command_in, commands_in, compound_list_in, else_in, form_in, item_body_in, item_end_in, item_in, items_in, with_child, list_in, leaf_assignment, leaf_in, leaf_name, leaf_number, leaf_target, leaf_word, loop_in, loop_kind, name_in, number_in, parameters_in, patterns_in, pipeline_in, pipelines_in, redirect_in, redirects_in, tail_in, target_in, values_in, word_in};

use crate::backward::Backward;
use crate::kind::Item;
use crate::leaf::Leaf;
use sh_base::sequence::Text;
use sh_base::shared::Shared;
use sh_syntax::tree::{
    AndOr, CaseEnd, CaseItem, Command, Compound, CompoundForm, CompoundList, Connected, ElseIf,
    ListItem, LoopKind, Name, Pipeline, Redirect, Separator, SimpleItem, Target, Word,
};
use sh_token_grammar::class::TokenClass;
use std::alloc::Global;

/// What comes after an AND-OR list: its separator, and the other items of the list that it is in.
#[derive(Drop)]
pub struct Tail {
    pub separator: Separator,
    pub items: Backward<ListItem>,
}

/// What is between the list of an `if` and its `fi`.
#[derive(Drop)]
pub struct ElsePart {
    pub else_ifs: Backward<ElseIf>,
    pub else_body: Option<Shared<CompoundList>>,
}

/// The words of a `for`, and its list.
#[derive(Drop)]
pub struct Values {
    pub words: Backward<Word>,
    pub body: Shared<CompoundList>,
}

/// The list of a `for` without words.
#[derive(Drop)]
pub struct Parameters {
    pub is_separated: bool,
    pub body: Shared<CompoundList>,
}

/// What comes after the list of an item of a `case`: what ends the item, and the items after it.
#[derive(Drop)]
pub struct ItemEnd {
    pub end: CaseEnd,
    pub items: Backward<CaseItem>,
}

/// What comes after the `)` of an item of a `case`.
#[derive(Drop)]
pub struct ItemBody {
    pub body: Shared<CompoundList>,
    pub end: ItemEnd,
}

/// The value of a symbol of a derivation.
#[derive(Drop)]
pub enum Value {
    /// An empty list, no further part, or newlines.
    Nothing,
    /// A token, by its class.
    Token { class: u8, leaf: Leaf },
    Redirect(Redirect),
    Redirects(Backward<Redirect>),
    /// The items of a simple command after one of them.
    Items(Backward<SimpleItem>),
    /// The body of a function.
    Body(Shared<Compound>),
    Command(Shared<Command>),
    /// The further commands of a pipeline.
    Commands(Backward<Shared<Command>>),
    Pipeline(Shared<Pipeline>),
    /// The further pipelines of an AND-OR list.
    Pipelines(Backward<Connected>),
    AndOr(Shared<AndOr>),
    Tail(Tail),
    List(Backward<ListItem>),
    /// A compound list.
    CompoundList(Shared<CompoundList>),
    Form(CompoundForm),
    Else(ElsePart),
    Values(Values),
    Parameters(Parameters),
    /// The further patterns of an item of a case.
    Patterns(Backward<Word>),
    CaseItems(Backward<CaseItem>),
    ItemEnd(ItemEnd),
    ItemBody(ItemBody),
}

/// The values of those symbols of a production that matter: three at most.
#[derive(Drop)]
pub enum Children {
    None,
    One(Value),
    Two(Value, Value),
    Three(Value, Value, Value),
}

impl Children {
    /// The values with one more value before them; `None` where there are three already.
    pub fn with_first(self, first: Value) -> Option<Self>
        ensures { result ≡ with_child first self }
    {
        match self {
            Children::None => Some(Children::One(first)),
            Children::One(a) => Some(Children::Two(first, a)),
            Children::Two(a, b) => Some(Children::Three(first, a, b)),
            Children::Three(a, b, c) => {
                drop(c);
                drop(b);
                drop(a);
                first.discard()
            },
        }
    }

    /// Drops the values, which are more or fewer than the kind asks for.
    pub(crate) fn discard(self) -> Option<Value>
        ensures { result ≡ None }
    {
        match self {
            Children::None => None,
            Children::One(a) => a.discard(),
            Children::Two(a, b) => {
                drop(b);
                a.discard()
            },
            Children::Three(a, b, c) => {
                drop(c);
                drop(b);
                a.discard()
            },
        }
    }
}

impl Leaf {
    fn into_word(self) -> Option<Word>
        ensures { result ≡ leaf_word self }
    {
        match self {
            Leaf::Word(word) => Some(word),
            Leaf::Name { word, .. } => Some(word),
            Leaf::Assignment { word, .. } => Some(word),
            _ => None,
        }
    }

    fn into_name(self) -> Option<Name>
        ensures { result ≡ leaf_name self }
    {
        match self {
            Leaf::Name { word, name } => Some(Name {
                name,
                source: word.source,
            }),
            _ => None,
        }
    }

    fn into_assignment(self) -> Option<SimpleItem>
        ensures { result ≡ leaf_assignment self }
    {
        match self {
            Leaf::Assignment { word, name, value } => Some(SimpleItem::Assignment {
                name,
                value,
                source: word.source,
            }),
            _ => None,
        }
    }

    fn into_number(self) -> Option<Text>
        ensures { result ≡ leaf_number self }
    {
        match self {
            Leaf::Number(digits) => Some(digits),
            _ => None,
        }
    }

    fn into_target(self, word: Word) -> Option<Target>
        ensures { result ≡ leaf_target word self }
    {
        match self {
            Leaf::Redirection(operator) => Some(Target::Named { operator, word }),
            Leaf::HereDocument { operator, body } => Some(Target::Here {
                operator,
                delimiter: word,
                body,
            }),
            _ => None,
        }
    }
}

impl Value {
    /// Drops the value, which has no such part.
    pub(crate) fn discard<T>(self) -> Option<T>
        ensures { result ≡ None }
    {
        drop(self);
        None
    }

    #[tactic(auto, unfolding(crate::specs::Values::leaf_in))]
    fn into_leaf(self) -> Option<Leaf>
        ensures { result ≡ leaf_in self }
    {
        match self {
            Value::Token { leaf, .. } => Some(leaf),
            other => other.discard(),
        }
    }

    #[tactic(auto, unfolding(crate::specs::Values::word_in))]
    pub(crate) fn into_word(self) -> Option<Word>
        ensures { result ≡ word_in self }
    {
        let leaf = self.into_leaf()?;
        leaf.into_word()
    }

    #[tactic(auto, unfolding(crate::specs::Values::name_in))]
    pub(crate) fn into_name(self) -> Option<Name>
        ensures { result ≡ name_in self }
    {
        let leaf = self.into_leaf()?;
        leaf.into_name()
    }

    #[tactic(auto, unfolding(crate::specs::Values::number_in))]
    pub(crate) fn into_number(self) -> Option<Text>
        ensures { result ≡ number_in self }
    {
        let leaf = self.into_leaf()?;
        leaf.into_number()
    }

    #[tactic(auto, unfolding(crate::specs::Values::target_in))]
    pub(crate) fn into_target(self, word: Word) -> Option<Target>
        ensures { result ≡ target_in self word }
    {
        let leaf = self.into_leaf()?;
        leaf.into_target(word)
    }

    #[tactic(auto, unfolding(crate::specs::Values::loop_in))]
    pub(crate) fn into_loop(self) -> Option<LoopKind>
        ensures { result ≡ loop_in self }
    {
        match self {
            Value::Token { class, .. } => loop_kind(class),
            other => other.discard(),
        }
    }

    #[tactic(auto, unfolding(crate::specs::Values::item_in))]
    pub(crate) fn into_item(self, kind: Item) -> Option<SimpleItem>
        ensures { result ≡ item_in kind self }
    {
        match kind {
            Item::Word => {
                let word = self.into_word()?;
                Some(SimpleItem::Word(word))
            },
            Item::Assignment => {
                let leaf = self.into_leaf()?;
                leaf.into_assignment()
            },
            Item::Redirect => {
                let redirect = self.into_redirect()?;
                Some(SimpleItem::Redirect(redirect))
            },
        }
    }

    #[tactic(auto, unfolding(crate::specs::Values::redirect_in))]
    pub(crate) fn into_redirect(self) -> Option<Redirect>
        ensures { result ≡ redirect_in self }
    {
        match self {
            Value::Redirect(x) => Some(x),
            other => other.discard(),
        }
    }

    #[tactic(auto, unfolding(crate::specs::Values::command_in))]
    pub(crate) fn into_command(self) -> Option<Shared<Command>>
        ensures { result ≡ command_in self }
    {
        match self {
            Value::Command(x) => Some(x),
            other => other.discard(),
        }
    }

    #[tactic(auto, unfolding(crate::specs::Values::pipeline_in))]
    pub(crate) fn into_pipeline(self) -> Option<Shared<Pipeline>>
        ensures { result ≡ pipeline_in self }
    {
        match self {
            Value::Pipeline(x) => Some(x),
            other => other.discard(),
        }
    }

    #[tactic(auto, unfolding(crate::specs::Values::and_or_in))]
    pub(crate) fn into_and_or(self) -> Option<Shared<AndOr>>
        ensures { result ≡ and_or_in self }
    {
        match self {
            Value::AndOr(x) => Some(x),
            other => other.discard(),
        }
    }

    #[tactic(auto, unfolding(crate::specs::Values::compound_list_in))]
    pub(crate) fn into_compound_list(self) -> Option<Shared<CompoundList>>
        ensures { result ≡ compound_list_in self }
    {
        match self {
            Value::CompoundList(x) => Some(x),
            other => other.discard(),
        }
    }

    #[tactic(auto, unfolding(crate::specs::Values::form_in))]
    pub(crate) fn into_form(self) -> Option<CompoundForm>
        ensures { result ≡ form_in self }
    {
        match self {
            Value::Form(x) => Some(x),
            other => other.discard(),
        }
    }

    #[tactic(auto, unfolding(crate::specs::Values::values_in))]
    pub(crate) fn into_values(self) -> Option<Values>
        ensures { result ≡ values_in self }
    {
        match self {
            Value::Values(x) => Some(x),
            other => other.discard(),
        }
    }

    #[tactic(auto, unfolding(crate::specs::Values::item_body_in))]
    pub(crate) fn into_item_body(self) -> Option<ItemBody>
        ensures { result ≡ item_body_in self }
    {
        match self {
            Value::ItemBody(x) => Some(x),
            other => other.discard(),
        }
    }

    /// The body of a function; any other value comes back.
    #[tactic(auto, unfolding(crate::specs::Values::body_in))]
    pub(crate) fn into_body(self) -> Result<Shared<Compound>, Value>
        ensures body { IfOk result (λ x. body_in self ≡ Some x) }
        ensures other { IfErr result (λ v. (v ≡ self) × (body_in self ≡ None)) }
    {
        match self {
            Value::Body(x) => Ok(x),
            other => Err(other),
        }
    }

    /// The list of a `for` without words; any other value comes back.
    #[tactic(auto, unfolding(crate::specs::Values::parameters_in))]
    pub(crate) fn into_parameters(self) -> Result<Parameters, Value>
        ensures parameters { IfOk result (λ x. parameters_in self ≡ Some x) }
        ensures other { IfErr result (λ v. (v ≡ self) × (parameters_in self ≡ None)) }
    {
        match self {
            Value::Parameters(x) => Ok(x),
            other => Err(other),
        }
    }

    #[tactic(auto, unfolding(crate::specs::Values::redirects_in))]
    pub(crate) fn into_redirects(self, alloc: Global) -> Option<Backward<Redirect>>
        ensures { result ≡ redirects_in self }
    {
        match self {
            Value::Nothing => Some(Backward::new(alloc)),
            Value::Redirects(xs) => Some(xs),
            other => other.discard(),
        }
    }

    #[tactic(auto, unfolding(crate::specs::Values::items_in))]
    pub(crate) fn into_items(self, alloc: Global) -> Option<Backward<SimpleItem>>
        ensures { result ≡ items_in self }
    {
        match self {
            Value::Nothing => Some(Backward::new(alloc)),
            Value::Items(xs) => Some(xs),
            other => other.discard(),
        }
    }

    #[tactic(auto, unfolding(crate::specs::Values::commands_in))]
    pub(crate) fn into_commands(self, alloc: Global) -> Option<Backward<Shared<Command>>>
        ensures { result ≡ commands_in self }
    {
        match self {
            Value::Nothing => Some(Backward::new(alloc)),
            Value::Commands(xs) => Some(xs),
            other => other.discard(),
        }
    }

    #[tactic(auto, unfolding(crate::specs::Values::pipelines_in))]
    pub(crate) fn into_pipelines(self, alloc: Global) -> Option<Backward<Connected>>
        ensures { result ≡ pipelines_in self }
    {
        match self {
            Value::Nothing => Some(Backward::new(alloc)),
            Value::Pipelines(xs) => Some(xs),
            other => other.discard(),
        }
    }

    /// The items of a list. `Value::Nothing` has no items; a value that is no list gives `None`. Takes no
    /// memory.
    #[tactic(auto, unfolding(crate::specs::Values::list_in))]
    pub fn into_list(self, alloc: Global) -> Option<Backward<ListItem>>
        ensures { result ≡ list_in self }
    {
        match self {
            Value::Nothing => Some(Backward::new(alloc)),
            Value::List(xs) => Some(xs),
            other => other.discard(),
        }
    }

    #[tactic(auto, unfolding(crate::specs::Values::patterns_in))]
    pub(crate) fn into_patterns(self, alloc: Global) -> Option<Backward<Word>>
        ensures { result ≡ patterns_in self }
    {
        match self {
            Value::Nothing => Some(Backward::new(alloc)),
            Value::Patterns(xs) => Some(xs),
            other => other.discard(),
        }
    }

    #[tactic(auto, unfolding(crate::specs::Values::case_items_in))]
    pub(crate) fn into_case_items(self, alloc: Global) -> Option<Backward<CaseItem>>
        ensures { result ≡ case_items_in self }
    {
        match self {
            Value::Nothing => Some(Backward::new(alloc)),
            Value::CaseItems(xs) => Some(xs),
            other => other.discard(),
        }
    }

    #[tactic(auto, unfolding(crate::specs::Values::tail_in))]
    pub(crate) fn into_tail(self, alloc: Global) -> Option<Tail>
        ensures { result ≡ tail_in self }
    {
        match self {
            Value::Nothing => Some(Tail {
                separator: Separator::Sequential,
                items: Backward::new(alloc),
            }),
            Value::Tail(x) => Some(x),
            other => other.discard(),
        }
    }

    #[tactic(auto, unfolding(crate::specs::Values::else_in))]
    pub(crate) fn into_else(self, alloc: Global) -> Option<ElsePart>
        ensures { result ≡ else_in self }
    {
        match self {
            Value::Nothing => Some(ElsePart {
                else_ifs: Backward::new(alloc),
                else_body: None,
            }),
            Value::Else(x) => Some(x),
            other => other.discard(),
        }
    }

    #[tactic(auto, unfolding(crate::specs::Values::item_end_in))]
    pub(crate) fn into_item_end(self, alloc: Global) -> Option<ItemEnd>
        ensures { result ≡ item_end_in self }
    {
        match self {
            Value::Nothing => Some(ItemEnd {
                end: CaseEnd::Omitted,
                items: Backward::new(alloc),
            }),
            Value::ItemEnd(x) => Some(x),
            other => other.discard(),
        }
    }
}

/// How long a loop runs, by the class of its first word.
fn loop_kind(class: u8) -> Option<LoopKind>
    ensures { result ≡ loop_kind class }
{
    if class == TokenClass::While.number() {
        return Some(LoopKind::While);
    }
    if class == TokenClass::Until.number() {
        return Some(LoopKind::Until);
    }
    None
}
