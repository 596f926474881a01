//! The evaluation of a derivation: its steps in order, over stacks of values, operators and names.
ghost use Rattle.sh_base.specs.Memory.{no_memory};
ghost use Rattle.std.specs.Prelude.{◌≡◌, ◌≢◌, ℕ, List, ◌<◌, ◌≤◌, ◌+◌, ◌^◌, ◌∷◌, [], pos, reverse, OnOk, IfOk, IfErr, Some, None};
ghost use Rattle.sh_vars.specs.Environment.{Environment};
ghost use Rattle.sh_grammar.specs.Grammar.{Tree, IsTree};
ghost use Rattle.sh_grammar.specs.Leftmost.{preorder};
ghost use Rattle.sh_grammar.specs.declared.Symbol.TheVariants.{Nonterminal};
ghost use Rattle.sh_arith_grammar.specs.Grammar.{arithmetic, arithmetic_grammar};
ghost use Rattle.sh_arith.specs.Outcome.{Gives, Stops};
ghost use Rattle.sh_arith.specs.Reading.{expand_steps, expression_of, shift_steps, step_of, steps};
ghost use Rattle.sh_arith_grammar.specs.Roles.{kind_of, operator_of, role_of};
ghost use Rattle.sh_arith.specs.State.{depth, state, stacks_of, state_of, Halting};
ghost use Rattle.sh_arith.specs.Steps.{Stacks, Runs, Skips, decide, do_binary, do_prefix, leave, open_assign, question, run, store, take_name, test_left};
ghost use Rattle.sh_arith_grammar.specs.Stack.{rest, top};
ghost use Rattle.sh_arith.specs.Value.{value};

use crate::faults::ArithFault;
use crate::values::{before, constant, decides, store, taken, worked};
use sh_arith_grammar::{Kind, Operator, Role, kind_of, operator_of, role_of, truth};
use sh_base::NoMemory;
use sh_grammar::Action::{self, Expand, Shift};
use sh_grammar::Token;
use sh_vars::Vars;
use std::alloc::Global;

/// The stacks of an evaluation. `skip` is `None` where nothing is skipped. Otherwise it is how many `&&`,
/// `||` and `?` are open inside the skipped operand.
#[derive(Drop)]
pub struct Machine {
    values: Vec<i64>,
    operators: Vec<Operator>,
    // the places of the names
    names: Vec<usize>,
    skip: Option<u64>,
}

fn push_value(stack: &mut Vec<i64>, value: i64) -> Result<(), ArithFault>
    ensures kept { OnOk result (reverse stack.new.items ≡ value ∷ reverse stack.old.items) }
    ensures fault { IfErr result (λ f. f ≡ ArithFault.NoMemory no_memory) }
{
    match stack.push(value) {
        Ok(()) => Ok(()),
        Err(failed) => Err(ArithFault::NoMemory(NoMemory::from(failed))),
    }
}

fn push_op(stack: &mut Vec<Operator>, op: Operator) -> Result<(), ArithFault>
    ensures kept { OnOk result (reverse stack.new.items ≡ op ∷ reverse stack.old.items) }
    ensures fault { IfErr result (λ f. f ≡ ArithFault.NoMemory no_memory) }
{
    match stack.push(op) {
        Ok(()) => Ok(()),
        Err(failed) => Err(ArithFault::NoMemory(NoMemory::from(failed))),
    }
}

fn pop_value(stack: &mut Vec<i64>) -> i64
    ensures top { result ≡ top (pos 0) (reverse stack.old.items) }
    ensures rest { reverse stack.new.items ≡ rest (reverse stack.old.items) }
{
    match stack.pop() {
        Some(value) => value,
        None => 0,
    }
}

fn pop_op(stack: &mut Vec<Operator>) -> Operator
    ensures top { result ≡ top Operator.Assign (reverse stack.old.items) }
    ensures rest { reverse stack.new.items ≡ rest (reverse stack.old.items) }
{
    match stack.pop() {
        Some(op) => op,
        None => Operator::Assign,
    }
}

#[tactic(auto, unfolding(crate::specs::Steps::do_binary))]
fn run_binary(machine: &mut Machine) -> Result<(), ArithFault>
    requires { machine.old.skip ≡ None }
    ensures ok { OnOk result
        ((env : Environment) → state_of machine.new env ≡ do_binary (stacks_of machine.old) env) }
    ensures fault { IfErr result (λ f.
        (env : Environment) → Halting f env (do_binary (stacks_of machine.old) env)) }
    ensures depth { depth machine.new.skip ≤ 1 }
{
    let op = pop_op(&mut machine.operators);
    let w = pop_value(&mut machine.values);
    let v = pop_value(&mut machine.values);
    let r = worked(op, v, w)?;
    push_value(&mut machine.values, r)
}

#[tactic(auto, unfolding(crate::specs::Steps::test_left))]
fn run_test(machine: &mut Machine, op: Operator) -> Result<(), ArithFault>
    requires { machine.old.skip ≡ None }
    ensures ok { OnOk result
        ((env : Environment) → state_of machine.new env ≡ test_left op (stacks_of machine.old)
        env) }
    ensures fault { IfErr result (λ f. f ≡ ArithFault.NoMemory no_memory) }
    ensures depth { depth machine.new.skip ≤ 1 }
{
    let v = pop_value(&mut machine.values);
    if decides(op, v) {
        push_value(&mut machine.values, truth(v != 0))?;
        machine.skip = Some(0);
    }
    Ok(())
}

#[tactic(auto, unfolding(crate::specs::Steps::question))]
fn run_question(machine: &mut Machine)
    requires { machine.old.skip ≡ None }
    ensures ok { (env : Environment) → state_of machine.new env
        ≡ question (stacks_of machine.old) env }
    ensures depth { depth machine.new.skip ≤ 1 }
{
    let v = pop_value(&mut machine.values);
    if v == 0 {
        machine.skip = Some(0);
    }
}

#[tactic(auto, unfolding(crate::specs::Steps::decide))]
fn run_decide(machine: &mut Machine) -> Result<(), ArithFault>
    requires { machine.old.skip ≡ None }
    ensures ok { OnOk result
        ((env : Environment) → state_of machine.new env ≡ decide (stacks_of machine.old) env) }
    ensures fault { IfErr result (λ f. f ≡ ArithFault.NoMemory no_memory) }
    ensures depth { depth machine.new.skip ≤ 1 }
{
    let v = pop_value(&mut machine.values);
    push_value(&mut machine.values, truth(v != 0))
}

fn push_name(stack: &mut Vec<usize>, place: usize) -> Result<(), ArithFault>
    ensures kept { OnOk result (reverse stack.new.items ≡ place ∷ reverse stack.old.items) }
    ensures fault { IfErr result (λ f. f ≡ ArithFault.NoMemory no_memory) }
{
    match stack.push(place) {
        Ok(()) => Ok(()),
        Err(failed) => Err(ArithFault::NoMemory(NoMemory::from(failed))),
    }
}

fn pop_name(stack: &mut Vec<usize>) -> usize
    ensures top { result ≡ top 0 (reverse stack.old.items) }
    ensures rest { reverse stack.new.items ≡ rest (reverse stack.old.items) }
{
    match stack.pop() {
        Some(place) => place,
        None => 0,
    }
}

fn top_name(names: &[usize]) -> usize
    ensures { result ≡ top 0 (reverse names.now) }
{
    match names.last() {
        Some(place) => *place,
        None => 0,
    }
}

#[tactic(auto, unfolding(crate::specs::Steps::do_prefix))]
fn run_prefix(machine: &mut Machine) -> Result<(), ArithFault>
    requires { machine.old.skip ≡ None }
    ensures ok { OnOk result
        ((env : Environment) → state_of machine.new env ≡ do_prefix (stacks_of machine.old) env) }
    ensures fault { IfErr result (λ f. f ≡ ArithFault.NoMemory no_memory) }
    ensures depth { depth machine.new.skip ≤ 1 }
{
    let op = pop_op(&mut machine.operators);
    let v = pop_value(&mut machine.values);
    push_value(&mut machine.values, op.turn(v))
}

#[tactic(auto, unfolding(crate::specs::Steps::take_name))]
fn run_take(machine: &mut Machine, text: &[u8], vars: &Vars) -> Result<(), ArithFault>
    requires { machine.old.skip ≡ None }
    ensures ok { OnOk result
        (state_of machine.new vars.now ≡ take_name text.now (stacks_of machine.old) vars.now) }
    ensures fault { IfErr result (λ f.
        Halting f vars.now (take_name text.now (stacks_of machine.old) vars.now)) }
    ensures depth { depth machine.new.skip ≤ 1 }
{
    let place = pop_name(&mut machine.names);
    let v = taken(text, place, vars)?;
    push_value(&mut machine.values, v)
}

#[tactic(auto, unfolding(crate::specs::Steps::open_assign))]
fn run_open(machine: &mut Machine, text: &[u8], op: Operator, vars: &Vars) -> Result<(), ArithFault>
    requires { machine.old.skip ≡ None }
    ensures ok { OnOk result
        (state_of machine.new vars.now ≡ open_assign text.now op (stacks_of machine.old) vars.now) }
    ensures fault { IfErr result (λ f.
        Halting f vars.now (open_assign text.now op (stacks_of machine.old) vars.now)) }
    ensures depth { depth machine.new.skip ≤ 1 }
{
    let place = top_name(&machine.names);
    let v = before(text, op, place, vars)?;
    push_op(&mut machine.operators, op)?;
    push_value(&mut machine.values, v)
}

#[tactic(auto, unfolding(crate::specs::Steps::store))]
fn run_store(
    machine: &mut Machine,
    alloc: Global,
    text: &[u8],
    vars: &mut Vars,
) -> Result<(), ArithFault>
    requires { machine.old.skip ≡ None }
    ensures ok { OnOk result
        (state_of machine.new vars.new ≡ store text.now (stacks_of machine.old) vars.old) }
    ensures fault { IfErr result (λ f.
        Halting f vars.new (store text.now (stacks_of machine.old) vars.old)) }
    ensures depth { depth machine.new.skip ≤ 1 }
{
    let op = pop_op(&mut machine.operators);
    let w = pop_value(&mut machine.values);
    let v = pop_value(&mut machine.values);
    let place = pop_name(&mut machine.names);
    let number = worked(op, v, w)?;
    let stored = store(alloc, text, place, number, vars)?;
    push_value(&mut machine.values, stored)
}

fn live_shift(
    machine: &mut Machine,
    text: &[u8],
    token: Token,
    vars: &Vars,
) -> Result<(), ArithFault>
    requires { machine.old.skip ≡ None }
    ensures ok { OnOk result
        (state_of machine.new vars.now ≡ run text.now (shift_steps (role_of token.class) token)
        (state_of machine.old vars.now)) }
    ensures fault { IfErr result (λ f.
        Halting f vars.now
        (run text.now (shift_steps (role_of token.class) token) (state_of machine.old vars.now))) }
    ensures depth { depth machine.new.skip ≤ depth machine.old.skip + 1 }
{
    match role_of(token.class) {
        Role::Number => {
            let v = constant(text, token.id)?;
            push_value(&mut machine.values, v)
        },
        Role::Name => push_name(&mut machine.names, token.id),
        Role::Operator => push_op(&mut machine.operators, operator_of(token.class)),
        Role::Logic => run_test(machine, operator_of(token.class)),
        Role::Question => {
            run_question(machine);
            Ok(())
        },
        Role::Colon => {
            machine.skip = Some(0);
            Ok(())
        },
        Role::Assign => run_open(machine, text, operator_of(token.class), vars),
        _ => Ok(()),
    }
}

fn live_expand(
    machine: &mut Machine,
    alloc: Global,
    text: &[u8],
    rule: u8,
    vars: &mut Vars,
) -> Result<(), ArithFault>
    requires { machine.old.skip ≡ None }
    ensures ok { OnOk result
        (state_of machine.new vars.new ≡ run text.now (expand_steps (kind_of rule))
        (state_of machine.old vars.old)) }
    ensures fault { IfErr result (λ f.
        Halting f vars.new
        (run text.now (expand_steps (kind_of rule)) (state_of machine.old vars.old))) }
    ensures depth { depth machine.new.skip ≤ depth machine.old.skip + 1 }
{
    match kind_of(rule) {
        Kind::Zero => push_value(&mut machine.values, 0),
        Kind::Load => run_take(machine, text, vars),
        Kind::Turn => run_prefix(machine),
        Kind::Do => run_binary(machine),
        Kind::Decide => run_decide(machine),
        Kind::Store => run_store(machine, alloc, text, vars),
        _ => Ok(()),
    }
}

fn skip_shift(machine: &mut Machine, token: Token, around: u64)
    requires skips { machine.old.skip ≡ Some around }
    requires few { around + 1 < 2 ^ 64 }
    ensures ok { (text : List ℕ) (env : Environment) → state_of machine.new env
        ≡ run text (shift_steps (role_of token.class) token) (state_of machine.old env) }
    ensures depth { depth machine.new.skip ≤ depth machine.old.skip + 1 }
{
    match role_of(token.class) {
        Role::Logic => machine.skip = Some(around + 1),
        Role::Question => machine.skip = Some(around + 1),
        Role::Colon => {
            if around == 0 {
                machine.skip = None;
            }
        },
        _ => {},
    }
}

fn left_operand(around: u64) -> Option<u64>
    ensures leaves { (s : Stacks) (env : Environment) → state result s env ≡ leave around s env }
    ensures depth { depth result ≤ around + 1 }
{
    if around == 0 { None } else { Some(around - 1) }
}

fn skip_expand(machine: &mut Machine, rule: u8, around: u64)
    requires skips { machine.old.skip ≡ Some around }
    ensures ok { (text : List ℕ) (env : Environment) → state_of machine.new env
        ≡ run text (expand_steps (kind_of rule)) (state_of machine.old env) }
    ensures depth { depth machine.new.skip ≤ depth machine.old.skip + 1 }
{
    match kind_of(rule) {
        Kind::Decide => machine.skip = left_operand(around),
        Kind::Join => machine.skip = left_operand(around),
        _ => {},
    }
}

/// Does the step of one action of the preorder.
fn step(
    machine: &mut Machine,
    alloc: Global,
    text: &[u8],
    action: Action,
    vars: &mut Vars,
) -> Result<(), ArithFault>
    requires { depth machine.old.skip < 2 ^ 64 }
    ensures ok { OnOk result
        (state_of machine.new vars.new ≡ run text.now (step_of action)
        (state_of machine.old vars.old)) }
    ensures fault { IfErr result (λ f.
        Halting f vars.new (run text.now (step_of action) (state_of machine.old vars.old))) }
    ensures depth { depth machine.new.skip ≤ depth machine.old.skip + 1 }
{
    match machine.skip {
        None => match action {
            Shift(token) => live_shift(machine, text, token, vars),
            Expand(rule) => live_expand(machine, alloc, text, rule, vars),
        },
        Some(around) => {
            match action {
                Shift(token) => {
                    skip_shift(machine, token, around);
                    Ok(())
                },
                Expand(rule) => {
                    skip_expand(machine, rule, around);
                    Ok(())
                },
            }
        },
    }
}

/// Does the steps of a preorder, one after another.
fn run_all(
    machine: &mut Machine,
    alloc: Global,
    text: &[u8],
    actions: &[Action],
    vars: &mut Vars,
) -> Result<(), ArithFault>
    requires { machine.old.skip ≡ None }
    ensures ok { OnOk result
        (state_of machine.new vars.new ≡ run text.now (steps actions.now)
        (state_of machine.old vars.old)) }
    ensures fault { IfErr result (λ f.
        Halting f vars.new (run text.now (steps actions.now) (state_of machine.old vars.old))) }
{
    let mut left = actions;
    while let Some((first, others)) = left.split_first() {
        if let Err(fault) = step(machine, alloc, text, *first, vars) {
            return Err(fault);
        }
        left = others;
    }
    Ok(())
}

/// The value of a text that was read whole. `actions` is the preorder of its tree.
pub(crate) fn value_of(
    alloc: Global,
    text: &[u8],
    actions: &[Action],
    vars: &mut Vars,
) -> Result<i64, ArithFault>
    ensures value { IfOk result (λ v.
        (tree : Tree) → IsTree arithmetic_grammar arithmetic_grammar.ending
        (Nonterminal arithmetic.start) tree → preorder tree ≡ actions.now
        → value text.now (expression_of tree) vars.old ≡ Gives v vars.new) }
    ensures fault { IfErr result (λ f.
        f ≢ ArithFault.NoMemory no_memory → (tree : Tree)
        → IsTree arithmetic_grammar arithmetic_grammar.ending (Nonterminal arithmetic.start) tree
        → preorder tree ≡ actions.now → value text.now (expression_of tree) vars.old
        ≡ Stops f vars.new) }
{
    let mut machine = Machine {
        values: Vec::new(alloc),
        operators: Vec::new(alloc),
        names: Vec::new(alloc),
        skip: None,
    };
    match run_all(&mut machine, alloc, text, actions, vars) {
        Ok(()) => {},
        Err(fault) => return Err(fault),
    }
    Ok(pop_value(&mut machine.values))
}
