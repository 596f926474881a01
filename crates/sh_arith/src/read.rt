//! Reading a text whole: its tokens, and the one derivation of them.
ghost use Rattle.sh_base.specs.Memory.{no_memory};
ghost use Rattle.std.specs.Prelude.{◌≡◌, ◌≢◌, ◌+◌, ◌++◌, ◌∷◌, [], ℕ, List, true, false, IfOk, IfErr, OnOk};
ghost use Rattle.sh_grammar.specs.Grammar.{Tree};
ghost use Rattle.sh_grammar.specs.Leftmost.{preorder};
ghost use Rattle.sh_grammar.specs.Text.{IsTreeOf, BeginsText};
ghost use Rattle.sh_arith_grammar.specs.Grammar.{arithmetic};
ghost use Rattle.sh_arith_grammar.specs.Levels.{are_shallow, is_deep, none_open, open_behind};
ghost use Rattle.sh_arith_grammar.specs.Lexical.{tokens_from, tokens_of};
ghost use Rattle.sh_arith.specs.Evaluation.{GoesOn, IsRefused, IsRefusedWithin};
ghost use Rattle.sh_arith.specs.Taking.{Reached, Refuses, Stopped};

use crate::faults::ArithFault;
use sh_arith_grammar::{Levels, head, is_blank, tables};
use sh_grammar::{Actions, Recognizer, Token};
use std::alloc::Global;

/// Takes one token, if the tokens with it begin an expression and it doesn't open level 501.
#[tactic(auto, unfolding(sh_arith_grammar::specs::Levels::open_behind))]
fn take_token(
    recognizer: &mut Recognizer<'_>,
    levels: &mut Levels,
    token: Token,
) -> Result<(), ArithFault>
    requires { is_deep levels.old ≡ false }
    ensures ok { OnOk result (recognizer.new.tokens ≡ recognizer.old.tokens ++ token ∷ []) }
    ensures grammar { recognizer.new.grammar ≡ recognizer.old.grammar }
    ensures begins { OnOk result
        (BeginsText recognizer.old.grammar (recognizer.old.tokens ++ token ∷ [])) }
    ensures levels { OnOk result (levels.new ≡ open_behind levels.old token) }
    ensures shallow { OnOk result (is_deep levels.new ≡ false) }
    ensures fault { IfErr result (λ f.
        f ≢ ArithFault.NoMemory no_memory → Refuses recognizer.old.grammar recognizer.old.tokens
        levels.old token f) }
{
    if !recognizer.take(token)? {
        return Err(ArithFault::Syntax { at: token.id });
    }
    levels.take(token.class)?;
    if levels.are_too_many() {
        return Err(ArithFault::TooDeep);
    }
    Ok(())
}

/// Takes the token that begins with the first byte of `rest`, if one begins there. None does at a blank, nor
/// where `skipped` isn't 0: that is how many bytes still belong to an earlier token. The result is how many
/// bytes after this one belong to a token that was taken.
fn take_at(
    recognizer: &mut Recognizer<'_>,
    levels: &mut Levels,
    rest: &[u8],
    place: usize,
    skipped: usize,
) -> Result<usize, ArithFault>
    requires { is_deep levels.old ≡ false }
    ensures ok { IfOk result (λ more.
        (b : ℕ) (bytes : List ℕ) → rest.now ≡ b ∷ bytes → recognizer.new.tokens ++ tokens_from
        (place + 1) more bytes ≡ recognizer.old.tokens ++ tokens_from place skipped rest.now) }
    ensures grammar { recognizer.new.grammar ≡ recognizer.old.grammar }
    ensures reached { OnOk result
        (Reached recognizer.old.grammar recognizer.old.tokens levels.old
        → Reached recognizer.new.grammar recognizer.new.tokens levels.new) }
    ensures shallow { OnOk result (is_deep levels.new ≡ false) }
    ensures fault { IfErr result (λ f.
        f ≢ ArithFault.NoMemory no_memory → Stopped recognizer.old.grammar recognizer.old.tokens
        levels.old (recognizer.old.tokens ++ tokens_from place skipped rest.now) f) }
{
    if skipped > 0 {
        return Ok(skipped - 1);
    }
    let Some((first, _)) = rest.split_first() else {
        return Ok(0);
    };
    if is_blank(*first) {
        return Ok(0);
    }
    let (class, length) = head(rest);
    let token = Token { class, id: place };
    match take_token(recognizer, levels, token) {
        Ok(()) => Ok(length.saturating_sub(1)),
        Err(fault) => Err(fault),
    }
}

/// Takes the tokens of a text.
fn take_all(
    recognizer: &mut Recognizer<'_>,
    levels: &mut Levels,
    text: &[u8],
) -> Result<(), ArithFault>
    requires grammar { recognizer.old.grammar ≡ arithmetic }
    requires start { recognizer.old.tokens ≡ [] }
    requires levels { levels.old ≡ none_open }
    ensures ok { OnOk result (recognizer.new.tokens ≡ tokens_of text.now) }
    ensures grammar { recognizer.new.grammar ≡ arithmetic }
    ensures goes_on { OnOk result (GoesOn (tokens_of text.now)) }
    ensures fault { IfErr result (λ f.
        f ≢ ArithFault.NoMemory no_memory → IsRefusedWithin (tokens_of text.now) f) }
{
    let mut rest = text;
    let mut place: usize = 0;
    let mut skipped: usize = 0;
    while let Some((_, others)) = rest.split_first() {
        skipped = match take_at(recognizer, levels, rest, place, skipped) {
            Ok(more) => more,
            Err(fault) => return Err(fault),
        };
        rest = others;
        place += 1;
    }
    Ok(())
}

/// The one derivation of a text, or why it is refused.
pub(crate) fn read(alloc: Global, text: &[u8]) -> Result<Actions, ArithFault>
    ensures tree { IfOk result (λ actions.
        (tree : Tree) × IsTreeOf arithmetic (tokens_of text.now) tree × (preorder tree ≡ actions)) }
    ensures shallow { OnOk result (are_shallow none_open (tokens_of text.now) ≡ true) }
    ensures fault { IfErr result (λ f. f ≢ ArithFault.NoMemory no_memory → IsRefused text.now f) }
{
    let mut recognizer = Recognizer::new(alloc, tables())?;
    let mut levels = Levels::new(alloc);
    take_all(&mut recognizer, &mut levels, text)?;
    match recognizer.finish()? {
        Some(actions) => Ok(actions),
        None => Err(ArithFault::Syntax { at: text.len() }),
    }
}
