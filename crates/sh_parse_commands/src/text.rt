//! The tokens of a command's text and the bodies after them, with the aliases that are defined as it is read.
ghost use Rattle.std.specs.Prelude.{◌≡◌, ◌≤◌, ◌<◌, ◌+◌, ◌*◌, ◌^◌, length};
ghost use Rattle.sh_parse_leaves.specs.Results.{GivesBodies, Changes};
ghost use Rattle.sh_parse_commands.specs.Documents.{bodies_of};
ghost use Rattle.sh_parse_commands.specs.Replacing.{with_token};
ghost use Rattle.sh_parse_commands.specs.Programs.{depth_of, inside_of, outermost, read_text, value_sizes};

use crate::prefix::Prefix;
use crate::program::{bodies_within, judge_token};
use crate::scope::Scope;
use sh_aliases::{Alias, Aliases};
use sh_base::shared::Shared;
use sh_parse_documents::item::Item;
use sh_parse_words::fault::PartFault;
use sh_syntax::tree::Parts;
use sh_token_pieces::here::Delimiter;
use std::alloc::Global;
use std::marker::Model;

/// How many levels may open in a command: compound commands, `${`, `$(`, `$((` and backquotes are levels.
pub const LEVELS: usize = 500;

/// A text with commands, and the aliases that are defined as it is read (XCU 2.3.1).
#[derive(Drop)]
pub struct CommandText<'a> {
    aliases: &'a Aliases,
    text: &'a [u8],
    /// A bound on how deep texts and values can nest in it.
    depth: u128,
}

impl<'a> Model for CommandText<'a> {
    ghost use Rattle.std.specs.Prelude.{◌≡◌};
    ghost use Rattle.sh_parse_commands.specs.Programs.{CommandText, depth_of, outermost};

    ghost Value = { CommandText };

    ghost view = { λ c. record { aliases = c.aliases.now; text = c.text.now } };

    ghost invariant = { λ c. c.depth ≡ depth_of c.aliases.now (outermost (record { aliases = c.aliases.now; text = c.text.now })) };
}

/// The sizes of the values of aliases, added up.
fn value_sizes(aliases: &[Shared<Alias>]) -> u128
    ensures sum { result ≡ value_sizes aliases.now }
    ensures bound { result ≤ 2 ^ 64 * length aliases.now }
{
    let mut sum = 0u128;
    let mut rest = aliases;
    'aliases: while let Some((alias, others)) = rest.split_first() {
        let value = alias.get().value.as_slice();
        sum += value.len() as u128 + 2;
        rest = others;
    }
    sum
}

impl<'a> CommandText<'a> {
    /// A text that is read by these aliases. Takes no memory; time is linear in the number of aliases.
    pub fn new(aliases: &'a Aliases, text: &'a [u8]) -> CommandText<'a>
        ensures { result ≡ record { aliases = aliases.now; text = text.now } }
    {
        let sizes = value_sizes(aliases.as_slice());
        CommandText {
            aliases,
            text,
            depth: sizes + text.len() as u128 + LEVELS as u128 + 1,
        }
    }

    /// The text.
    pub fn text(&self) -> &'a [u8]
        ensures { result.now ≡ self.now.text }
    {
        self.text
    }

    /// Takes one more token of the text, or what replaces it where it is the name of an alias (XCU 2.3.1), with the bodies of the
    /// here-documents that are due at it (`due`). A fault is the first one of the token, its word or these bodies, or want of memory.
    /// After a fault nothing is promised of `prefix`.
    #[tactic(auto, using(crate::proofs::Judged::judged))]
    pub fn judge(
        &self,
        alloc: Global,
        due: &[Delimiter],
        item: &Item,
        prefix: &mut Prefix,
    ) -> Result<(), PartFault>
        ensures { Changes result prefix.new
            (with_token self.now.aliases (inside_of self.now.aliases) (outermost self.now) due.now
            item.now prefix.old) }
    {
        let scope = Scope {
            aliases: self.aliases,
            from: &[],
            depth: self.depth,
        };
        judge_token(alloc, scope, LEVELS, self.text, due, item, prefix)
    }

    /// The parts of the bodies after an item. A fault is the first one of these bodies, or want of memory.
    #[tactic(auto, using(crate::proofs::Judged::bodies))]
    pub fn bodies_of(
        &self,
        alloc: Global,
        due: &[Delimiter],
        item: &Item,
    ) -> Result<Vec<Shared<Parts>>, PartFault>
        ensures { GivesBodies result
            (bodies_of (read_text self.now.aliases) 500 self.now.text due.now item.now) }
    {
        let scope = Scope {
            aliases: self.aliases,
            from: &[],
            depth: self.depth,
        };
        bodies_within(alloc, scope, LEVELS, self.text, due, item)
    }
}
