// What a kind of program is.
ghost use Rattle.std.specs.Prelude.{◌≡◌, ℕ, List, Option, IfOk, OnOk};
ghost use Rattle.sh_stock.specs.Asking.{Meaning, KeepsLaws};
ghost use Rattle.sh_stock.specs.Filtering.{Filtering, KeepsFilterLaws};

use crate::asking::{Answer, Ask};
use sh_base::NoMemory;
use sh_base::sequence::Text;
use std::alloc::Global;

/// A kind of program that a machine can run turn by turn.
///
/// A program's first turn gets [`Answer::Started`], and each later turn gets the answer to the ask before.
/// The next ask and state of a program are functions of its state and the answer.
pub trait Stock: Drop {
    /// What the programs of this kind do.
    ghost meaning: { Meaning Self };

    /// The program of a name with its operands, before its first turn; `None` where no program has the name.
    /// By convention, which no law states, wrong operands give a program that ends with 2 in its first turn.
    /// The only error is want of memory.
    fn start(alloc: Global, name: &[u8], operands: &[Text]) -> Result<Option<Self>, NoMemory>
        ensures { IfOk result (λ program. program ≡ meaning.start name.now operands.now) };

    /// One turn: the answer to the last ask comes in, and the next ask goes out. The only error is want of
    /// memory. After it the program is left open, and no turn is to follow.
    fn turn(&mut self, alloc: Global, answer: Answer) -> Result<Ask, NoMemory>
        ensures ask { IfOk result (λ ask. ask ≡ (meaning.turn self.old answer).ask) }
        ensures program { OnOk result (self.new ≡ (meaning.turn self.old answer).program) };

    /// A read asks for at least one byte, and a write has at least one.
    ghost laws: { KeepsLaws meaning };
}

/// A kind of program with filters among them. What a filter writes, and its exit status, are functions of its
/// input alone, however the input is cut into reads.
pub trait Filter: Stock {
    /// For a name and operands that make a filter: its output and status by its whole input, and what it is certain to
    /// write when it has read a prefix of the input.
    ghost filtering: { List ℕ → List (List ℕ) → Option Filtering };

    /// As long as no ask of a filter fails, what it has written is a prefix of what is certain. Where it
    /// ends, it has written its output, and ends with its status.
    ghost filter_laws: { KeepsFilterLaws Self.meaning filtering };
}
