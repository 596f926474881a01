// `twice`, beside the programs of another kind: a kind of program that has a filter of its own, by the laws alone.
ghost use Rattle.std.specs.Prelude.{◌≡◌, IfOk, Option};
ghost use Rattle.test_system.specs.Twice.{twice, twice_ask};

use sh_base::NoMemory;
use sh_stock::{Answer, Ask, Filter, Stock, Text};
use std::alloc::Global;
use std::marker::Model;

/// A program of another kind, or `twice`, which writes each byte twice.
#[derive(Drop)]
pub(crate) struct WithTwice<S> {
    other: Option<S>,
}

impl<S> Model for WithTwice<S> {
    ghost use Rattle.std.specs.Prelude.{Option};

    ghost Value = { Option S };

    ghost view = { λ program. program.other };
}

impl<S: Stock> Stock for WithTwice<S> {
    ghost use Rattle.test_system.specs.Twice.{with_twice};
    ghost use Rattle.test_system.specs.TwiceLaws.{with_twice-laws};

    ghost meaning = { with_twice S.meaning };

    ghost laws = { with_twice-laws S.meaning S.laws };

    fn start(
        alloc: Global,
        name: &[u8],
        operands: &[Text],
    ) -> Result<Option<WithTwice<S>>, NoMemory> {
        if name == b"twice".as_slice() {
            return Ok(Some(WithTwice { other: None }));
        }
        match S::start(alloc, name, operands)? {
            Some(other) => Ok(Some(WithTwice { other: Some(other) })),
            None => Ok(None),
        }
    }

    fn turn(&mut self, alloc: Global, answer: Answer) -> Result<Ask, NoMemory> {
        match &mut self.other {
            Some(other) => other.turn(alloc, answer),
            None => twice_ask(alloc, answer),
        }
    }
}

impl<S: Filter> Filter for WithTwice<S> {
    ghost use Rattle.test_system.specs.Twice.{with_twice_filtering};
    ghost use Rattle.test_system.specs.TwiceLaws.{with_twice-filter_laws};

    ghost filtering = { with_twice_filtering S.filtering };

    ghost filter_laws = { with_twice-filter_laws S.meaning S.filtering S.filter_laws };
}

/// Each byte twice.
fn twice(alloc: Global, bytes: &[u8]) -> Result<Text, NoMemory>
    ensures { IfOk result (λ text. text ≡ twice bytes.now) }
{
    let mut doubled = Vec::new(alloc);
    let mut rest = bytes;
    'bytes: while let Some((byte, others)) = rest.split_first() {
        doubled.extend_from_slice(&[*byte, *byte])?;
        rest = others;
    }
    Ok(Text::from_vec(doubled))
}

/// What `twice` asks next.
fn twice_ask(alloc: Global, answer: Answer) -> Result<Ask, NoMemory>
    ensures { IfOk result (λ ask. ask ≡ twice_ask answer) }
{
    match answer {
        Answer::Started => Ok(Ask::Read(1024)),
        Answer::Bytes(bytes) => {
            if bytes.as_slice().is_empty() {
                return Ok(Ask::End(0));
            }
            Ok(Ask::Write(twice(alloc, bytes.as_slice())?))
        },
        Answer::Done => Ok(Ask::Read(1024)),
        Answer::Failed => Ok(Ask::End(1)),
    }
}
