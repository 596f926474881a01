//! The functions of a shell.
ghost use Rattle.std.specs.Prelude.{◌≡◌, [], IfOk, OnOk, option_map};
ghost use Rattle.sh_builtin_shell.specs.Functions.{body_of, defined, without, without_all};

use sh_base::NoMemory;
use sh_base::name::is_name;
use sh_base::sequence::Text;
use sh_base::shared::Shared;
use sh_syntax::tree::Command;
use std::alloc::Global;
use std::marker::Model;

/// A function with its name.
#[derive(Drop)]
struct Function {
    name: Text,
    body: Shared<Command>,
}

impl Model for Function {
    ghost use Rattle.std.specs.Coded.{codes};
    ghost use Rattle.sh_builtin_shell.specs.Functions.{Named};
    ghost use Rattle.sh_syntax.specs.contracts.tree.Command as command_row;

    ghost Value = { Named };

    ghost coded = { Prim.hlevel (codes, command_row.the_row.coded) };

    ghost view = { λ function. (function.name, function.body) };
}

/// The functions of a shell (XCU 2.9.5): a compound command for each name.
#[derive(Drop)]
pub struct Functions {
    functions: Vec<Function>,
}

impl Model for Functions {
    ghost use Rattle.std.specs.Prelude.{List};
    ghost use Rattle.std.specs.Coded.{codes};
    ghost use Rattle.sh_builtin_shell.specs.Functions.{Named};
    ghost use Rattle.sh_syntax.specs.contracts.tree.Command as command_row;

    ghost Value = { List Named };

    ghost coded = { Prim.hlevel (codes, command_row.the_row.coded) };

    ghost view = { λ table. table.functions.items };
}

impl Functions {
    /// No function.
    pub fn new(alloc: Global) -> Functions
        ensures { result ≡ [] }
    {
        Functions {
            functions: Vec::new(alloc),
        }
    }

    /// What their memory is taken from.
    pub(crate) fn allocator(&self) -> Global {
        *self.functions.allocator()
    }

    /// The body of the function of this name, `None` where there is none. Takes no memory.
    pub fn body(&self, name: &[u8]) -> Option<&Shared<Command>>
        ensures { option_map (λ body. body.now) result ≡ body_of self.now name.now }
    {
        match self
            .functions
            .iter()
            .find(|function| function.name.as_slice() == name)
        {
            Some(function) => Some(&function.body),
            None => None,
        }
    }

    /// Gives a function of this name a body, in place of one that is there. The only error is want of memory; what the functions are then
    /// is left open.
    pub fn define(
        &mut self,
        alloc: Global,
        name: &[u8],
        body: Shared<Command>,
    ) -> Result<(), NoMemory>
        ensures { OnOk result (self.new ≡ defined self.old name.now body) }
    {
        let function = match Text::copy_of(alloc, name) {
            Ok(name) => Function { name, body },
            Err(error) => {
                drop(body);
                return Err(NoMemory::from(error));
            },
        };
        self.remove(name);
        self.functions.push(function)?;
        Ok(())
    }

    /// Removes the function of this name, if there is one. Takes no memory.
    pub fn remove(&mut self, name: &[u8])
        ensures { self.new ≡ without self.old name.now }
    {
        self.functions
            .retain(|function| function.name.as_slice() != name);
    }

    /// Removes the functions of these names, up to a word that is no name (XCU 2.15 unset). Takes no memory.
    pub fn remove_all(&mut self, names: &[Text])
        ensures { self.new ≡ without_all self.old names.now }
    {
        let mut rest = names;
        'names: while let Some((name, others)) = rest.split_first() {
            if !is_name(name.as_slice()) {
                return;
            }
            self.remove(name.as_slice());
            rest = others;
        }
    }

    /// A copy, which is equal; the bodies are shared. The only error is want of memory.
    pub fn copy(&self, alloc: Global) -> Result<Functions, NoMemory>
        ensures { IfOk result (λ functions. functions ≡ self.now) }
    {
        Ok(Functions {
            functions: copies(alloc, &self.functions)?,
        })
    }
}

/// The same function, with one more owner of its body.
fn copy(alloc: Global, function: &Function) -> Result<Function, NoMemory>
    ensures { IfOk result (λ copy. copy ≡ function.now) }
{
    let body = function.body.share()?;
    match Text::copy_of(alloc, function.name.as_slice()) {
        Ok(name) => Ok(Function { name, body }),
        Err(error) => {
            drop(body);
            Err(NoMemory::from(error))
        },
    }
}

/// Copies of functions.
fn copies(alloc: Global, functions: &[Function]) -> Result<Vec<Function>, NoMemory>
    ensures { IfOk result (λ copies. copies.items ≡ functions.now) }
{
    let mut copies = Vec::with_capacity(alloc, functions.len())?;
    for function in functions {
        copies.push(copy(alloc, function)?)?;
    }
    Ok(copies)
}
