//! The variables, options, positional and special parameters and the working directory of a shell (IEEE Std
//! 1003.1-2024, XCU 2.5 and 2.15).
//!
//! Contracts see a [`Vars`] as the record `Environment` of `specs/Environment.antt`. Values are any bytes;
//! what is kept is bounded by memory alone. A look-up takes no memory, and time logarithmic in the number of
//! variables; no clause says the time.
#![tactic(auto)]

ghost use Rattle.std.specs.Prelude.{◌≡◌, ◌≢◌, ◌↔◌, ◌≤◌, ℕ, List, drop, length, false, IsTrue, OnOk, OnErr, IfOk, option_map, IfSome};
ghost use Rattle.std.specs.FinMap as map;

mod entries;
mod faults;
mod shell_options;
mod table;

pub use entries::Entry;
pub use faults::VarsFault;
pub use sh_base::name::is_name;
pub use sh_base::sequence::Text;
use sh_base::sequence::copies_of;
pub use shell_options::{Options, ShellOption};
use std::alloc::{AllocError, Global};
use std::marker::Model;
use table::Table;

/// What a shell keeps between its commands: variables, options, parameters and directory (XCU 2.5, 2.13).
///
/// After each error the value is as it was before the call.
#[derive(Drop)]
pub struct Vars {
    alloc: Global,
    variables: Table,
    options: Options,
    positional: Vec<Text>,
    zero: Text,
    process: u32,
    status: u8,
    background: Option<u32>,
    directory: Text,
}

impl Model for Vars {
    ghost use Rattle.std.specs.Coded.{codes};
    ghost use Rattle.sh_vars.specs.Environment.{Environment};
    ghost use Rattle.sh_vars.specs.Codes.{map_code};

    ghost Value = { Environment };

    ghost coded = { Prim.hlevel (codes, map_code) };

    ghost view = { λ vars. record {
      variables = vars.variables;
      options = vars.options;
      positional = vars.positional.items;
      special = record { zero = vars.zero; process = vars.process; status = vars.status; background = vars.background };
      directory = vars.directory;
    } };
}

impl Vars {
    ghost use Rattle.sh_vars.specs.Environment.{variable_of, value_of, is_read_only, with_variable, with_value, with_export, with_read_only, without, with_options, with_positional, after_shift, with_directory, with_zero, with_process, with_background, with_status};
    ghost use Rattle.sh_vars.specs.Refusals.{refusal};
    ghost use Rattle.sh_base.specs.Names.{is_name};
    ghost use Rattle.sh_vars.specs.Starting.{starting};

    /// What the first shell begins with: PATH `/bin`, HOME and PWD `/`, these three exported, IFS space, tab and newline,
    /// PS1 `$ `, PS2 `> `, PS4 `+ ` and PPID `1`; `$0` is `psh` and `$$` 100; no options, and the directory `/`.
    /// The only error is want of memory.
    #[tactic(auto, unfolding(crate::specs::Starting::starting))]
    pub fn new(alloc: Global) -> Result<Vars, AllocError>
        ensures { IfOk result (λ vars. vars ≡ starting) }
    {
        Ok(Vars {
            alloc,
            variables: Table::starting(alloc)?,
            options: Options::default(),
            positional: Vec::new(alloc),
            zero: Text::copy_of(alloc, b"psh")?,
            process: 100,
            status: 0,
            background: None,
            directory: Text::copy_of(alloc, b"/")?,
        })
    }

    /// The value of a variable (XCU 2.5.3). It is `None` where the variable is unset, also where it is
    /// exported or read-only without a value.
    pub fn get(&self, name: &[u8]) -> Option<&[u8]>
        ensures { option_map (λ value. value.now) result ≡ value_of self.now name.now }
    {
        self.variables.find(name)?.value()
    }

    /// Gives a variable a value. Under `set -a` it is exported from then on (XCU 2.9.1.2, 2.15 `set`).
    ///
    /// `BadName` where `name` is no name; otherwise `ReadOnly` where the variable is read-only. The only
    /// other error is `NoMemory`.
    pub fn set(&mut self, name: &[u8], value: &[u8]) -> Result<(), VarsFault>
        ensures ok { OnOk result (self.new ≡ with_value self.old name.now value.now) }
        ensures bad_name { (result ≡ Err VarsFault.BadName) ↔ (is_name name.now ≡ false) }
        ensures read_only { (result ≡ Err VarsFault.ReadOnly)
            ↔ (IsTrue (is_name name.now) × IsTrue (is_read_only self.old name.now)) }
        ensures err { OnErr result (self.new ≡ self.old) }

        // What is read after an assignment.
        ensures reads { OnOk result (value_of self.new name.now ≡ Some value.now) }
        ensures reads_others { (other : List ℕ) → other ≢ name.now → value_of self.new other
            ≡ value_of self.old other }
    {
        self.check_change(name)?;
        self.variables
            .assign(self.alloc, name, value, self.options.all_export)?;
        Ok(())
    }

    /// Refuses what is no name, and the name of a read-only variable.
    fn check_change(&self, name: &[u8]) -> Result<(), VarsFault>
        ensures { result ≡ refusal self.now name.now }
    {
        if !is_name(name) {
            return Err(VarsFault::BadName);
        }
        match self.variables.find(name) {
            Some(entry) if entry.is_read_only() => Err(VarsFault::ReadOnly),
            _ => Ok(()),
        }
    }

    /// Takes a variable's value and attributes away (XCU 2.15 `unset`). To unset a variable that isn't there
    /// changes nothing and is no error.
    ///
    /// `BadName` where `name` is no name; otherwise `ReadOnly` where the variable is read-only. Takes no
    /// memory.
    pub fn unset(&mut self, name: &[u8]) -> Result<(), VarsFault>
        ensures ok { OnOk result (self.new ≡ without self.old name.now) }
        ensures refused { result ≡ refusal self.old name.now }
        ensures err { OnErr result (self.new ≡ self.old) }
    {
        self.check_change(name)?;
        self.variables.remove(name);
        Ok(())
    }

    /// Exports a variable, also one without a value yet (XCU 2.15 `export`).
    ///
    /// `BadName` where `name` is no name. The only other error is `NoMemory`.
    pub fn export(&mut self, name: &[u8]) -> Result<(), VarsFault>
        ensures ok { OnOk result (self.new ≡ with_export self.old name.now) }
        ensures bad_name { (result ≡ Err VarsFault.BadName) ↔ (is_name name.now ≡ false) }
        ensures never_read_only { result ≢ Err VarsFault.ReadOnly }
        ensures err { OnErr result (self.new ≡ self.old) }
    {
        if !is_name(name) {
            return Err(VarsFault::BadName);
        }
        self.variables.export(self.alloc, name)?;
        Ok(())
    }

    /// Makes a variable read-only, also one without a value (XCU 2.15 `readonly`). From then on `set` and
    /// `unset` refuse it.
    ///
    /// `BadName` where `name` is no name. The only other error is `NoMemory`.
    pub fn make_readonly(&mut self, name: &[u8]) -> Result<(), VarsFault>
        ensures ok { OnOk result (self.new ≡ with_read_only self.old name.now) }
        ensures bad_name { (result ≡ Err VarsFault.BadName) ↔ (is_name name.now ≡ false) }
        ensures never_read_only { result ≢ Err VarsFault.ReadOnly }
        ensures err { OnErr result (self.new ≡ self.old) }
    {
        if !is_name(name) {
            return Err(VarsFault::BadName);
        }
        self.variables.make_read_only(self.alloc, name)?;
        Ok(())
    }

    /// A variable with its attributes, `None` where it has neither value nor attribute.
    pub fn variable(&self, name: &[u8]) -> Option<&Entry>
        ensures found { option_map (λ entry. entry.now.1) result ≡ variable_of self.now name.now }
        ensures named { IfSome result (λ entry. entry.now.0 ≡ name.now) }
    {
        self.variables.find(name)
    }

    /// The variables, also those without a value, in the order of their names' bytes, as `set` and `export -p` list them.
    pub fn variables(&self) -> &[Entry]
        ensures { result.now ≡ map.entries self.now.variables }
    {
        self.variables.entries()
    }

    /// Puts a variable back as it was, even where the variable of its name is read-only. With this call an
    /// assignment before a built-in or a function is undone, after that has run (XCU 2.9.1.2). The only error
    /// is want of memory.
    pub fn put(&mut self, entry: Entry) -> Result<(), AllocError>
        ensures ok { OnOk result (self.new ≡ with_variable self.old entry.0 entry.1) }
        ensures err { OnErr result (self.new ≡ self.old) }
    {
        self.variables.put(entry)
    }

    /// Takes a variable away, even where it is read-only. With this call an assignment to a
    /// variable that wasn't there is undone.
    pub fn forget(&mut self, name: &[u8])
        ensures { self.new ≡ without self.old name.now }
    {
        self.variables.remove(name);
    }

    /// A copy of all, as a subshell gets it (XCU 2.13). The only error is want of memory.
    pub fn copy(&self) -> Result<Vars, AllocError>
        ensures { IfOk result (λ vars. vars ≡ self.now) }
    {
        Ok(Vars {
            alloc: self.alloc,
            variables: self.variables.copy(self.alloc)?,
            options: self.options,
            positional: copies_of(self.alloc, &self.positional)?,
            zero: Text::copy_of(self.alloc, self.zero.as_slice())?,
            process: self.process,
            status: self.status,
            background: self.background,
            directory: Text::copy_of(self.alloc, self.directory.as_slice())?,
        })
    }

    /// The positional parameters from `$1` on (XCU 2.5.1).
    pub fn positional(&self) -> &[Text]
        ensures { result.now ≡ self.now.positional }
    {
        self.positional.as_slice()
    }

    /// Sets the positional parameters, as `set -- ..` and a function's call do.
    pub fn set_positional(&mut self, operands: Vec<Text>)
        ensures { self.new ≡ with_positional self.old operands.items }
    {
        self.positional = operands;
    }

    /// Drops the first `count` positional parameters (XCU 2.15 `shift`). There must be at least `count`: the
    /// caller compares it with `positional().len()` first.
    pub fn shift(&mut self, count: usize)
        requires { count ≤ length self.old.positional }
        ensures { self.new ≡ after_shift self.old count }
    {
        drop_front(&mut self.positional, count);
    }

    /// The options that are on.
    pub fn options(&self) -> Options
        ensures { result ≡ self.now.options }
    {
        self.options
    }

    /// Sets all options.
    pub fn set_options(&mut self, options: Options)
        ensures { self.new ≡ with_options self.old options }
    {
        self.options = options;
    }

    /// The working directory.
    pub fn directory(&self) -> &[u8]
        ensures { result.now ≡ self.now.directory }
    {
        self.directory.as_slice()
    }

    /// Sets the working directory. PWD is left as it is.
    pub fn set_directory(&mut self, path: Text)
        ensures { self.new ≡ with_directory self.old path }
    {
        self.directory = path;
    }

    /// The name of the shell or script, `$0` (XCU 2.5.2).
    pub fn zero(&self) -> &[u8]
        ensures { result.now ≡ self.now.special.zero }
    {
        self.zero.as_slice()
    }

    /// Sets `$0`.
    pub fn set_zero(&mut self, zero: Text)
        ensures { self.new ≡ with_zero self.old zero }
    {
        self.zero = zero;
    }

    /// The process ID of the invoked shell, `$$` (XCU 2.5.2).
    pub fn process(&self) -> u32
        ensures { result ≡ self.now.special.process }
    {
        self.process
    }

    /// Sets `$$`.
    pub fn set_process(&mut self, process: u32)
        ensures { self.new ≡ with_process self.old process }
    {
        self.process = process;
    }

    /// The process ID of the most recent asynchronous list, `$!`; `None` before the first (XCU 2.5.2).
    pub fn background(&self) -> Option<u32>
        ensures { result ≡ self.now.special.background }
    {
        self.background
    }

    /// Sets `$!`.
    pub fn set_background(&mut self, process: u32)
        ensures { self.new ≡ with_background self.old process }
    {
        self.background = Some(process);
    }

    /// The exit status of the last pipeline, `$?` (XCU 2.5.2).
    pub fn status(&self) -> u8
        ensures { result ≡ self.now.special.status }
    {
        self.status
    }

    /// Sets `$?`.
    pub fn set_status(&mut self, status: u8)
        ensures { self.new ≡ with_status self.old status }
    {
        self.status = status;
    }
}

/// Drops the first `count` texts.
fn drop_front(texts: &mut Vec<Text>, count: usize)
    requires { count ≤ length texts.old.items }
    ensures { texts.new.items ≡ drop count texts.old.items }
{
    texts.rotate_left(count);
    texts.truncate(texts.len() - count);
}
