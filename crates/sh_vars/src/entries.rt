// Variables with their names.
ghost use Rattle.std.specs.Prelude.{◌≡◌, IfOk, option_map, true};

use sh_base::sequence::Text;
use sh_base::shared::Shared;
use std::alloc::{AllocError, Global};
use std::marker::Model;

/// A variable with its name and its attributes (XCU 2.5.3). Copies share the texts, which no call changes.
#[derive(Drop)]
pub struct Entry {
    name: Shared<Text>,
    value: Option<Shared<Text>>,
    exported: bool,
    read_only: bool,
}

/// A text that several variables can have.
pub(crate) fn shared_text(alloc: Global, text: &[u8]) -> Result<Shared<Text>, AllocError>
    ensures { IfOk result (λ shared. shared ≡ text.now) }
{
    Shared::new(alloc, Text::copy_of(alloc, text)?)
}

impl Model for Entry {
    ghost use Rattle.std.specs.Prelude.{List, ℕ};
    ghost use Rattle.sh_vars.specs.Environment.{Variable};

    ghost Value = { List ℕ × Variable };

    ghost view = { λ entry. (entry.name, record { value = entry.value; exported = entry.exported; read_only = entry.read_only }) };
}

impl Entry {
    ghost use Rattle.sh_vars.specs.Environment.{absent, after_assignment};
    ghost use Rattle.sh_vars.specs.Starting.{changeable};

    /// A variable without value and attributes.
    pub(crate) fn absent(alloc: Global, name: &[u8]) -> Result<Entry, AllocError>
        ensures { IfOk result (λ entry. entry ≡ (name.now, absent)) }
    {
        Ok(Entry {
            name: shared_text(alloc, name)?,
            value: None,
            exported: false,
            read_only: false,
        })
    }

    /// A variable that can be changed.
    #[tactic(auto, unfolding(crate::specs::Starting::changeable))]
    pub(crate) fn with_value(
        alloc: Global,
        name: &[u8],
        value: &[u8],
        exported: bool,
    ) -> Result<Entry, AllocError>
        ensures { IfOk result (λ entry. entry ≡ (name.now, changeable value.now exported)) }
    {
        Ok(Entry {
            name: shared_text(alloc, name)?,
            value: Some(shared_text(alloc, value)?),
            exported,
            read_only: false,
        })
    }

    /// A copy of the variable with its name. The only error is want of memory.
    pub fn copy(&self) -> Result<Entry, AllocError>
        ensures { IfOk result (λ entry. entry ≡ self.now) }
    {
        let value = match &self.value {
            Some(value) => Some(value.share()?),
            None => None,
        };
        Ok(Entry {
            name: self.name.share()?,
            value,
            exported: self.exported,
            read_only: self.read_only,
        })
    }

    /// Assigns to the variable, and exports it if asked.
    pub(crate) fn assign(&mut self, value: Shared<Text>, export: bool)
        ensures { self.new ≡ (self.old.0, after_assignment self.old.1 value export) }
    {
        self.value = Some(value);
        self.exported = self.exported || export;
    }

    /// Makes the variable one that programs inherit.
    pub(crate) fn export(&mut self)
        ensures { self.new ≡ (self.old.0, record self.old.1 { exported = true }) }
    {
        self.exported = true;
    }

    /// Makes the variable one that can't be changed.
    pub(crate) fn make_read_only(&mut self)
        ensures { self.new ≡ (self.old.0, record self.old.1 { read_only = true }) }
    {
        self.read_only = true;
    }

    /// The variable's name.
    pub fn name(&self) -> &[u8]
        ensures { result.now ≡ self.now.0 }
    {
        self.name.get().as_slice()
    }

    /// The variable's value, `None` where it is unset.
    pub fn value(&self) -> Option<&[u8]>
        ensures { option_map (λ value. value.now) result ≡ self.now.1.value }
    {
        match &self.value {
            Some(value) => Some(value.get().as_slice()),
            None => None,
        }
    }

    /// Whether programs inherit the variable.
    pub fn is_exported(&self) -> bool
        ensures { result ≡ self.now.1.exported }
    {
        self.exported
    }

    /// Whether the variable can't be assigned to or unset.
    pub fn is_read_only(&self) -> bool
        ensures { result ≡ self.now.1.read_only }
    {
        self.read_only
    }
}
