//! Field splitting, in one pass.
ghost use Rattle.std.specs.Prelude.{◌≡◌, ◌++◌, ◌∷◌, List, map, IfOk, OnOk, []};
ghost use Rattle.sh_expand_fields.specs.Classes.{bytes_of, class_of};
ghost use Rattle.sh_expand_fields.specs.Splitting.{field_splitting};
ghost use Rattle.sh_expand_fields.specs.Scan.{field_or_none, scan};

use crate::class::Class;
use crate::item::Item;
use crate::separators::Separators;
use smallvec::SmallVec;
use std::alloc::{AllocError, Global};

/// Fields, each with its items. Up to four are stored in the value itself.
pub type Fields = SmallVec<Vec<Item>, 4>;

/// The fields so far, the field that has begun, and whether there is a field since the last hard delimiter.
#[derive(Drop)]
pub(crate) struct Splitter {
    fields: Fields,
    current: Vec<Item>,
    any: bool,
}

impl Splitter {
    ghost use Rattle.sh_expand_fields.specs.Scan.{fields_of};

    /// Ends the field that has begun.
    fn close(&mut self, alloc: Global) -> Result<(), AllocError>
        ensures fields { OnOk result
            (fields_of self.new ≡ fields_of self.old ++ self.old.current.items ∷ []) }
        ensures current { OnOk result (self.new.current.items ≡ []) }
        ensures any { self.new.any ≡ self.old.any }
    {
        let field = std::mem::replace(&mut self.current, Vec::new(alloc));
        self.fields.push(field)?;
        Ok(())
    }

    /// The fields, with the one that has begun, if one has.
    fn finish(mut self, alloc: Global) -> Result<Fields, AllocError>
        ensures { IfOk result (λ fields.
            map (λ field. field.items) fields.items ≡ fields_of self
            ++ field_or_none self.current.items) }
    {
        if self.current.is_empty() {
            return Ok(self.fields);
        }
        self.close(alloc)?;
        Ok(self.fields)
    }

    /// Takes one more item, by its class.
    fn take(&mut self, alloc: Global, class: Class) -> Result<(), AllocError>
        ensures { OnOk result
            ((rest : List Class) → fields_of self.new ++ scan self.new.any self.new.current.items
            rest ≡ fields_of self.old ++ scan self.old.any self.old.current.items (class ∷ rest)) }
    {
        match class {
            Class::Keep(item) => {
                self.current.push(item)?;
                Ok(())
            }
            Class::White => {
                if !self.current.is_empty() {
                    self.close(alloc)?;
                    self.any = true;
                }
                Ok(())
            }
            Class::Hard => {
                if !self.current.is_empty() || !self.any {
                    self.close(alloc)?;
                }
                self.any = false;
                Ok(())
            }
            Class::Between => {
                if !self.current.is_empty() {
                    self.close(alloc)?;
                }
                self.any = false;
                Ok(())
            }
        }
    }
}

/// The fields of an expanded word (XCU 2.6.5). Each item that doesn't delimit is in one of them.
///
/// A byte that an expansion gave and that is in IFS ends a field. IFS white space belongs to a delimiter
/// beside it, and gives no field at the ends. After the last delimiter there is no further field. What is
/// before and after an [`Item::Break`] is split separately, and gives no field where it is empty. The time is
/// linear in the number of items; no clause says so. The only error is want of memory.
#[tactic(auto, using(crate::proofs::Scans::scan_splits))]
pub fn split(alloc: Global, separators: Separators, items: &[Item]) -> Result<Fields, AllocError>
    ensures { IfOk result (λ fields.
        map (λ field. field.items) fields.items ≡ field_splitting
        (map (class_of (bytes_of separators.entry)) items.now)) }
{
    let ifs = separators.bytes();
    let mut splitter = Splitter {
        fields: SmallVec::new(alloc),
        current: Vec::new(alloc),
        any: false,
    };
    'items: for item in items {
        splitter.take(alloc, Class::of(ifs, *item))?;
    }
    let fields = splitter.finish(alloc)?;
    Ok(fields)
}
