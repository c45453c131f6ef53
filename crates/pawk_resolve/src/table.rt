//! Names by numbers.

ghost use Rattle.std.specs.Prelude.{◌≡◌, ◌++◌, ◌∷◌, ℕ, List, [], OnOk};
ghost use Rattle.pawk_lex.specs.Bytes.{Text};
ghost use Rattle.pawk_resolve.specs.Slots as spec;
ghost use Rattle.pawk_resolve.specs.Tables.{found, texts};

use std::alloc::{AllocError, Global};
use std::collections::BTreeMap;

/// Texts without repetition, each with the number at which it came, counted from 0.
#[derive(Drop)]
pub struct NameTable<'t> {
    pub names: Vec<&'t [u8]>,
    pub map: BTreeMap<&'t [u8], usize>,
    ghost numbered: { (x : Text) → found map x ≡ spec.place (texts names.items) x },
}

impl<'t> NameTable<'t> {
    ghost use Rattle.pawk_resolve.specs.ScopeViews.{table_names};

    /// A table that holds no names.
    pub fn new(alloc: Global) -> NameTable<'t>
        ensures { table_names result ≡ [] }
    {
        NameTable {
            names: Vec::new(alloc),
            map: BTreeMap::new(alloc),
        }
    }

    /// The number of a name, if it is there.
    pub fn place(&self, name: &[u8]) -> Option<usize>
        ensures { result ≡ spec.place (table_names self.now) name.now }
    {
        self.map.get(name).copied()
    }

    /// The number of a name, or 0.
    pub fn slot(&self, name: &[u8]) -> usize
        ensures { result ≡ spec.slot (table_names self.now) name.now }
    {
        self.place(name).unwrap_or(0)
    }

    /// Adds a name at the end of the table. A name that is there already keeps its number.
    pub fn push(&mut self, name: &'t [u8]) -> Result<(), AllocError>
        ensures { OnOk result (table_names self.new ≡ table_names self.old ++ name.now ∷ []) }
    {
        if self.map.contains_key(name) {
            self.names.push(name)?;
            return Ok(());
        }
        let number = self.names.len();
        self.names.reserve(1)?;
        self.map.insert(name, number)?;
        let _ = self.names.push(name);
        Ok(())
    }

    /// A name, unless it is there.
    pub fn add(&mut self, name: &'t [u8]) -> Result<(), AllocError>
        ensures { OnOk result (table_names self.new ≡
            spec.with_text (table_names self.old) name.now) }
    {
        if self.map.contains_key(name) {
            return Ok(());
        }
        self.push(name)
    }
}
