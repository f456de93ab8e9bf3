//! What goes by a name, in order of declaration, found by its name.
ghost use Rattle.std.specs.Prelude.{◌≡◌, ◌++◌, ◌∷◌, [], map, take, length, slice_get, OnOk};
ghost use Rattle.std.specs.Option.{option_copied};
ghost use Rattle.sgl_types.specs.Index.{position as position_of};

use crate::names::Names;
use sgl_values::{Memory, Text};
use std::alloc::Global;
use std::marker::Model;

/// What goes by a name.
pub trait Named {
    ghost use Rattle.std.specs.Prelude.{◌≡◌, List, ℕ};

    /// The name it goes by.
    ghost name_of: { Self → List ℕ };

    /// The name it goes by.
    fn name(&self) -> &Text
        ensures { result.now ≡ name_of self.now };
}

/// Entries in order of declaration. Contracts see the list of them; a name that stands in it twice goes by its first
/// place.
#[derive(Drop)]
pub struct Table<T: Named> {
    names: Names,
    entries: Vec<T>,
}

impl<T: Named> Model for Table<T> {
    ghost use Rattle.std.specs.Prelude.{List, ◌≡◌, map};

    ghost Value = { List T };

    ghost view = { λ it. it.entries.items };

    ghost invariant = { λ it. it.names ≡ map T.name_of it.entries.items };
}

impl<T: Named + Drop> Table<T> {
    /// No entries.
    pub fn new(alloc: Global) -> Table<T>
        ensures { result ≡ [] }
    {
        Table {
            names: Names::new(alloc),
            entries: Vec::new(alloc),
        }
    }

    /// The number of entries.
    pub fn len(&self) -> usize
        ensures { result ≡ length self.now }
    {
        self.entries.len()
    }

    /// The place of the first entry of this name, counted from 0, where there is one.
    pub fn position(&self, name: &Text) -> Option<usize>
        ensures { result ≡ position_of name.now (map T.name_of self.now) }
    {
        self.names.position(name)
    }

    /// The entry of this place, where there is one.
    pub fn get(&self, at: usize) -> Option<&T>
        ensures { option_copied result ≡ slice_get self.now at }
    {
        self.entries.get(at)
    }

    /// Takes out all but the first so many.
    pub fn truncate(&mut self, count: usize)
        ensures { self.new ≡ take count self.old }
    {
        self.names.truncate(count);
        self.entries.truncate(count);
    }

    /// Puts an entry behind the last.
    pub fn push(&mut self, entry: T) -> Result<(), Memory>
        ensures { OnOk result (self.new ≡ self.old ++ entry ∷ []) }
    {
        add(&mut self.entries, &mut self.names, entry)
    }
}

/// Puts an entry behind the last, and its name behind the names.
fn add<T: Named + Drop>(entries: &mut Vec<T>, names: &mut Names, entry: T) -> Result<(), Memory>
    requires { names.old ≡ map T.name_of entries.old.items }
    ensures names { names.new ≡ map T.name_of entries.new.items }
    ensures ok { OnOk result (entries.new.items ≡ entries.old.items ++ entry ∷ []) }
{
    let name = entry.name().clone()?;
    let count = entries.len();
    entries.push(entry)?;
    if names.push(name).is_err() {
        entries.truncate(count);
        return Err(Memory);
    }
    Ok(())
}
