//! Names in order of declaration, with an index that finds the place of each by its text.
ghost use Rattle.std.specs.Prelude.{◌≡◌, ℕ, List, ◌++◌, ◌∷◌, [], Some, bytes_eq, length, take, slice_get, string_bytes, OnOk, OnErr};
ghost use Rattle.std.specs.Map.{update};
ghost use Rattle.indexmap.specs.IndexMap.{get_by_text, IsUnchanged};
ghost use Rattle.sgl_types.specs.Index.{IsIndex, stands_at as stands_at_place};
ghost use Rattle.sgl_types.specs.Index.{position as position_of};

use indexmap::IndexMap;
use sgl_values::{List, Memory, Text};
use std::alloc::Global;
use std::marker::Model;

/// Names in order of declaration. Contracts see the list of names; a name that stands in it twice goes by its first
/// place.
///
/// `index` has the first place of each name. It may have more: a place where another name stands by now, or none.
#[derive(Drop)]
pub struct Names {
    alloc: Global,
    index: IndexMap<String, usize>,
    names: Vec<Text>,
}

impl Model for Names {
    ghost use Rattle.std.specs.Prelude.{List, ℕ};
    ghost use Rattle.sgl_types.specs.Index.{IsIndex};

    ghost Value = { List (List ℕ) };

    ghost view = { λ n. n.names.items };

    ghost invariant = { λ n. IsIndex n.index n.names.items };
}

impl Names {
    /// No names.
    pub fn new(alloc: Global) -> Names
        ensures { result ≡ [] }
    {
        Names {
            alloc,
            index: IndexMap::new(alloc),
            names: Vec::new(alloc),
        }
    }

    /// The number of names.
    pub fn len(&self) -> usize
        ensures { result ≡ length self.now }
    {
        self.names.len()
    }

    /// The names as a list.
    pub fn into_list(self) -> List<Text>
        ensures { result ≡ self }
    {
        let Names { names, .. } = self;
        List::from_vec(names)
    }

    /// The place of a name, counted from 0, where it is there.
    pub fn position(&self, name: &Text) -> Option<usize>
        ensures { result ≡ position_of name.now self.now }
    {
        find(&self.index, &self.names, name)
    }

    /// Puts a name behind the last. After want of memory the names are as they were.
    pub fn push(&mut self, name: Text) -> Result<(), Memory>
        ensures ok { OnOk result (self.new ≡ self.old ++ name ∷ []) }
        ensures err { OnErr result (self.new ≡ self.old) }
    {
        add(self.alloc, &mut self.index, &mut self.names, name)
    }

    /// Takes out all but the first so many.
    pub fn truncate(&mut self, count: usize)
        ensures { self.new ≡ take count self.old }
    {
        self.names.truncate(count);
    }
}

/// The place that an index has for a name.
fn hint(index: &IndexMap<String, usize>, name: &Text) -> Option<usize>
    ensures { result ≡ get_by_text index.now name.now }
{
    index.get(name.as_str()).copied()
}

/// Whether a name stands at a place.
fn stands_at(names: &[Text], at: usize, name: &Text) -> bool
    ensures { result ≡ stands_at_place (slice_get names.now at) name.now }
{
    if at < names.len() {
        is_same(&names[at], name.as_str())
    } else {
        false
    }
}

/// The place of a name in a list, with an index of the list.
fn find(index: &IndexMap<String, usize>, names: &[Text], name: &Text) -> Option<usize>
    requires { IsIndex index.now names.now }
    ensures { result ≡ position_of name.now names.now }
{
    match hint(index, name) {
        None => None,
        Some(at) => {
            if stands_at(names, at, name) {
                Some(at)
            } else {
                None
            }
        }
    }
}

/// Sets the place of a name.
fn set_place(index: &mut IndexMap<String, usize>, name: String, at: usize) -> Result<(), Memory>
    ensures ok { OnOk result ((q : List ℕ) → get_by_text index.new q ≡ update bytes_eq (get_by_text index.old) (string_bytes name) (Some at) q) }
    ensures err { OnErr result (IsUnchanged index.old index.new) }
{
    index.insert(name, at)?;
    Ok(())
}

/// Sees to it that the index has a place for a name that is to come behind the last.
fn see_to_place(
    alloc: Global,
    index: &mut IndexMap<String, usize>,
    names: &[Text],
    name: &Text,
) -> Result<(), Memory>
    requires { IsIndex index.old names.now }
    ensures kept { IsIndex index.new names.now }
    ensures next { OnOk result (IsIndex index.new (names.now ++ name.now ∷ [])) }
{
    if find(index, names, name).is_some() {
        return Ok(());
    }
    let key = String::from_str(alloc, name.as_str())?;
    set_place(index, key, names.len())
}

/// Puts a name behind the last, and keeps the index.
fn add(
    alloc: Global,
    index: &mut IndexMap<String, usize>,
    names: &mut Vec<Text>,
    name: Text,
) -> Result<(), Memory>
    requires { IsIndex index.old names.old.items }
    ensures index { IsIndex index.new names.new.items }
    ensures ok { OnOk result (names.new.items ≡ names.old.items ++ name ∷ []) }
    ensures err { OnErr result (names.new.items ≡ names.old.items) }
{
    see_to_place(alloc, index, names, &name)?;
    names.push(name)?;
    Ok(())
}

/// Whether two names are the same.
pub fn is_same(name: &Text, other: &str) -> bool
    ensures { result ≡ bytes_eq name.now other.now }
{
    name.as_str() == other
}
