//! What the items of a script declare, and what a name of an attribute or a definition stands for.
ghost use Rattle.std.specs.Prelude.{◌≡◌, ◌+◌, [], length, IfOk, OnOk};
ghost use Rattle.sgl_types.specs.Scope.{definition_of, declares_attribute, defines, may_be_performed, attribute_of, callee_of, is_key as is_key_name};
ghost use Rattle.sgl_types.specs.Items.{tag_of_name};
ghost use Rattle.sgl_types.specs.Declarations.{declared, with_item, definition, after_unit};

use crate::names::Names;
use crate::table::{Named, Table};
use sgl_tree::{Item, Name};
use sgl_values::{List, Memory, Tag, Text};
use std::alloc::Global;

/// A definition by its name and the number of its parameters behind the unit.
#[derive(Debug, Drop)]
pub struct Definition {
    pub name: Text,
    pub params: usize,
}

impl Named for Definition {
    ghost name_of = { λ definition. definition.name };

    fn name(&self) -> &Text {
        &self.name
    }
}

/// Definitions of one sort in order of declaration.
pub type Definitions = Table<Definition>;

/// The place of a definition, counted from 0, and the number of its parameters, where it is there.
pub fn find_definition(definitions: &Definitions, name: &Text) -> Option<(usize, usize)>
    ensures { result ≡ definition_of name.now definitions.now }
{
    match definitions.position(name) {
        None => None,
        Some(at) => match definitions.get(at) {
            None => None,
            Some(found) => Some((at, found.params)),
        },
    }
}

/// What items declare: names by their sort, the tags of the effect attributes, the number of `on`
/// clauses, and whether `main` and `post` are there.
#[derive(Drop)]
pub struct Declared {
    pub consts: Names,
    pub effects: Names,
    pub tags: List<Tag>,
    pub aggs: Definitions,
    pub actions: Definitions,
    pub routines: Definitions,
    pub ons: usize,
    pub has_main: bool,
    pub has_post: bool,
}

/// What the name of an attribute stands for.
#[derive(Clone, Copy, Debug, PartialEq, Eq)]
pub enum AttrName {
    Key,
    /// The const attribute of this number.
    Const(u32),
    /// The effect attribute of this number.
    Effect(u32),
    /// An attribute that is declared only in this item or a later one.
    Later,
    Unknown,
}

/// What the name of a definition of one sort stands for.
#[derive(Clone, Copy, Debug, PartialEq, Eq)]
pub enum Callee {
    /// The definition of this number, with so many parameters behind the unit.
    Known { number: u32, params: usize },
    /// A definition that is declared only in this item or a later one.
    Later,
    Unknown,
}

/// Whether a name is `key`.
pub fn is_key(name: &Text) -> bool
    ensures { result ≡ is_key_name name.now }
{
    name.as_str() == "key"
}

/// A number of 32 bits. No text has more names than that, and for one that had, there is not the memory.
pub fn short(number: usize) -> Result<u32, Memory>
    ensures { IfOk result (λ n. n ≡ number) }
{
    u32::try_from(number).ok().ok_or(Memory)
}

fn count_params(params: &[Name]) -> usize
    ensures { result ≡ length (after_unit params.now) }
{
    if params.is_empty() {
        0
    } else {
        params.len() - 1
    }
}

fn define(name: &Name, params: &[Name]) -> Result<Definition, Memory>
    ensures { IfOk result (λ d. d ≡ definition name.now params.now) }
{
    Ok(Definition {
        name: name.text.clone()?,
        params: count_params(params),
    })
}

/// A sum of counts. No text comes near the greatest number.
pub fn more(count: usize, by: usize) -> Result<usize, Memory>
    ensures { IfOk result (λ n. n ≡ count + by) }
{
    count.checked_add(by).ok_or(Memory)
}

impl Declared {
    /// Nothing.
    pub fn new(alloc: Global) -> Declared
        ensures { result ≡ declared [] }
    {
        Declared {
            consts: Names::new(alloc),
            effects: Names::new(alloc),
            tags: List::new(alloc),
            aggs: Definitions::new(alloc),
            actions: Definitions::new(alloc),
            routines: Definitions::new(alloc),
            ons: 0,
            has_main: false,
            has_post: false,
        }
    }

    /// Takes in what an item declares.
    pub fn declare(&mut self, item: &Item) -> Result<(), Memory>
        ensures { OnOk result (self.new ≡ with_item self.old item.now) }
    {
        match item {
            Item::Attr { name, tag, .. } => match tag {
                None => self.consts.push(name.text.clone()?),
                Some(tag) => {
                    self.tags.push(*tag)?;
                    self.effects.push(name.text.clone()?)
                }
            },
            Item::Aggregate { name, params, .. } => {
                self.aggs.push(define(name, params.as_slice())?)
            }
            Item::Action { name, params, ons } => {
                self.ons = more(self.ons, ons.len())?;
                self.actions.push(define(name, params.as_slice())?)
            }
            Item::Routine { name, params, .. } => {
                self.routines.push(define(name, params.as_slice())?)
            }
            Item::Main { .. } => {
                self.has_main = true;
                Ok(())
            }
            Item::Post { .. } => {
                self.has_post = true;
                Ok(())
            }
        }
    }

    /// All that items declare.
    pub fn of(alloc: Global, items: &[Item]) -> Result<Declared, Memory>
        ensures { IfOk result (λ d. d ≡ declared items.now) }
    {
        let mut all = Declared::new(alloc);
        for item in items {
            all.declare(item)?;
        }
        Ok(all)
    }

    /// The names of the const attributes.
    pub fn into_consts(self) -> List<Text>
        ensures { result ≡ self.consts }
    {
        let Declared { consts, .. } = self;
        consts.into_list()
    }

    /// Whether an attribute has this name, `key` left aside.
    pub fn declares_attribute(&self, name: &Text) -> bool
        ensures { result ≡ declares_attribute self.now name.now }
    {
        self.consts.position(name).is_some() || self.effects.position(name).is_some()
    }

    /// Whether a definition has this name.
    pub fn defines(&self, name: &Text) -> bool
        ensures { result ≡ defines self.now name.now }
    {
        find_definition(&self.aggs, name).is_some()
            || find_definition(&self.actions, name).is_some()
            || find_definition(&self.routines, name).is_some()
    }

    /// Whether an action or a routine has this name.
    pub fn may_be_performed(&self, name: &Text) -> bool
        ensures { result ≡ may_be_performed self.now name.now }
    {
        find_definition(&self.actions, name).is_some()
            || find_definition(&self.routines, name).is_some()
    }
}

/// What the name of an attribute stands for.
pub fn attribute(all: &Declared, earlier: &Declared, name: &Text) -> Result<AttrName, Memory>
    ensures { IfOk result (λ a. a ≡ attribute_of all.now earlier.now name.now) }
{
    if is_key(name) {
        return Ok(AttrName::Key);
    }
    if let Some(at) = earlier.consts.position(name) {
        return Ok(AttrName::Const(short(at)?));
    }
    if let Some(at) = earlier.effects.position(name) {
        return Ok(AttrName::Effect(short(at)?));
    }
    if all.declares_attribute(name) {
        Ok(AttrName::Later)
    } else {
        Ok(AttrName::Unknown)
    }
}

/// How the amounts of an effect attribute are combined, where a name stands for one.
pub fn tag_of(declared: &Declared, name: AttrName) -> Option<Tag>
    ensures { result ≡ tag_of_name declared.now name }
{
    match name {
        AttrName::Effect(number) => declared.tags.get(number as usize).copied(),
        AttrName::Key | AttrName::Const(_) | AttrName::Later | AttrName::Unknown => None,
    }
}

/// What the name of a definition of one sort stands for.
pub fn find_callee(all: &Definitions, earlier: &Definitions, name: &Text) -> Result<Callee, Memory>
    ensures { IfOk result (λ c. c ≡ callee_of all.now earlier.now name.now) }
{
    if let Some((at, params)) = find_definition(earlier, name) {
        return Ok(Callee::Known {
            number: short(at)?,
            params,
        });
    }
    if find_definition(all, name).is_some() {
        Ok(Callee::Later)
    } else {
        Ok(Callee::Unknown)
    }
}
