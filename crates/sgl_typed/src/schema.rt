//! The attributes of the units.
ghost use Rattle.std.specs.Prelude.{◌≡◌, true};
ghost use Rattle.sgl_typed.specs.SchemaForm.{attributes_fit};

use sgl_values::{List, Num, Tag, Text};

/// An attribute that actions write and `post` reads. In each tick it starts at `init` and combines its amounts by
/// `tag`.
#[derive(Debug, Drop)]
pub struct EffectAttr {
    pub name: Text,
    pub tag: Tag,
    pub init: Num,
}

/// The attributes of the units, each kind numbered from 0 in the order of the text. The type keeps that names differ, that
/// none is `key` or has more than 31 bytes, and that there are at most 32 const and 16 effect attributes.
#[derive(Debug, Drop)]
pub struct Schema {
    pub consts: List<Text>,
    pub effects: List<EffectAttr>,
    pub ghost fits: { attributes_fit consts effects ≡ true },
}
