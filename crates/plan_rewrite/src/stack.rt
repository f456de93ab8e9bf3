//! Stacks that are also changed further down.
ghost use Rattle.std.specs.Prelude.{◌≡◌, ◌∷◌, [], reverse, MatchOption, OnOk};
ghost use Rattle.plan_rewrite.specs.Bare.{inserted, without};

use crate::subtrees::number_before;
use sgl_values::Memory;
use std::alloc::Global;
use std::marker::Model;

/// A stack. Contracts see the list of its items, the top first.
#[derive(Debug, Drop)]
pub struct Stack<T> {
    items: Vec<T>,
}

impl<T> Model for Stack<T> {
    ghost use Rattle.std.specs.Prelude.{List, reverse};
    ghost use Rattle.std.specs.Coded.{coded_list};

    ghost Value = { List T };

    ghost coded = { coded_list T.code };

    ghost view = { λ it. reverse it.items.items };
}

impl<T> Stack<T> {
    /// No items. It takes no memory.
    pub fn new(alloc: Global) -> Stack<T>
        ensures { result ≡ [] }
    {
        Stack {
            items: Vec::new(alloc),
        }
    }

    /// Takes the top off; `None` where there is none.
    pub fn pop(&mut self) -> Option<T>
        ensures { MatchOption result ((self.old ≡ []) × (self.new ≡ [])) (λ top. self.old ≡ top ∷ self.new) }
    {
        self.items.pop()
    }

    /// The items, lent, the top last.
    pub fn as_slice(&self) -> &[T]
        ensures { reverse result.now ≡ self.now }
    {
        self.items.as_slice()
    }

    /// The items, the top first. It takes no memory.
    pub fn into_items(self) -> Vec<T>
        ensures { result.items ≡ self }
    {
        let mut items = self.items;
        items.reverse();
        items
    }
}

impl<T: Drop> Stack<T> {
    /// Puts an item on top; refused for want of memory alone.
    pub fn push(&mut self, item: T) -> Result<(), Memory>
        ensures { OnOk result (self.new ≡ item ∷ self.old) }
    {
        self.items.push(item)?;
        Ok(())
    }

    /// Puts an item below so many others; `Memory` where there are no so many.
    pub fn sink(&mut self, item: T, place: usize) -> Result<(), Memory>
        ensures { OnOk result (self.new ≡ inserted place item self.old) }
    {
        let at = number_before(self.items.len(), place)?;
        self.items.insert(at, item)?;
        Ok(())
    }

    /// Takes so many items below so many others out; `Memory` where there are no so many.
    pub fn cut(&mut self, from: usize, count: usize) -> Result<(), Memory>
        ensures { OnOk result (self.new ≡ without from count self.old) }
    {
        let ends = number_before(self.items.len(), from)?;
        let start = number_before(ends, count)?;
        self.items.drain(start..ends);
        Ok(())
    }
}
