//! Where a file has the items of a module: a pass over its lines that counts items by the first word of a line, as the
//! readers of texts do.

ghost use Rattle.std.specs.Prelude.{◌≡◌, IfOk};

use naga_ir::ir::Module;
use naga_module_text::labels::{Counts, Labels, Space, labelled, space_of};
use naga_verdict::item::{Item, Owner};
use naga_verdict::verdict::Named;
use std::alloc::{AllocError, Global};
use std::collections::HashMap;

/// A line of a file that is one of a module.
#[derive(Clone, Copy)]
pub struct ModuleLine<'a> {
    /// Its number in the file, from 1.
    pub number: usize,
    pub text: &'a str,
}

/// The items that lines make, one after another.
#[derive(Clone, Copy)]
struct Counting {
    counts: Counts,
    /// The function or entry point whose lines these are.
    open: Option<Owner>,
}

impl Counting {
    /// The item that the next line makes, if it can stand there.
    fn next(&mut self, space: Space) -> Option<Item> {
        let index = self.counts.add(space);
        Some(match space {
            Space::Type => Item::Type_(index),
            Space::GlobalExpression => Item::GlobalExpression(index),
            Space::Constant => Item::Constant(index),
            Space::Override => Item::Override(index),
            Space::GlobalVariable => Item::GlobalVariable(index),
            Space::DiagnosticFilter => Item::DiagnosticFilter(index),
            Space::Function => {
                self.open = Some(Owner::Function(index));
                Item::Function(index)
            }
            Space::EntryPoint => {
                self.open = Some(Owner::EntryPoint(index));
                Item::EntryPoint(index)
            }
            Space::Argument => Item::Argument(self.open?, index),
            Space::LocalVariable => Item::LocalVariable(self.open?, index),
            Space::Expression => Item::Expression(self.open?, index),
        })
    }
}

/// Where a file has an item, and what it calls it.
#[derive(Drop)]
pub struct Place {
    /// The number of its line in the file, from 1.
    pub line: usize,
    /// Its label, or else its name.
    pub label: Option<String>,
}

/// The first word of a line.
pub fn first_word(line: &str) -> &str {
    line.split(' ').next().unwrap_or("")
}

/// Whether a line is empty or a comment.
pub fn is_blank(line: &str) -> bool {
    line.is_empty() || line.starts_with('#')
}

/// A text of its own, if there is one.
fn owned(alloc: Global, text: Option<&str>) -> Result<Option<String>, AllocError> {
    match text {
        Some(text) => Ok(Some(String::from_str(alloc, text)?)),
        None => Ok(None),
    }
}

/// Where a file has the items of a module.
#[derive(Drop)]
pub struct Places {
    alloc: Global,
    places: HashMap<Item, Place>,
}

/// Whether lines make as many items as a module has.
fn are_all(counts: Counts, module: &Module) -> bool {
    counts.types == module.types.len()
        && counts.global_expressions == module.global_expressions.len()
        && counts.constants == module.constants.len()
        && counts.overrides == module.overrides.len()
        && counts.global_variables == module.global_variables.len()
        && counts.functions == module.functions.len()
        && counts.entry_points == module.entry_points.len()
}

impl Places {
    /// The places of the items that lines make, or none if a module has other items.
    ///
    /// # Errors
    ///
    /// `AllocError` if a request for memory was refused.
    pub fn of(alloc: Global, module: &Module, lines: &[ModuleLine]) -> Result<Places, AllocError> {
        let mut counting = Counting {
            counts: Counts::default(),
            open: None,
        };
        let mut places = HashMap::new(alloc);
        let mut name = None;
        for line in lines {
            let (label, text) = labelled(line.text);
            if let Some(word) = text.strip_prefix("name ") {
                name = Some(word);
            }
            let Some(space) = space_of(first_word(text).as_bytes()) else {
                continue;
            };
            let own = match space {
                Space::GlobalExpression | Space::DiagnosticFilter | Space::Expression => None,
                _ => name.take(),
            };
            if let Some(item) = counting.next(space) {
                let place = Place {
                    line: line.number,
                    label: owned(alloc, label.or(own))?,
                };
                places.insert(item, place)?;
            }
        }
        if !are_all(counting.counts, module) {
            places = HashMap::new(alloc);
        }
        Ok(Places { alloc, places })
    }

    /// What the file calls an item, if it does.
    pub fn label(&self, item: Item) -> Option<&str> {
        Some(self.places.get(&item)?.label.as_ref()?.as_str())
    }

    /// An item with what the file says of it.
    ///
    /// # Errors
    ///
    /// `AllocError` if a request for memory was refused.
    pub fn named(&self, item: Item) -> Result<Named, AllocError>
        ensures { IfOk result (λ named. named.item ≡ item) }
    {
        let owner = item.owner().and_then(|owner| self.label(owner.item()));
        Ok(Named {
            item,
            label: owned(self.alloc, self.label(item))?,
            line: self.places.get(&item).map(|place| place.line),
            owner_label: owned(self.alloc, owner)?,
        })
    }
}

/// The text of lines without labels, and with indices in place of labels.
pub fn resolved(alloc: Global, lines: &[ModuleLine]) -> Result<String, AllocError> {
    let mut labels = Labels::new(alloc);
    let mut text = String::new(alloc);
    for line in lines {
        text.push_str(labels.resolve(line.text)?.as_str())?;
        text.push('\n')?;
    }
    Ok(text)
}
