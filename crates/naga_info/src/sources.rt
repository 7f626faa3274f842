//! Where expressions have their integers from.

ghost use Rattle.std.specs.Prelude.{◌≡◌, [], IfNone, IfOk, IfSome, OnOk, length};
ghost use Rattle.naga_ir.specs.Handles.{ExpressionReferencesOk, HandlesAccepted};
ghost use Rattle.naga_info.specs.Integers as integers;
ghost use Rattle.naga_info.specs.Integers.{scope_in};
ghost use Rattle.naga_info.specs.Sources.{AreComponents, AreSources, HasNoSourceAt, IsLastSource, IsSource, PlaceExists, kept_at};

use naga_ir::expression::Expression;
use naga_ir::handle::Handle;
use naga_ir::ir::{Function, Module};
use naga_ir::list::List;
use naga_ir::memory::OutOfMemory;
use naga_ir::origin::Origin;
use naga_ir::tags::ExpressionTag;
use std::alloc::Global;

/// Where an expression is.
#[derive(Clone, Copy, Debug, PartialEq, Eq)]
pub enum Place {
    /// Among the expressions of the function.
    InFunction(Handle<ExpressionTag>),
    /// Among the global expressions.
    InModule(Handle<ExpressionTag>),
}

impl Place {
    /// The place of an operand of the expression at this place.
    pub fn operand_place(self, operand: Handle<ExpressionTag>) -> Place
        ensures { result ≡ integers.operand_place self operand }
    {
        match self {
            Place::InFunction(_) => Place::InFunction(operand),
            Place::InModule(_) => Place::InModule(operand),
        }
    }
}

/// The expression at a place.
pub fn expression_at<'a>(
    module: &'a Module,
    function: &'a Function,
    place: &Place,
) -> &'a Expression
    requires { PlaceExists (scope_in «module».now function.now) place.now }
    ensures { integers.expression_at (scope_in «module».now function.now) place.now ≡ Some result.now }
{
    match place {
        Place::InFunction(handle) => &function.expressions[*handle],
        Place::InModule(handle) => &module.global_expressions[*handle],
    }
}

/// The place of the one expression that another has its integers from: a constant from its initialiser,
/// a splat from its operand, and a composition from its component if it has only one.
pub fn only_source(module: &Module, function: &Function, place: &Place) -> Option<Place>
    requires handles { HandlesAccepted «module».now }
    requires in_function { ExpressionReferencesOk «module».now function.now }
    requires exists { PlaceExists (scope_in «module».now function.now) place.now }
    ensures source { IfSome result (λ next. IsSource (scope_in «module».now function.now) place.now next) }
    ensures none { IfNone result (HasNoSourceAt (scope_in «module».now function.now) place.now) }
{
    let expression = expression_at(module, function, place);
    match expression.origin() {
        Origin::Constant(handle) => Some(Place::InModule(module.constants[handle].init)),
        Origin::Splat(value) => Some(place.operand_place(value)),
        Origin::Compose(_) => match expression.components() {
            [component] => Some(place.operand_place(*component)),
            _ => None,
        },
        Origin::Literal(_)
        | Origin::Override(_)
        | Origin::ZeroValue(_)
        | Origin::Computed
        | Origin::Runtime => None,
    }
}

/// The components of a composition; other expressions have none.
pub fn components_at<'a>(
    module: &'a Module,
    function: &'a Function,
    place: &Place,
) -> &'a [Handle<ExpressionTag>]
    requires { PlaceExists (scope_in «module».now function.now) place.now }
    ensures { AreComponents (scope_in «module».now function.now) place.now result.now }
{
    let Expression::Compose { components, .. } = expression_at(module, function, place) else {
        return &[];
    };
    components.as_slice()
}

/// The last sources of expressions, so that no search follows the same chain of constants, splats and compositions
/// of one component again. An expression has its integers from its last source, and that has them from no other.
#[derive(Debug, Drop)]
pub struct Sources {
    /// The last source of each expression of the function, in their order, or of none.
    pub in_function: List<Place>,
    /// The last source of each global expression, in their order, or of none.
    pub in_module: List<Place>,
}

impl Sources {
    /// The last sources of no expression. It takes no memory.
    pub fn new(alloc: Global) -> Sources
        ensures { result ≡ record { in_function = []; in_module = [] } }
    {
        Sources {
            in_function: List::new(alloc),
            in_module: List::new(alloc),
        }
    }

    /// The last sources of all global expressions, and of all expressions of a function.
    ///
    /// The cost is linear in their number.
    ///
    /// # Errors
    ///
    /// `OutOfMemory` if memory was refused.
    pub fn find(alloc: Global, module: &Module, function: &Function) -> Result<Sources, OutOfMemory>
        requires handles { HandlesAccepted «module».now }
        requires in_function { ExpressionReferencesOk «module».now function.now }
        ensures right { IfOk result (AreSources (scope_in «module».now function.now)) }
        ensures in_module { IfOk result (λ s. length s.in_module ≡ length «module».now.global_expressions) }
        ensures in_function { IfOk result (λ s. length s.in_function ≡ length function.now.expressions) }
    {
        let mut sources = Sources::new(alloc);
        sources.find_in_module(module, function)?;
        sources.find_in_function(module, function)?;
        Ok(sources)
    }

    /// Finds the last sources of all global expressions.
    ///
    /// # Errors
    ///
    /// `OutOfMemory` if memory was refused.
    fn find_in_module(&mut self, module: &Module, function: &Function) -> Result<(), OutOfMemory>
        requires handles { HandlesAccepted «module».now }
        requires in_function { ExpressionReferencesOk «module».now function.now }
        requires right { AreSources (scope_in «module».now function.now) self.old }
        requires none { self.old.in_module ≡ [] }
        ensures right { OnOk result (AreSources (scope_in «module».now function.now) self.new) }
        ensures found { OnOk result (length self.new.in_module ≡ length «module».now.global_expressions) }
        ensures others { OnOk result (self.new.in_function ≡ self.old.in_function) }
    {
        // The source of an expression precedes it, so its last source is known here.
        for index in 0..module.global_expressions.len() {
            let place = Place::InModule(Handle::new(index as u32));
            let last = self.last(module, function, place);
            self.in_module.push(last)?;
        }
        Ok(())
    }

    /// Finds the last sources of all expressions of a function.
    ///
    /// # Errors
    ///
    /// `OutOfMemory` if memory was refused.
    fn find_in_function(&mut self, module: &Module, function: &Function) -> Result<(), OutOfMemory>
        requires handles { HandlesAccepted «module».now }
        requires in_function { ExpressionReferencesOk «module».now function.now }
        requires right { AreSources (scope_in «module».now function.now) self.old }
        requires none { self.old.in_function ≡ [] }
        ensures right { OnOk result (AreSources (scope_in «module».now function.now) self.new) }
        ensures found { OnOk result (length self.new.in_function ≡ length function.now.expressions) }
        ensures others { OnOk result (self.new.in_module ≡ self.old.in_module) }
    {
        for index in 0..function.expressions.len() {
            let place = Place::InFunction(Handle::new(index as u32));
            let last = self.last(module, function, place);
            self.in_function.push(last)?;
        }
        Ok(())
    }

    /// The last source that is known of the expression at a place.
    fn kept(&self, place: &Place) -> Option<Place>
        ensures { result ≡ kept_at self.now place.now }
    {
        let (sources, handle) = match place {
            Place::InFunction(handle) => (&self.in_function, handle),
            Place::InModule(handle) => (&self.in_module, handle),
        };
        sources.as_slice().get(handle.index()).copied()
    }

    /// The place of the expression that another has its integers from, through any number of expressions that have
    /// theirs from one other: the expression itself, if it has them from no other.
    ///
    /// If the last sources of all expressions are known, the cost is constant, and else linear in the expressions
    /// between.
    pub fn last(&self, module: &Module, function: &Function, place: Place) -> Place
        requires handles { HandlesAccepted «module».now }
        requires in_function { ExpressionReferencesOk «module».now function.now }
        requires right { AreSources (scope_in «module».now function.now) self.now }
        requires exists { PlaceExists (scope_in «module».now function.now) place }
        ensures { IsLastSource (scope_in «module».now function.now) place result }
    {
        let mut last = place;
        // What an expression has its integers from precedes it, so this ends.
        while let Some(next) = only_source(module, function, &last) {
            if let Some(source) = self.kept(&next) {
                return source;
            }
            last = next;
        }
        last
    }
}
