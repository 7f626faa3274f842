//! The integers in constant expressions.

ghost use Rattle.std.specs.Prelude.{◌≡◌, ◌↔◌, ◌<◌, IfSome, IsTrue, None, Some, length, pos, replicate, slice_get};
ghost use Rattle.naga_ir.specs.References.{named_type};
ghost use Rattle.naga_info.specs.Integers as integers;
ghost use Rattle.naga_info.specs.Sources.{AreSourcesRight, PlaceExists};
ghost use Rattle.naga_info.specs.Surroundings.{AreSound, surroundings};
ghost use Rattle.naga_operator_exprs.specs.Integers as spec;
ghost use Rattle.naga_operator_exprs.specs.Integers.{ContainsForbidden, scope_of};
ghost use Rattle.naga_operator_exprs.specs.steps.Searched.{HaveNone, note_count, note_of};
ghost use Rattle.naga_operator_exprs.specs.steps.Places.{OwnForbidden, is_forbidden_found};

use naga_info::context::FunctionContext;
use naga_info::sources::{Place, components_at, expression_at};
use naga_info::type_methods::is_integer;
use naga_ir::expression::{Expression, Literal};
use naga_ir::handle::Handle;
use naga_ir::origin::Origin;
use naga_ir::tags::TypeTag;

/// What a constant on the right of an operator must not be.
#[derive(Clone, Copy, Debug, PartialEq, Eq)]
pub enum Forbidden {
    /// This number or a greater one: what is shifted has no more bits.
    AtLeast(u32),
    /// Zero, by which nothing is divided.
    Zero,
}

/// Whether an integer that is not negative is forbidden.
fn is_forbidden(forbidden: Forbidden, value: u64) -> bool
    ensures { result ≡ spec.is_forbidden forbidden (pos value) }
{
    match forbidden {
        Forbidden::AtLeast(bound) => u64::from(bound) <= value,
        Forbidden::Zero => value == 0,
    }
}

/// Whether an integer is forbidden: no negative one is.
fn is_forbidden_signed(forbidden: Forbidden, value: i64) -> bool
    ensures { result ≡ spec.is_forbidden forbidden value }
{
    match u64::try_from(value) {
        Ok(value) => is_forbidden(forbidden, value),
        Err(_) => false,
    }
}

/// Whether a literal is a forbidden integer.
fn is_forbidden_literal(forbidden: Forbidden, literal: Literal) -> bool
    ensures { result ≡ is_forbidden_found forbidden (integers.integer_of literal) }
{
    match literal {
        Literal::U16(value) => is_forbidden(forbidden, u64::from(value)),
        Literal::U32(value) => is_forbidden(forbidden, u64::from(value)),
        Literal::U64(value) => is_forbidden(forbidden, value),
        Literal::I16(value) => is_forbidden_signed(forbidden, i64::from(value)),
        Literal::I32(value) => is_forbidden_signed(forbidden, i64::from(value)),
        Literal::I64(value) => is_forbidden_signed(forbidden, value),
        Literal::F64(_)
        | Literal::F32(_)
        | Literal::F16(_)
        | Literal::Bool(_)
        | Literal::AbstractInt(_)
        | Literal::AbstractFloat(_) => false,
    }
}

/// Whether the zero of a type is an integer or a vector of integers.
fn is_integer_zero(context: FunctionContext<'_>, ty: Handle<TypeTag>) -> bool
    requires { ty < length context.«module».now.types }
    ensures { result ≡ integers.is_integer_zero (scope_of (surroundings context.entry)) ty }
{
    match context.module.types[ty].inner.vector_size_and_scalar() {
        Some((_, scalar)) => is_integer(scalar.kind),
        None => false,
    }
}

/// Whether an expression is a forbidden integer by itself, or a vector of zeros if they are forbidden.
fn is_forbidden_itself(
    context: FunctionContext<'_>,
    forbidden: Forbidden,
    expression: &Expression,
) -> bool
    requires { IfSome (named_type expression.now) (λ ty. ty < length context.«module».now.types) }
    ensures yes { IsTrue result → OwnForbidden (scope_of (surroundings context.entry)) forbidden expression.now }
    ensures no { OwnForbidden (scope_of (surroundings context.entry)) forbidden expression.now → IsTrue result }
{
    match expression.origin() {
        Origin::Literal(literal) => is_forbidden_literal(forbidden, literal),
        Origin::ZeroValue(ty) => is_forbidden(forbidden, 0) && is_integer_zero(context, ty),
        Origin::Constant(_)
        | Origin::Override(_)
        | Origin::Compose(_)
        | Origin::Splat(_)
        | Origin::Computed
        | Origin::Runtime => false,
    }
}

/// How many compositions a search notes.
const NOTE_COUNT: usize = 16;

/// Where a search notes a composition.
fn note_of(place: Place) -> usize
    ensures value { result ≡ note_of place }
    ensures within { result < note_count }
{
    match place {
        Place::InFunction(handle) | Place::InModule(handle) => handle.index() % NOTE_COUNT,
    }
}

/// What a search has found so far.
#[derive(Drop)]
struct Searched {
    /// Compositions in which no forbidden number is: the last one searched, of those whose indexes leave the same
    /// remainder. They are so few that they take no memory, and enough for compositions that share components which
    /// stand near each other.
    noted: [Option<Place>; NOTE_COUNT],
}

impl Searched {
    /// The beginning of a search.
    fn new() -> Searched
        ensures { result.noted ≡ replicate note_count None }
    {
        Searched {
            noted: [None; NOTE_COUNT],
        }
    }

    /// Whether the composition at a place is noted.
    fn has(&self, place: Place) -> bool
        ensures { IsTrue result ↔ (slice_get self.now.noted (note_of place) ≡ Some (Some place)) }
    {
        match self.noted[note_of(place)] {
            Some(noted) => noted == place,
            None => false,
        }
    }

    /// Whether a forbidden number is in the constant expression at a place, of whose parts some may be searched.
    fn finds(&mut self, context: FunctionContext<'_>, forbidden: Forbidden, place: Place) -> bool
        requires sound { AreSound (surroundings context) }
        requires sources { AreSourcesRight context }
        requires exists { PlaceExists (scope_of (surroundings context)) place }
        requires noted { HaveNone (scope_of (surroundings context)) forbidden self.old.noted }
        ensures noted { HaveNone (scope_of (surroundings context.entry)) forbidden self.new.noted }
        ensures found { IsTrue result ↔ ContainsForbidden (scope_of (surroundings context.entry)) forbidden place }
    {
        let (module, function) = (context.module, context.function);
        let last = context.sources.last(module, function, place);
        let components = components_at(module, function, &last);
        if components.is_empty() {
            return is_forbidden_itself(context, forbidden, expression_at(module, function, &last));
        }
        if self.has(last) {
            return false;
        }
        for component in components {
            if self.finds(context, forbidden, last.operand_place(*component)) {
                return true;
            }
        }
        // Only now, after its components, is the whole composition searched.
        self.noted[note_of(last)] = Some(last);
        false
    }
}

/// Whether a forbidden number is in the constant expression at a place.
///
/// Expressions that have their integers from one other are followed in a loop; a composition of several components is
/// a recursion. If compositions are accepted, they are of a vector, and the recursion is at most three deep. Else it is
/// as deep as they are nested, and each is searched once if no two have indexes that leave the same remainder by
/// `NOTE_COUNT`; if all leave the same, each can be searched twice as often as the one that it is a component of.
pub(crate) fn has_forbidden(
    context: FunctionContext<'_>,
    forbidden: Forbidden,
    place: Place,
) -> bool
    requires sound { AreSound (surroundings context) }
    requires sources { AreSourcesRight context }
    requires exists { PlaceExists (scope_of (surroundings context)) place }
    ensures { IsTrue result ↔ ContainsForbidden (scope_of (surroundings context.entry)) forbidden place }
{
    Searched::new().finds(context, forbidden, place)
}
