//! The operands of an expression, and what else it names.

ghost use Rattle.std.specs.Prelude.{◌≡◌, [], ◌∷◌, ◌++◌, IfNone, option_to_list};
ghost use Rattle.naga_ir.specs.Operands.{present};
ghost use Rattle.naga_ir.specs.steps.OperandForms.{ReadsImage};
ghost use Rattle.naga_ir.specs.References as spec;

use crate::expression::{Expression, ImageQuery, SampleLevel};
use crate::reference::Reference;
use naga_arena::handle::Handle;
use naga_arena::tags::{ExpressionTag, TypeTag};
use std::marker::Model;

/// The most operands that have fields of their own.
const MOST_FIELDS: usize = 8;

/// The operands that have fields of their own. Contracts see those that are left.
///
/// They stand at the front, without the fields that have none: nearly all expressions have two at most, and a pass
/// over them looks at no more.
#[derive(Drop)]
struct Fields {
    operands: [Handle<ExpressionTag>; MOST_FIELDS],
    /// The index of the first that is left.
    next: usize,
    /// The index after the last.
    end: usize,
}

impl Model for Fields {
    ghost use Rattle.std.specs.Prelude.{ℕ, ◌-◌, ◌≤◌, List, drop, take};

    ghost Value = { List ℕ };

    ghost view = { λ f. take (f.end - f.next) (drop f.next f.operands) };

    ghost invariant = { λ f. f.end ≤ 8 };
}

impl Fields {
    /// No operand.
    fn none() -> Fields
        ensures { result ≡ [] }
    {
        Fields {
            operands: [Handle::new(0); MOST_FIELDS],
            next: 0,
            end: 0,
        }
    }

    /// One operand.
    fn one(first: Handle<ExpressionTag>) -> Fields
        ensures { result ≡ first ∷ [] }
    {
        Fields {
            operands: [first; MOST_FIELDS],
            next: 0,
            end: 1,
        }
    }

    /// Two operands.
    fn two(first: Handle<ExpressionTag>, second: Handle<ExpressionTag>) -> Fields
        ensures { result ≡ first ∷ second ∷ [] }
    {
        Fields {
            operands: [first, second, first, first, first, first, first, first],
            next: 0,
            end: 2,
        }
    }

    /// Three operands.
    fn three(
        first: Handle<ExpressionTag>,
        second: Handle<ExpressionTag>,
        third: Handle<ExpressionTag>,
    ) -> Fields
        ensures { result ≡ first ∷ second ∷ third ∷ [] }
    {
        Fields {
            operands: [first, second, third, first, first, first, first, first],
            next: 0,
            end: 3,
        }
    }

    /// The operands of those fields that have one.
    fn present(options: &[Option<Handle<ExpressionTag>>; MOST_FIELDS]) -> Fields
        ensures { result ≡ present options.now }
    {
        let mut operands = [Handle::new(0); MOST_FIELDS];
        let mut end = 0;
        for option in options {
            if let Some(operand) = option {
                operands[end] = *operand;
                end += 1;
            }
        }
        Fields {
            operands,
            next: 0,
            end,
        }
    }

    /// The next operand.
    fn next(&mut self) -> Option<Handle<ExpressionTag>>
        ensures operand { self.old ≡ option_to_list result ++ self.new }
        ensures end { IfNone result (self.old ≡ []) }
    {
        if self.next >= self.end {
            return None;
        }
        let operand = self.operands[self.next];
        self.next += 1;
        Some(operand)
    }
}

/// The operands of an expression, in the order of its fields. Contracts see those that are left.
#[derive(Drop)]
pub struct Operands<'a> {
    fields: Fields,
    /// The operands in a list, which come after those in fields.
    listed: &'a [Handle<ExpressionTag>],
}

impl<'a> Model for Operands<'a> {
    ghost use Rattle.std.specs.Prelude.{ℕ, List, ◌++◌};

    ghost Value = { List ℕ };

    ghost view = { λ o. o.fields ++ o.listed.now };
}

impl<'a> Iterator for Operands<'a> {
    ghost use Rattle.std.specs.Iterator.{YieldsFirst, item_count};

    type Item = Handle<ExpressionTag>;

    ghost next_gives = { YieldsFirst (λ s. s) };

    ghost remaining = { item_count (λ s. s) };

    fn next(&mut self) -> Option<Handle<ExpressionTag>> {
        if let Some(operand) = self.fields.next() {
            return Some(operand);
        }
        let (first, rest) = self.listed.split_first()?;
        self.listed = rest;
        Some(*first)
    }
}

/// The derivatives of a level, or the one operand that it has.
fn level_operands(level: SampleLevel) -> [Option<Handle<ExpressionTag>>; 2]
    ensures { present result ≡ spec.level_operands level }
{
    match level {
        SampleLevel::Auto | SampleLevel::Zero => [None, None],
        SampleLevel::Exact(level) | SampleLevel::Bias(level) => [Some(level), None],
        SampleLevel::Gradient { x, y } => [Some(x), Some(y)],
    }
}

fn query_operand(query: ImageQuery) -> Option<Handle<ExpressionTag>>
    ensures { option_to_list result ≡ spec.query_operands query }
{
    match query {
        ImageQuery::Size { level } => level,
        ImageQuery::NumLevels | ImageQuery::NumLayers | ImageQuery::NumSamples => None,
    }
}

/// Four operands at most, and four at most that follow them.
fn both(
    first: [Option<Handle<ExpressionTag>>; 4],
    second: [Option<Handle<ExpressionTag>>; 4],
) -> [Option<Handle<ExpressionTag>>; 8]
    ensures { present result ≡ present first ++ present second }
{
    let [a, b, c, d] = first;
    let [e, f, g, h] = second;
    [a, b, c, d, e, f, g, h]
}

impl Expression {
    /// The expressions that this one is computed from, in the order of its fields.
    pub fn operands(&self) -> Operands<'_>
        ensures { result ≡ spec.operands self.now }
    {
        Operands {
            fields: self.field_operands(),
            listed: self.components(),
        }
    }

    /// The components of a composition. Other expressions have none.
    pub fn components(&self) -> &[Handle<ExpressionTag>]
        ensures { result.now ≡ spec.components_of self.now }
    {
        match self {
            Self::Compose { components, .. } => components.as_slice(),
            _ => &[],
        }
    }

    /// The type that this names.
    #[tactic(auto, unfolding(crate::specs::References::named_type))]
    pub fn named_type(&self) -> Option<Handle<TypeTag>>
        ensures { result ≡ spec.named_type self.now }
    {
        match *self {
            Self::ZeroValue(ty)
            | Self::Compose { ty, .. }
            | Self::AtomicResult { ty, .. }
            | Self::WorkGroupUniformLoadResult { ty }
            | Self::SubgroupOperationResult { ty } => Some(ty),
            Self::Literal(_) | Self::Constant(_) | Self::Override(_) => None,
            Self::Access { .. } | Self::AccessIndex { .. } | Self::Splat { .. } => None,
            Self::Swizzle { .. } | Self::FunctionArgument(_) | Self::GlobalVariable(_) => None,
            Self::LocalVariable(_) | Self::Load { .. } | Self::ImageSample { .. } => None,
            Self::ImageLoad { .. } | Self::ImageQuery { .. } | Self::Unary { .. } => None,
            Self::Binary { .. } | Self::Select { .. } | Self::Derivative { .. } => None,
            Self::Relational { .. } | Self::Math { .. } | Self::As { .. } => None,
            Self::CallResult(_) | Self::ArrayLength(_) | Self::RayQueryProceedResult => None,
            Self::RayQueryGetIntersection { .. } | Self::RayQueryVertexPositions { .. } => None,
            Self::SubgroupBallotResult | Self::CooperativeLoad { .. } => None,
            Self::CooperativeMultiplyAdd { .. } => None,
        }
    }

    /// The constant, override, variable or function that this names.
    #[tactic(auto, unfolding(crate::specs::References::named_item))]
    pub fn named_item(&self) -> Option<Reference>
        ensures { result ≡ spec.named_item self.now }
    {
        match *self {
            Self::Constant(constant) => Some(Reference::Constant(constant)),
            Self::Override(override_) => Some(Reference::Override(override_)),
            Self::GlobalVariable(variable) => Some(Reference::GlobalVariable(variable)),
            Self::LocalVariable(variable) => Some(Reference::LocalVariable(variable)),
            Self::CallResult(function) => Some(Reference::Function(function)),
            Self::Literal(_) | Self::ZeroValue(_) | Self::Compose { .. } => None,
            Self::Access { .. } | Self::AccessIndex { .. } | Self::Splat { .. } => None,
            Self::Swizzle { .. } | Self::FunctionArgument(_) | Self::Load { .. } => None,
            Self::ImageSample { .. } | Self::ImageLoad { .. } | Self::ImageQuery { .. } => None,
            Self::Unary { .. } | Self::Binary { .. } | Self::Select { .. } => None,
            Self::Derivative { .. } | Self::Relational { .. } | Self::Math { .. } => None,
            Self::As { .. } | Self::AtomicResult { .. } | Self::ArrayLength(_) => None,
            Self::WorkGroupUniformLoadResult { .. } | Self::RayQueryProceedResult => None,
            Self::RayQueryGetIntersection { .. } | Self::RayQueryVertexPositions { .. } => None,
            Self::SubgroupBallotResult | Self::SubgroupOperationResult { .. } => None,
            Self::CooperativeLoad { .. } | Self::CooperativeMultiplyAdd { .. } => None,
        }
    }

    /// The operands that have fields of their own.
    #[tactic(auto, unfolding(crate::specs::References::operands))]
    fn field_operands(&self) -> Fields
        ensures { result ++ spec.components_of self.now ≡ spec.operands self.now }
    {
        match *self {
            Self::AccessIndex { base: expr, .. }
            | Self::Splat { value: expr, .. }
            | Self::Swizzle { vector: expr, .. }
            | Self::Load { pointer: expr }
            | Self::Unary { expr, .. }
            | Self::Derivative { expr }
            | Self::Relational { argument: expr, .. }
            | Self::As { expr, .. }
            | Self::ArrayLength(expr)
            | Self::RayQueryGetIntersection { query: expr, .. }
            | Self::RayQueryVertexPositions { query: expr, .. } => Fields::one(expr),
            Self::Access { base, index } => Fields::two(base, index),
            Self::Binary { left, right, .. } => Fields::two(left, right),
            Self::CooperativeLoad {
                pointer,
                stride,
                ..
            } => Fields::two(pointer, stride),
            Self::CooperativeMultiplyAdd { a, b, c } => Fields::three(a, b, c),
            Self::Select {
                condition,
                accept,
                reject,
            } => Fields::three(condition, accept, reject),
            Self::Math {
                arg,
                arg1,
                arg2,
                arg3,
                ..
            } => Fields::present(&[Some(arg), arg1, arg2, arg3, None, None, None, None]),
            Self::ImageSample { .. } | Self::ImageLoad { .. } | Self::ImageQuery { .. } => {
                Fields::present(&self.image_operands())
            }
            Self::Literal(_) | Self::Constant(_) | Self::Override(_) => Fields::none(),
            Self::ZeroValue(_) | Self::Compose { .. } => Fields::none(),
            Self::FunctionArgument(_) | Self::GlobalVariable(_) => Fields::none(),
            Self::LocalVariable(_) | Self::CallResult(_) => Fields::none(),
            Self::AtomicResult { .. } | Self::WorkGroupUniformLoadResult { .. } => Fields::none(),
            Self::RayQueryProceedResult | Self::SubgroupBallotResult => Fields::none(),
            Self::SubgroupOperationResult { .. } => Fields::none(),
        }
    }

    /// The operands in the fields of a variant that reads an image.
    #[tactic(auto, unfolding(crate::specs::References::operands))]
    fn image_operands(&self) -> [Option<Handle<ExpressionTag>>; 8]
        requires { ReadsImage self.now }
        ensures { present result ≡ spec.operands self.now }
    {
        match *self {
            Self::ImageSample {
                image,
                sampler,
                coordinate,
                array_index,
                offset,
                level,
                depth_ref,
                ..
            } => {
                let [first, second] = level_operands(level);
                both(
                    [Some(image), Some(sampler), Some(coordinate), array_index],
                    [offset, first, second, depth_ref],
                )
            }
            Self::ImageLoad {
                image,
                coordinate,
                array_index,
                sample,
                level,
            } => both(
                [Some(image), Some(coordinate), array_index, sample],
                [level, None, None, None],
            ),
            Self::ImageQuery { image, query } => both(
                [Some(image), query_operand(query), None, None],
                [None, None, None, None],
            ),
            _ => unreachable!(),
        }
    }
}
