//! The arenas of a module that its types and global expressions refer to, and index constants.

ghost use Rattle.std.specs.Prelude.{◌≡◌, ◌<◌, length, slice_get, IfSome, Some};
ghost use Rattle.naga_ir.specs.Handles.{GlobalReferencesOk};
ghost use Rattle.naga_ir.specs.ItemReferences.{global_lists};
ghost use Rattle.naga_ir.specs.References.{named_type};
ghost use Rattle.naga_typing.specs.Constants as spec;
ghost use Rattle.naga_typing.specs.Constants.{NamedItemsExist, index_of};
ghost use Rattle.naga_typing.specs.Context.{lists_of};
ghost use Rattle.naga_typing.specs.ErrorNames.{const_value_error_name};

use naga_ir::arena::Arena;
use naga_ir::expression::{Expression, Literal};
use naga_ir::handle::Handle;
use naga_ir::ir::{Constant, Module, Override};
use naga_ir::origin::Origin;
use naga_ir::tags::{ConstantTag, ExpressionTag, OverrideTag};
use naga_ir::types::{Scalar, ScalarKind, TypeInner};
use naga_ir::unique_arena::UniqueArena;
use thiserror::Error;

/// The arenas of a module that its types and global expressions refer to: naga's `GlobalCtx`.
#[derive(Clone, Copy)]
pub struct GlobalCtx<'a> {
    pub types: &'a UniqueArena,
    pub constants: &'a Arena<Constant, ConstantTag>,
    pub overrides: &'a Arena<Override, OverrideTag>,
    pub global_expressions: &'a Arena<Expression, ExpressionTag>,
}

/// The arenas of `module` that its types and global expressions refer to: naga's `Module::to_ctx`.
pub fn to_ctx(module: &Module) -> GlobalCtx<'_>
    ensures types { result.types.now ≡ «module».now.types }
    ensures constants { result.constants.now ≡ «module».now.constants }
    ensures overrides { result.overrides.now ≡ «module».now.overrides }
    ensures global_expressions { result.global_expressions.now ≡ «module».now.global_expressions }
    ensures lists { lists_of result ≡ global_lists «module».now }
{
    GlobalCtx {
        types: &module.types,
        constants: &module.constants,
        overrides: &module.overrides,
        global_expressions: &module.global_expressions,
    }
}

/// Why an expression is not an index constant.
#[derive(Clone, Copy, Debug, PartialEq, Eq, Error)]
pub enum ConstValueError {
    /// It is not a literal, a zero value of a scalar type, or a constant whose initialiser is one of
    /// these.
    #[error("The expression is not a constant")]
    NonConst,
    /// It is a negative integer.
    #[error("The constant is negative")]
    Negative,
    /// Its type is neither `u16`, `u32`, `i16` nor `i32`.
    #[error("The constant is not an integer of 16 or 32 bits")]
    InvalidType,
}

impl ConstValueError {
    /// The name of the variant.
    pub fn name(&self) -> &'static str
        ensures { result.now ≡ const_value_error_name self.now }
    {
        match self {
            ConstValueError::NonConst => "NonConst",
            ConstValueError::Negative => "Negative",
            ConstValueError::InvalidType => "InvalidType",
        }
    }
}

/// The number that an index constant gives: a number of elements, or the index of one.
///
/// An index constant is a literal or the zero value of a scalar type, or a constant whose initialiser
/// is one of these, and its type is `u16`, `u32`, `i16` or `i32`. The rule is narrower than the rule of
/// naga's `GlobalCtx::get_const_val_from`. The expression may be one of a function; the initialiser of
/// a constant is a global one.
///
/// # Errors
///
/// - `NonConst` if the expression is neither a literal, a zero value of a scalar type nor a constant whose
///   initialiser is one.
/// - `InvalidType` if it has another scalar type.
/// - `Negative` if it is negative. The type is checked before the sign.
pub fn get_const_val_from(
    handle: Handle<ExpressionTag>,
    expressions: &Arena<Expression, ExpressionTag>,
    gctx: GlobalCtx<'_>,
) -> Result<u32, ConstValueError>
    requires exists { handle < length expressions.now }
    requires references { GlobalReferencesOk (lists_of gctx) }
    requires named { NamedItemsExist (lists_of gctx) expressions.now }
    ensures { result ≡ index_of (lists_of gctx.entry) (slice_get expressions.now handle) }
{
    let expression = &expressions[handle];
    if let Expression::Constant(constant) = expression {
        // The initialiser is global, wherever the expression that names the constant is.
        let init = gctx.constants[*constant].init;
        return unnamed_index(&gctx.global_expressions[init], gctx.types);
    }
    unnamed_index(expression, gctx.types)
}

/// The number that an expression gives by itself, which a constant doesn't.
#[tactic(auto, unfolding(naga_ir::specs::References::named_type))]
fn unnamed_index(expression: &Expression, types: &UniqueArena) -> Result<u32, ConstValueError>
    requires { IfSome (named_type expression.now) (λ ty. ty < length types.now) }
    ensures { result ≡ spec.unnamed_index types.now (Some expression.now) }
{
    match expression.origin() {
        Origin::Literal(literal) => literal_index(literal),
        Origin::ZeroValue(ty) => zero_index(&types[ty].inner),
        Origin::Constant(_)
        | Origin::Override(_)
        | Origin::Compose(_)
        | Origin::Splat(_)
        | Origin::Computed
        | Origin::Runtime => Err(ConstValueError::NonConst),
    }
}

/// The number that a literal gives.
fn literal_index(literal: Literal) -> Result<u32, ConstValueError>
    ensures { result ≡ spec.literal_index literal }
{
    match literal {
        Literal::U16(value) => Ok(u32::from(value)),
        Literal::U32(value) => Ok(value),
        Literal::I16(value) => not_negative(i32::from(value)),
        Literal::I32(value) => not_negative(value),
        Literal::F64(_)
        | Literal::F32(_)
        | Literal::F16(_)
        | Literal::U64(_)
        | Literal::I64(_)
        | Literal::Bool(_)
        | Literal::AbstractInt(_)
        | Literal::AbstractFloat(_) => Err(ConstValueError::InvalidType),
    }
}

/// An integer that is not negative.
fn not_negative(value: i32) -> Result<u32, ConstValueError>
    ensures { result ≡ spec.not_negative value }
{
    u32::try_from(value).map_err(|_| ConstValueError::Negative)
}

/// The number that the zero value of a type gives.
fn zero_index(inner: &TypeInner) -> Result<u32, ConstValueError>
    ensures { result ≡ spec.zero_index inner.now }
{
    match *inner {
        TypeInner::Scalar(scalar) => {
            if is_index_type(scalar) {
                Ok(0)
            } else {
                Err(ConstValueError::InvalidType)
            }
        }
        TypeInner::Vector { .. }
        | TypeInner::Matrix { .. }
        | TypeInner::CooperativeMatrix { .. }
        | TypeInner::Atomic(_)
        | TypeInner::Pointer { .. }
        | TypeInner::ValuePointer { .. }
        | TypeInner::Array { .. }
        | TypeInner::Struct { .. }
        | TypeInner::Image { .. }
        | TypeInner::Sampler { .. }
        | TypeInner::AccelerationStructure { .. }
        | TypeInner::RayQuery { .. }
        | TypeInner::BindingArray { .. } => Err(ConstValueError::NonConst),
    }
}

/// Whether the values of a scalar type are integers of two or four bytes.
fn is_index_type(scalar: Scalar) -> bool
    ensures { result ≡ spec.is_index_type scalar }
{
    match scalar.kind {
        ScalarKind::Sint | ScalarKind::Uint => scalar.width == 2 || scalar.width == 4,
        ScalarKind::Float
        | ScalarKind::Bool
        | ScalarKind::AbstractInt
        | ScalarKind::AbstractFloat => false,
    }
}
