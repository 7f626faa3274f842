//! The rules of accesses to parts of values, and of swizzles.

ghost use Rattle.std.specs.Prelude.{◌≡◌, ◌↔◌, ◌<◌, ℕ, IsTrue, Ok, is_none, length, option_map};
ghost use Rattle.naga_exprs.specs.Accesses as rule;
ghost use Rattle.naga_exprs.specs.Accesses.{IsAccessRule, access_index_rule};
ghost use Rattle.naga_exprs.specs.Vectors as vectors;
ghost use Rattle.naga_exprs.specs.Vectors.{swizzle_rule};
ghost use Rattle.naga_ir.specs.Handles.{GlobalReferencesOk};
ghost use Rattle.naga_ir.specs.ItemReferences.{global_lists};
ghost use Rattle.naga_info.specs.Stages as stages;
ghost use Rattle.naga_info.specs.Surroundings.{AreSound, surroundings};
ghost use Rattle.naga_info.specs.declared.expression_error.ExpressionError.TheVariants as refusal;
ghost use Rattle.naga_types.specs.Checks.{ok_unless};
ghost use Rattle.naga_typing.specs.Context.{ReferencesExist};
ghost use Rattle.naga_typing.specs.Index.{IsLength};

use naga_flags::flags::ShaderStages;
use naga_info::context::{FunctionContext, every_stage};
use naga_info::expression_error::ExpressionError;
use naga_info::type_methods::is_integer_scalar;
use naga_ir::expression::SwizzleComponent;
use naga_ir::handle::Handle;
use naga_ir::ir::Module;
use naga_ir::tags::ExpressionTag;
use naga_ir::types::{ArraySize, TypeInner, VectorSize};
use naga_typing::context::{ConstValueError, get_const_val_from, to_ctx};
use naga_typing::index::{
    IndexableLength, IndexableLengthError, indexable_length_pending, indexable_length_resolved,
};

/// Whether values of a type have parts at indexes that are computed.
fn has_parts(inner: &TypeInner) -> bool
    ensures { result ≡ rule.has_parts inner.now }
{
    // naga takes any pointer: what it leads to only matters for a constant index.
    match inner {
        TypeInner::Vector { .. }
        | TypeInner::Matrix { .. }
        | TypeInner::Array { .. }
        | TypeInner::BindingArray { .. }
        | TypeInner::Pointer { .. }
        | TypeInner::ValuePointer { size: Some(_), .. } => true,
        TypeInner::Scalar(_)
        | TypeInner::CooperativeMatrix { .. }
        | TypeInner::Atomic(_)
        | TypeInner::ValuePointer { size: None, .. }
        | TypeInner::Struct { .. }
        | TypeInner::Image { .. }
        | TypeInner::Sampler { .. }
        | TypeInner::AccelerationStructure { .. }
        | TypeInner::RayQuery { .. } => false,
    }
}

/// How many elements of a value can be indexed, by whether overrides must have their values.
fn indexable_length(
    overrides_resolved: bool,
    inner: &TypeInner,
    module: &Module,
) -> Result<IndexableLength, IndexableLengthError>
    requires exist { ReferencesExist (global_lists «module».now) inner.now }
    requires references { GlobalReferencesOk (global_lists «module».now) }
    ensures { IsLength (global_lists «module».now) (rule.lengths overrides_resolved (global_lists «module».now))
        inner.now result }
{
    if overrides_resolved {
        indexable_length_resolved(inner, module)
    } else {
        indexable_length_pending(inner, module)
    }
}

/// Whether a constant index is below the length of its base, if that is known.
fn is_within(value: u32, length: Result<IndexableLength, IndexableLengthError>) -> bool
    ensures { (base : ℕ) → result ≡ is_none (rule.index_error base value length) }
{
    match length {
        Ok(IndexableLength::Known(known)) => value < known,
        Ok(IndexableLength::Pending | IndexableLength::Dynamic) => true,
        Err(_) => false,
    }
}

/// Checks that an index is below the length of its base, if that is known.
fn check_within(
    base: Handle<ExpressionTag>,
    value: u32,
    length: Result<IndexableLength, IndexableLengthError>,
) -> Result<(), ExpressionError>
    ensures { result ≡ ok_unless (rule.index_error base value length) tt }
{
    if is_within(value, length) {
        return Ok(());
    }
    length?;
    Err(ExpressionError::IndexOutOfBounds(base, value))
}

/// Checks what an index is as a constant, if it is one.
fn check_constant(
    base: Handle<ExpressionTag>,
    index: Handle<ExpressionTag>,
    length: Result<IndexableLength, IndexableLengthError>,
    constant: Result<u32, ConstValueError>,
) -> Result<(), ExpressionError>
    ensures { result ≡ ok_unless (rule.constant_index_error base index length constant) tt }
{
    match constant {
        Ok(value) => check_within(base, value, length),
        Err(ConstValueError::Negative) => Err(ExpressionError::NegativeIndex(base)),
        Err(ConstValueError::InvalidType) => Err(ExpressionError::InvalidIndexType(index)),
        Err(ConstValueError::NonConst) => Ok(()),
    }
}

/// The stages that may use an access at an index that is computed (WGSL "Array Access Expression" and
/// its like).
///
/// # Errors
///
/// - `InvalidBaseType` if the base has no parts at such indexes.
/// - `InvalidIndexType` if the index is not an integer, or a constant of another width than 16 or 32 bits.
/// - `NegativeIndex` if it is a constant below 0.
/// - `IndexableLength` if it is a constant, and the base has no length.
/// - `IndexOutOfBounds` if it is a constant that isn't below the length of the base.
pub fn validate_access(
    context: FunctionContext<'_>,
    base: Handle<ExpressionTag>,
    index: Handle<ExpressionTag>,
) -> Result<ShaderStages, ExpressionError>
    requires sound { AreSound (surroundings context) }
    requires base { base < length context.info.now.types }
    requires index { index < length context.info.now.types }
    requires exists { index < length context.function.now.expressions }
    ensures { IsAccessRule (surroundings context.entry) base index result }
{
    let base_type = context.type_of(base);
    // A base without a length is only wrong for a constant index, so there is no `?`.
    let length = indexable_length(context.overrides_resolved, base_type, context.module);
    if !has_parts(base_type) {
        return Err(ExpressionError::InvalidBaseType(base));
    }
    if !is_integer_scalar(context.type_of(index)) {
        return Err(ExpressionError::InvalidIndexType(index));
    }
    let gctx = to_ctx(context.module);
    let constant = get_const_val_from(index, &context.function.expressions, gctx);
    check_constant(base, index, length, constant)?;
    Ok(every_stage())
}

/// Whether every stage may use an access at an index that is computed: whether `validate_access` accepts it.
/// It makes no `ExpressionError`.
pub(crate) fn admits_access(
    context: FunctionContext<'_>,
    base: Handle<ExpressionTag>,
    index: Handle<ExpressionTag>,
) -> bool
    requires sound { AreSound (surroundings context) }
    requires base { base < length context.info.now.types }
    requires index { index < length context.info.now.types }
    requires exists { index < length context.function.now.expressions }
    ensures { IsTrue result ↔ IsAccessRule (surroundings context.entry) base index (Ok stages.every_stage) }
{
    let base_type = context.type_of(base);
    if !has_parts(base_type) || !is_integer_scalar(context.type_of(index)) {
        return false;
    }
    let gctx = to_ctx(context.module);
    match get_const_val_from(index, &context.function.expressions, gctx) {
        // Only a constant index needs the length.
        Ok(value) => {
            let length = indexable_length(context.overrides_resolved, base_type, context.module);
            is_within(value, length)
        }
        Err(ConstValueError::NonConst) => true,
        Err(ConstValueError::Negative | ConstValueError::InvalidType) => false,
    }
}

/// The limit of the known indexes into a value of a type that is not a pointer to a type of the module.
fn part_limit(inner: &TypeInner) -> Option<usize>
    ensures { result ≡ rule.part_limit inner.now }
{
    match inner {
        TypeInner::Vector { size, .. }
        | TypeInner::Matrix { columns: size, .. }
        | TypeInner::ValuePointer {
            size: Some(size),
            ..
        } => Some(usize::from(size.components())),
        TypeInner::Array {
            size: ArraySize::Constant(count),
            ..
        } => Some(count.get() as usize),
        TypeInner::Array { .. } | TypeInner::BindingArray { .. } => Some(u32::MAX as usize),
        TypeInner::Struct { members, .. } => Some(members.len()),
        TypeInner::ValuePointer { size: None, .. }
        | TypeInner::Pointer { .. }
        | TypeInner::Scalar(_)
        | TypeInner::CooperativeMatrix { .. }
        | TypeInner::Atomic(_)
        | TypeInner::Image { .. }
        | TypeInner::Sampler { .. }
        | TypeInner::AccelerationStructure { .. }
        | TypeInner::RayQuery { .. } => None,
    }
}

/// The limit of the known indexes into a value: into a pointer, the limit of what it points to (naga's
/// `resolve_index_limit`).
fn index_limit(inner: &TypeInner, module: &Module) -> Option<usize>
    requires exist { ReferencesExist (global_lists «module».now) inner.now }
    ensures { result ≡ rule.index_limit «module».now.types inner.now }
{
    // One step only (naga): a pointer to a pointer has no parts at known indexes.
    if let TypeInner::Pointer { base, .. } = inner {
        return part_limit(&module.types[*base].inner);
    }
    part_limit(inner)
}

/// The stages that may use an access at a known index (WGSL "Composite Value Decomposition Expressions").
///
/// # Errors
///
/// - `InvalidBaseType` if the base has no parts at such indexes.
/// - `IndexOutOfBounds` if the index isn't below the number of parts. Arrays whose count isn't written,
///   and binding arrays, have 4294967295.
pub fn validate_access_index(
    context: FunctionContext<'_>,
    base: Handle<ExpressionTag>,
    index: u32,
) -> Result<ShaderStages, ExpressionError>
    requires sound { AreSound (surroundings context) }
    requires base { base < length context.info.now.types }
    ensures { result ≡ access_index_rule (surroundings context.entry) base index }
{
    let Some(limit) = index_limit(context.type_of(base), context.module) else {
        return Err(ExpressionError::InvalidBaseType(base));
    };
    if index as usize >= limit {
        return Err(ExpressionError::IndexOutOfBounds(base, index));
    }
    Ok(every_stage())
}

/// Whether every stage may use an access at a known index: whether `validate_access_index` accepts it. It
/// makes no `ExpressionError`.
pub(crate) fn admits_access_index(
    context: FunctionContext<'_>,
    base: Handle<ExpressionTag>,
    index: u32,
) -> bool
    requires sound { AreSound (surroundings context) }
    requires base { base < length context.info.now.types }
    ensures { IsTrue result ↔ (access_index_rule (surroundings context.entry) base index ≡ Ok stages.every_stage) }
{
    match index_limit(context.type_of(base), context.module) {
        Some(limit) => (index as usize) < limit,
        None => false,
    }
}

/// The index of a component.
fn component_index(component: SwizzleComponent) -> u8
    ensures { result ≡ vectors.component_index component }
{
    match component {
        SwizzleComponent::X => 0,
        SwizzleComponent::Y => 1,
        SwizzleComponent::Z => 2,
        SwizzleComponent::W => 3,
    }
}

/// The first of some components that a vector of this size lacks.
fn first_lacking(size: VectorSize, components: &[SwizzleComponent]) -> Option<SwizzleComponent>
    ensures { option_map (λ component. refusal.InvalidSwizzleComponent component size) result
        ≡ vectors.first_lacking size components.now }
{
    for component in components {
        if component_index(*component) >= size.components() {
            return Some(*component);
        }
    }
    None
}

/// The stages that may use a swizzle (WGSL "Vector Access Expression").
///
/// # Errors
///
/// - `InvalidVectorType` if what is swizzled is not a vector.
/// - `InvalidSwizzleComponent` if it lacks one of the first `size` components of the pattern: the first
///   such.
pub fn validate_swizzle(
    context: FunctionContext<'_>,
    size: VectorSize,
    vector: Handle<ExpressionTag>,
    pattern: &[SwizzleComponent; 4],
) -> Result<ShaderStages, ExpressionError>
    requires sound { AreSound (surroundings context) }
    requires vector { vector < length context.info.now.types }
    ensures { result ≡ swizzle_rule (surroundings context.entry) size vector pattern.now }
{
    let TypeInner::Vector {
        size: vector_size,
        ..
    } = context.type_of(vector)
    else {
        return Err(ExpressionError::InvalidVectorType(vector));
    };
    let taken = usize::from(size.components());
    match first_lacking(*vector_size, &pattern[..taken]) {
        Some(component) => {
            Err(ExpressionError::InvalidSwizzleComponent(component, *vector_size))
        }
        None => Ok(every_stage()),
    }
}

/// Whether every stage may use a swizzle: whether `validate_swizzle` accepts it. It makes no
/// `ExpressionError`.
pub(crate) fn admits_swizzle(
    context: FunctionContext<'_>,
    size: VectorSize,
    vector: Handle<ExpressionTag>,
    pattern: &[SwizzleComponent; 4],
) -> bool
    requires sound { AreSound (surroundings context) }
    requires vector { vector < length context.info.now.types }
    ensures { IsTrue result ↔ (swizzle_rule (surroundings context.entry) size vector pattern.now
        ≡ Ok stages.every_stage) }
{
    match context.type_of(vector) {
        TypeInner::Vector {
            size: vector_size,
            ..
        } => first_lacking(*vector_size, &pattern[..usize::from(size.components())]).is_none(),
        _ => false,
    }
}
