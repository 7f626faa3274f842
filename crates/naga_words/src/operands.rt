//! What one operand says, or a few that belong together.

ghost use Rattle.naga_words.specs.Tables.{accesses, binary_operators, bools, components, dimensions, kinds, math_functions, relational_functions, roles, subgroup_operations, unary_operators};
ghost use Rattle.naga_words.specs.Operands.{array_size_of, binding_of, class_of, cooperative_size_of, count_of, handle_of, location_of, nothing_of, only_handle_of, only_of, optional_component_of, pointed_size_of, resource_binding_of, scalar_of, shape_of, size_of, source_of, space_of, width_of, zero_of};
ghost use Rattle.naga_words.specs.Reading.{read_each};
ghost use Rattle.naga_draft.specs.declared.unread.Unread.TheVariants as unread;
ghost use Rattle.std.specs.Prelude.{◌≡◌, IfErr, IfOk, None, Some, slice_get};

use crate::tables::{MATH_FUNCTIONS, interpolation, sampling, storage_format};
use naga_draft::unread::Unread;
use naga_ir::built_in::BuiltIn;
use naga_ir::expression::{
    BinaryOperator, CooperativeShape, MathFunction, RelationalFunction, SwizzleComponent,
    UnaryOperator,
};
use naga_ir::handle::Handle;
use naga_ir::ir::ResourceBinding;
use naga_ir::list::List;
use naga_ir::statement::SubgroupOperation;
use naga_ir::tags::ExpressionTag;
use naga_ir::types::{
    AddressSpace, ArraySize, Binding, CooperativeRole, CooperativeSize, ImageClass, ImageDimension,
    Scalar, ScalarKind, StorageAccess, VectorSize,
};
use std::alloc::Global;
use std::num::NonZeroU32;

/// The word that stands for nothing.
pub const NONE: u32 = u32::MAX;

/// The handle of an index, or `None` for the word that stands for nothing.
pub(crate) fn handle<K>(word: u32) -> Option<Handle<K>>
    ensures { result ≡ handle_of word }
{
    if word == NONE {
        None
    } else {
        Some(Handle::new(word))
    }
}

/// That there are no operands.
pub(crate) fn nothing(operands: &[u32]) -> Option<()>
    ensures { result ≡ nothing_of operands.now }
{
    let [] = operands else { return None };
    Some(())
}

/// The one operand.
pub(crate) fn only(operands: &[u32]) -> Option<u32>
    ensures { result ≡ only_of operands.now }
{
    let [word] = operands else { return None };
    Some(*word)
}

/// The one operand, an index.
pub(crate) fn only_handle<K>(operands: &[u32]) -> Option<Handle<K>>
    ensures { result ≡ only_handle_of operands.now }
{
    handle(only(operands)?)
}

/// A number, unless it is the word that stands for nothing.
pub(crate) fn index(word: u32) -> Option<usize>
    ensures { result ≡ handle_of word }
{
    if word == NONE {
        None
    } else {
        Some(word as usize)
    }
}

/// The value at the place of a word in a table, if there is one.
pub(crate) fn chosen<T: Copy>(table: &[T], word: u32) -> Option<T>
    ensures { result ≡ slice_get table.now word }
{
    match table.get(word as usize) {
        Some(value) => Some(*value),
        None => None,
    }
}

/// A bool: 0 or 1.
pub(crate) fn boolean(word: u32) -> Option<bool>
    ensures { result ≡ slice_get bools word }
{
    chosen(&[false, true], word)
}

/// A word that has to be 0.
pub(crate) fn zero(word: u32) -> Option<()>
    ensures { result ≡ zero_of word }
{
    if word == 0 { Some(()) } else { None }
}

/// The kind of a scalar.
pub(crate) fn kind(word: u32) -> Option<ScalarKind>
    ensures { result ≡ slice_get kinds word }
{
    chosen(
        &[
            ScalarKind::Sint,
            ScalarKind::Uint,
            ScalarKind::Float,
            ScalarKind::Bool,
            ScalarKind::AbstractInt,
            ScalarKind::AbstractFloat,
        ],
        word,
    )
}

/// A width in bytes.
pub(crate) fn width(word: u32) -> Option<u8>
    ensures { result ≡ width_of word }
{
    u8::try_from(word).ok()
}

/// A scalar: its kind and its width.
pub(crate) fn scalar(of_kind: u32, of_width: u32) -> Option<Scalar>
    ensures { result ≡ scalar_of of_kind of_width }
{
    Some(Scalar {
        kind: kind(of_kind)?,
        width: width(of_width)?,
    })
}

/// The number of components of a vector, or of columns or rows of a matrix.
pub(crate) fn size(word: u32) -> Option<VectorSize>
    ensures { result ≡ size_of word }
{
    match word {
        2 => Some(VectorSize::Bi),
        3 => Some(VectorSize::Tri),
        4 => Some(VectorSize::Quad),
        _ => None,
    }
}

/// The number of components that a value pointer points to. A scalar is 0.
pub(crate) fn pointed_size(word: u32) -> Option<Option<VectorSize>>
    ensures { result ≡ pointed_size_of word }
{
    if word == 0 {
        return Some(None);
    }
    Some(Some(size(word)?))
}

/// The number of columns or rows of a cooperative matrix.
pub(crate) fn cooperative_size(word: u32) -> Option<CooperativeSize>
    ensures { result ≡ cooperative_size_of word }
{
    match word {
        8 => Some(CooperativeSize::Eight),
        16 => Some(CooperativeSize::Sixteen),
        _ => None,
    }
}

/// Which operand a cooperative matrix is.
pub(crate) fn role(word: u32) -> Option<CooperativeRole>
    ensures { result ≡ slice_get roles word }
{
    chosen(
        &[CooperativeRole::A, CooperativeRole::B, CooperativeRole::C],
        word,
    )
}

/// What may be done with a storage image or buffer.
fn storage(load: bool, store: bool, atomic: bool) -> StorageAccess
    ensures { result ≡ record { load = load; store = store; atomic = atomic } }
{
    StorageAccess {
        load,
        store,
        atomic,
    }
}

/// What a storage image or buffer may be used for: the sum of 1 for loads, 2 for stores and 4 for atomics.
fn access(word: u32) -> Option<StorageAccess>
    ensures { result ≡ slice_get accesses word }
{
    chosen(
        &[
            storage(false, false, false),
            storage(true, false, false),
            storage(false, true, false),
            storage(true, true, false),
            storage(false, false, true),
            storage(true, false, true),
            storage(false, true, true),
            storage(true, true, true),
        ],
        word,
    )
}

/// An address space: its number, and the access of storage, which every other space has not.
pub(crate) fn space(word: u32, accesses: u32) -> Option<AddressSpace>
    ensures { result ≡ space_of word accesses }
{
    if word == 4 {
        let access = access(accesses)?;
        return Some(AddressSpace::Storage { access });
    }
    zero(accesses)?;
    match word {
        0 => Some(AddressSpace::Function),
        1 => Some(AddressSpace::Private),
        2 => Some(AddressSpace::WorkGroup),
        3 => Some(AddressSpace::Uniform),
        5 => Some(AddressSpace::Handle),
        6 => Some(AddressSpace::Immediate),
        7 => Some(AddressSpace::TaskPayload),
        8 => Some(AddressSpace::RayPayload),
        9 => Some(AddressSpace::IncomingRayPayload),
        _ => None,
    }
}

/// A number as a count, which 0 is not.
fn count(number: u32) -> Option<NonZeroU32>
    ensures { result ≡ count_of number }
{
    NonZeroU32::new(number)
}

/// How many elements an array has.
pub(crate) fn array_size(form: u32, number: u32) -> Option<ArraySize>
    ensures { result ≡ array_size_of form number }
{
    match form {
        0 => Some(ArraySize::Constant(count(number)?)),
        1 => Some(ArraySize::Pending(handle(number)?)),
        2 => {
            zero(number)?;
            Some(ArraySize::Dynamic)
        }
        _ => None,
    }
}

/// The source of blending of a form of a location, which one form has.
fn source(form: u32, number: u32) -> Option<Option<u32>>
    ensures { result ≡ source_of form number }
{
    match form {
        2 => {
            zero(number)?;
            Some(None)
        }
        3 => Some(Some(number)),
        _ => None,
    }
}

/// A location: four bytes that say its form, how and where its value is made and whether it is that of a primitive, its
/// number, and the source of blending.
fn location(form: u32, number: u32, of_source: u32) -> Option<Binding>
    ensures { result ≡ location_of form number of_source }
{
    Some(Binding::Location {
        location: number,
        blend_src: source(form % 256, of_source)?,
        interpolation: interpolation(form / 256 % 256)?,
        sampling: sampling(form / 65536 % 256)?,
        per_primitive: boolean(form / 16777216)?,
    })
}

/// Where a value comes from or goes to.
pub(crate) fn binding(form: u32, number: u32, source: u32) -> Option<Option<Binding>>
    ensures { result ≡ binding_of form number source }
{
    match form {
        0 => {
            zero(number)?;
            zero(source)?;
            Some(None)
        }
        1 => {
            zero(source)?;
            Some(Some(Binding::BuiltIn(BuiltIn::from_number(number)?)))
        }
        _ => Some(Some(location(form, number, source)?)),
    }
}

/// Where a pipeline binds a resource.
pub(crate) fn resource_binding(
    form: u32,
    group: u32,
    binding: u32,
) -> Option<Option<ResourceBinding>>
    ensures { result ≡ resource_binding_of form group binding }
{
    match form {
        0 => {
            zero(group)?;
            zero(binding)?;
            Some(None)
        }
        1 => Some(Some(ResourceBinding { group, binding })),
        _ => None,
    }
}

/// The shape of a cooperative matrix.
pub(crate) fn shape(columns: u32, rows: u32, of_role: u32) -> Option<CooperativeShape>
    ensures { result ≡ shape_of columns rows of_role }
{
    Some(CooperativeShape {
        columns: cooperative_size(columns)?,
        rows: cooperative_size(rows)?,
        role: role(of_role)?,
    })
}

/// The dimension of an image.
pub(crate) fn dimension(word: u32) -> Option<ImageDimension>
    ensures { result ≡ slice_get dimensions word }
{
    chosen(
        &[
            ImageDimension::D1,
            ImageDimension::D2,
            ImageDimension::D3,
            ImageDimension::Cube,
        ],
        word,
    )
}

/// The class of an image.
pub(crate) fn class(form: u32, first: u32, second: u32) -> Option<ImageClass>
    ensures { result ≡ class_of form first second }
{
    match form {
        0 => Some(ImageClass::Sampled {
            kind: kind(first)?,
            multi: boolean(second)?,
        }),
        1 => {
            zero(second)?;
            Some(ImageClass::Depth {
                multi: boolean(first)?,
            })
        }
        2 => Some(ImageClass::Storage {
            format: storage_format(first)?,
            access: access(second)?,
        }),
        3 => {
            zero(first)?;
            zero(second)?;
            Some(ImageClass::External)
        }
        _ => None,
    }
}

/// A component of a vector.
pub(crate) fn component(word: u32) -> Option<SwizzleComponent>
    ensures { result ≡ slice_get components word }
{
    chosen(
        &[
            SwizzleComponent::X,
            SwizzleComponent::Y,
            SwizzleComponent::Z,
            SwizzleComponent::W,
        ],
        word,
    )
}

/// A component of a vector, or none.
pub(crate) fn optional_component(word: u32) -> Option<Option<SwizzleComponent>>
    ensures { result ≡ optional_component_of word }
{
    if word == NONE {
        return Some(None);
    }
    Some(Some(component(word)?))
}

/// An operator on one value.
pub(crate) fn unary_operator(word: u32) -> Option<UnaryOperator>
    ensures { result ≡ slice_get unary_operators word }
{
    chosen(
        &[
            UnaryOperator::Negate,
            UnaryOperator::LogicalNot,
            UnaryOperator::BitwiseNot,
        ],
        word,
    )
}

/// An operator on two values.
pub(crate) fn binary_operator(word: u32) -> Option<BinaryOperator>
    ensures { result ≡ slice_get binary_operators word }
{
    chosen(
        &[
            BinaryOperator::Add,
            BinaryOperator::Subtract,
            BinaryOperator::Multiply,
            BinaryOperator::Divide,
            BinaryOperator::Modulo,
            BinaryOperator::Equal,
            BinaryOperator::NotEqual,
            BinaryOperator::Less,
            BinaryOperator::LessEqual,
            BinaryOperator::Greater,
            BinaryOperator::GreaterEqual,
            BinaryOperator::And,
            BinaryOperator::ExclusiveOr,
            BinaryOperator::InclusiveOr,
            BinaryOperator::LogicalAnd,
            BinaryOperator::LogicalOr,
            BinaryOperator::ShiftLeft,
            BinaryOperator::ShiftRight,
        ],
        word,
    )
}

/// A query of a bool or number.
pub(crate) fn relational_function(word: u32) -> Option<RelationalFunction>
    ensures { result ≡ slice_get relational_functions word }
{
    chosen(
        &[
            RelationalFunction::All,
            RelationalFunction::Any,
            RelationalFunction::IsNan,
            RelationalFunction::IsInf,
        ],
        word,
    )
}

/// A mathematical function.
pub(crate) fn math_function(word: u32) -> Option<MathFunction>
    ensures { result ≡ slice_get math_functions word }
{
    chosen(&MATH_FUNCTIONS, word)
}

/// What a subgroup makes of the values of its invocations.
pub(crate) fn subgroup_operation(word: u32) -> Option<SubgroupOperation>
    ensures { result ≡ slice_get subgroup_operations word }
{
    chosen(
        &[
            SubgroupOperation::All,
            SubgroupOperation::Any,
            SubgroupOperation::Add,
            SubgroupOperation::Mul,
            SubgroupOperation::Min,
            SubgroupOperation::Max,
            SubgroupOperation::And,
            SubgroupOperation::Or,
            SubgroupOperation::Xor,
        ],
        word,
    )
}

/// The expressions of words, if each is the index of one.
pub(crate) fn expressions(
    alloc: Global,
    words: &[u32],
) -> Result<List<Handle<ExpressionTag>>, Unread>
    ensures found { IfOk result (λ read. read_each handle_of words.now ≡ Some read) }
    ensures none { IfErr result (λ e. e ≡ unread.Item → read_each handle_of words.now ≡ None) }
{
    let mut expressions = List::new(alloc);
    for word in words {
        match handle(*word) {
            Some(expression) => expressions.push(expression)?,
            None => return Err(Unread::Item),
        }
    }
    Ok(expressions)
}
