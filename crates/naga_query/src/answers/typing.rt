//! Answers of the typing layer: the types and the kinds of expressions, index constants, sizes, lengths and equal
//! types, and what mathematical functions take.

ghost use Rattle.std.specs.Prelude.{IfSome};
ghost use Rattle.naga_ir.specs.Handles.{ExpressionReferencesOk, FunctionReferencesOk, GlobalReferencesOk, ReferencesPrecede, HandlesAccepted, OrderedOperands};
ghost use Rattle.naga_ir.specs.ItemReferences.{global_lists};
ghost use Rattle.naga_query.specs.Accepted.{AreHandlesRight, IsFunctionAt};
ghost use Rattle.naga_typing.specs.Context.{ReferencesExist};
ghost use Rattle.naga_typing.specs.Typings.{CanResolve};

use crate::answers::functions::type_of;
use crate::answers::modules::{add_fault, add_not_applicable, check_handles};
use crate::callable::{FunctionAt, function_of};
use bitflags::Flags;
use naga_module_text::declarations::{Callable, Declared};
use naga_module_text::draft::Draft;
use naga_module_text::items::only_handle;
use naga_text::number::{handle, index};
use naga_text::words::equals;
use naga_valid::{
    Arena, Expression, ExpressionKindTracker, ExpressionTag, FullTyping, Function, FunctionInfo,
    Handle, Module, OutOfMemory, PlainTyping, ResolveError, ShaderStages, TypeInner,
    TypeResolution, TypeTag, Typing, UntypedExpression, compare_types, get_const_val_from,
    image_storage_coordinates, indexable_length_pending, indexable_length_resolved, infer_types,
    is_sized, size, to_ctx, try_size,
};
use std::alloc::{AllocError, Global};

/// What the two typings resolve for an expression.
#[derive(Drop)]
struct Resolved {
    plain: Result<TypeResolution, ResolveError>,
    full: Result<TypeResolution, ResolveError>,
}

/// Resolves an expression by each typing.
fn resolve_by_both(
    alloc: Global,
    module: &Module,
    expression: &Expression,
    earlier: &[TypeResolution],
) -> Resolved
    requires { CanResolve «module».now expression.now earlier.now }
{
    Resolved {
        plain: PlainTyping.resolve(alloc, module, expression, earlier),
        full: FullTyping.resolve(alloc, module, expression, earlier),
    }
}

/// Resolves the last expression of a function by each typing, if there is one.
fn resolve_last(
    alloc: Global,
    module: &Module,
    function: &Function,
    declared: &[Declared],
) -> Result<Option<Resolved>, OutOfMemory>
    requires handles { HandlesAccepted «module».now }
    requires in_function { ExpressionReferencesOk «module».now function.now }
{
    let mut types = FunctionInfo::new(alloc, ShaderStages::all());
    let mut last = None;
    for (place, expression) in function.expressions.iter() {
        let earlier = types.types.as_slice();
        last = Some(resolve_by_both(alloc, module, expression, earlier));
        let declared = declared.get(place.index()).copied().unwrap_or_default();
        let ty = type_of(alloc, module, expression, declared, earlier)?;
        types.push(ty)?;
    }
    Ok(last)
}

/// Adds what the typings resolve: once if it is the same, else first by the plain one.
fn add_resolved(answer: &mut String, resolved: &Resolved) -> Result<(), OutOfMemory> {
    let Resolved { plain, full } = resolved;
    let refused = Err(ResolveError::OutOfMemory);
    if *plain == refused || *full == refused {
        return Err(OutOfMemory);
    }
    if *plain == *full {
        write!(answer, "{plain:?}\n")?;
    } else {
        write!(answer, "plain {plain:?}, full {full:?}\n")?;
    }
    Ok(())
}

/// The last function, or the function of the last entry point.
fn last_function(draft: &Draft) -> Option<FunctionAt<'_>>
    ensures { IfSome result (λ at. IsFunctionAt draft.now.«module» at.function.now at.preceding) }
{
    function_of(&draft.module, draft.declarations.last?)
}

/// Adds the type of the last expression of the last function.
fn add_type_of_last(alloc: Global, answer: &mut String, draft: &Draft) -> Result<(), OutOfMemory>
    requires { AreHandlesRight draft.now.«module» }
{
    let Some(at) = last_function(draft) else {
        return Ok(add_not_applicable(answer, "no function")?);
    };
    let declared = draft.declarations.of(at.callable);
    match resolve_last(alloc, &draft.module, at.function, declared)? {
        Some(resolved) => add_resolved(answer, &resolved),
        None => Ok(add_not_applicable(answer, "no expression")?),
    }
}

/// `typing FORM`: adds the type that each typing resolves for the last expression of the last function, or which
/// handle is wrong.
pub fn add_last_typed(
    alloc: Global,
    answer: &mut String,
    draft: &Draft,
) -> Result<(), OutOfMemory> {
    match check_handles(alloc, &draft.module) {
        Ok(()) => add_type_of_last(alloc, answer, draft),
        Err(fault) => Ok(add_fault(answer, &fault)?),
    }
}

/// The expressions of the last function, or the global ones if there is none.
fn expressions_of(draft: &Draft) -> &Arena<Expression, ExpressionTag>
    requires { AreHandlesRight draft.now.«module» }
    ensures { ReferencesPrecede (OrderedOperands result.now) }
{
    match last_function(draft) {
        Some(at) => &at.function.expressions,
        None => &draft.module.global_expressions,
    }
}

/// `kind E`: adds when the value of an expression is known.
pub fn add_kind(
    alloc: Global,
    answer: &mut String,
    draft: &Draft,
    words: &[&[u8]],
) -> Result<(), OutOfMemory>
    requires { AreHandlesRight draft.now.«module» }
{
    let expressions = expressions_of(draft);
    let expression = match only_handle(words) {
        Some(expression) if expression.index() < expressions.len() => expression,
        _ => return Ok(add_not_applicable(answer, "no such expression")?),
    };
    let kinds = ExpressionKindTracker::from_arena(alloc, expressions)?;
    let kind = if kinds.is_const(expression) {
        "const"
    } else if kinds.is_const_or_override(expression) {
        "override"
    } else {
        "runtime"
    };
    write!(answer, "{kind}\n")?;
    Ok(())
}

/// The type of a query, if there is such a type.
fn inner_of<'a>(module: &'a Module, words: &[&[u8]]) -> Option<&'a TypeInner>
    requires { GlobalReferencesOk (global_lists «module».now) }
    ensures { IfSome result (λ inner. ReferencesExist (global_lists «module».now) inner.now) }
{
    let ty: Handle<TypeTag> = only_handle(words)?;
    if ty.index() < module.types.len() {
        return Some(&module.types[ty].inner);
    }
    None
}

/// `length T`: adds how many elements of a type can be indexed, before and after overrides have their values: once
/// if it is the same.
pub fn add_length(answer: &mut String, module: &Module, words: &[&[u8]]) -> Result<(), AllocError>
    requires { GlobalReferencesOk (global_lists «module».now) }
{
    let Some(inner) = inner_of(module, words) else {
        return add_not_applicable(answer, "no such type");
    };
    let pending = indexable_length_pending(inner, module);
    let resolved = indexable_length_resolved(inner, module);
    if pending == resolved {
        write!(answer, "{pending:?}\n")
    } else {
        write!(answer, "pending {pending:?}, resolved {resolved:?}\n")
    }
}

/// Adds the size of a type in bytes, by both calls if they differ.
fn add_bytes(answer: &mut String, module: &Module, inner: &TypeInner) -> Result<(), AllocError>
    requires exist { ReferencesExist (global_lists «module».now) inner.now }
    requires references { GlobalReferencesOk (global_lists «module».now) }
{
    let Some(bytes) = try_size(inner, to_ctx(module)) else {
        return answer.push_str("above 4294967295");
    };
    write!(answer, "{bytes}")?;
    let unchecked = size(inner, to_ctx(module));
    if unchecked != bytes {
        write!(answer, " or {unchecked}")?;
    }
    Ok(())
}

/// `size T`: adds the size of a type in bytes, whether it is fixed in the module, and the dimension of the storage
/// images in which values of the type are coordinates.
pub fn add_size(answer: &mut String, module: &Module, words: &[&[u8]]) -> Result<(), AllocError>
    requires { GlobalReferencesOk (global_lists «module».now) }
{
    let Some(inner) = inner_of(module, words) else {
        return add_not_applicable(answer, "no such type");
    };
    add_bytes(answer, module, inner)?;
    answer.push_str(if is_sized(inner) {
        ", sized"
    } else {
        ", not sized"
    })?;
    if let Some(dimension) = image_storage_coordinates(inner) {
        write!(answer, ", coordinates {dimension:?}")?;
    }
    answer.push('\n')
}

/// The types of a query.
fn two_types(words: &[&[u8]]) -> Option<(Handle<TypeTag>, Handle<TypeTag>)> {
    let [lhs, rhs] = words else { return None };
    Some((handle(lhs)?, handle(rhs)?))
}

/// `same T T`: adds whether two types are the same.
pub fn add_same(answer: &mut String, module: &Module, words: &[&[u8]]) -> Result<(), AllocError>
    requires { GlobalReferencesOk (global_lists «module».now) }
{
    let types = &module.types;
    match two_types(words) {
        Some((lhs, rhs)) if lhs.index() < types.len() && rhs.index() < types.len() => {
            let lhs = TypeResolution::Handle(lhs);
            let rhs = TypeResolution::Handle(rhs);
            let same = compare_types(&lhs, &rhs, types);
            write!(answer, "{same:?}\n")
        }
        _ => add_not_applicable(answer, "no such types"),
    }
}

/// `index E`: adds the index that a global expression gives.
pub fn add_index(answer: &mut String, module: &Module, words: &[&[u8]]) -> Result<(), AllocError>
    requires { GlobalReferencesOk (global_lists «module».now) }
{
    let expressions = &module.global_expressions;
    match only_handle(words) {
        Some(expression) if expression.index() < expressions.len() => {
            let index = get_const_val_from(expression, expressions, to_ctx(module));
            write!(answer, "{index:?}\n")
        }
        _ => add_not_applicable(answer, "no such expression"),
    }
}

/// Adds the types of the first expressions of a function, and the stages that may use the function.
fn add_info(answer: &mut String, info: &FunctionInfo) -> Result<(), AllocError> {
    for (place, ty) in info.types.as_slice().iter().enumerate() {
        write!(answer, "E{place} {ty:?}\n")?;
    }
    let bits = info.available_stages.bits();
    write!(answer, "stages {bits:x}\n")
}

/// Adds the types of the expressions before the first without a type, and why that one has none.
fn add_untyped(answer: &mut String, untyped: &UntypedExpression) -> Result<(), OutOfMemory> {
    if untyped.error == ResolveError::OutOfMemory {
        return Err(OutOfMemory);
    }
    add_info(answer, &untyped.info)?;
    write!(answer, "{untyped}\n")?;
    Ok(())
}

/// Adds the types of the expressions of a function.
fn add_inferred<T: Typing>(
    alloc: Global,
    answer: &mut String,
    module: &Module,
    function: &Function,
    typing: &T,
) -> Result<(), OutOfMemory>
    requires handles { HandlesAccepted «module».now }
    requires in_function { FunctionReferencesOk «module».now function.now }
{
    match infer_types(alloc, module, function, typing) {
        Ok(info) => Ok(add_info(answer, &info)?),
        Err(untyped) => add_untyped(answer, &untyped),
    }
}

/// `infer plain F` or `infer full F`: adds the types of the expressions of a function by that typing, as far as they
/// have types.
pub fn add_inferred_types(
    alloc: Global,
    answer: &mut String,
    module: &Module,
    words: &[&[u8]],
) -> Result<(), OutOfMemory>
    requires { AreHandlesRight «module».now }
{
    let [typing, at] = words else {
        return Ok(add_not_applicable(answer, "not a typing and an index")?);
    };
    let Some(index) = index(at) else {
        return Ok(add_not_applicable(answer, "not a typing and an index")?);
    };
    let Some(at) = function_of(module, Callable::Function(index)) else {
        return Ok(add_not_applicable(answer, "no such function")?);
    };
    if equals(typing, b"plain") {
        add_inferred(alloc, answer, module, at.function, &PlainTyping)
    } else if equals(typing, b"full") {
        add_inferred(alloc, answer, module, at.function, &FullTyping)
    } else {
        Ok(add_not_applicable(answer, "not a typing")?)
    }
}
