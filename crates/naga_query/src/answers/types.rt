//! Answers about types, and about what is built of them.

ghost use Rattle.std.specs.Prelude.{◌≡◌, ◌<◌, All, IfOk, IsTrue, length};
ghost use Rattle.naga_ir.specs.Handles.{GlobalReferencesOk};
ghost use Rattle.naga_ir.specs.ItemReferences.{global_lists};
ghost use Rattle.naga_typing.specs.Resolutions.{TypesExist};

use crate::answers::modules::add_not_applicable;
use crate::session::Session;
use naga_draft::unread::{Unread, known};
use naga_module_text::items::only_handle;
use naga_module_text::settings::Settings;
use naga_text::literals::literal;
use naga_text::number::{handle, number_up_to};
use naga_text::words::kind;
use naga_valid::{
    ExpressionTag, Handle, Layouter, List, Literal, Module, ModuleInfo, OutOfMemory, PlainTyping,
    Scalar, TypeInfo, TypeLayout, TypeResolution, TypeTag, UniqueArena, to_ctx,
    validate_compose_at,
};
use std::alloc::{AllocError, Global};

/// Adds what is known of a type: its name, its size and alignment in bytes, what it may be used for, and its
/// layouts.
fn add_info(
    answer: &mut String,
    module: &Module,
    handle: Handle<TypeTag>,
    layout: TypeLayout,
    info: TypeInfo,
) -> Result<(), AllocError> {
    let index = handle.index();
    write!(answer, "T{index}")?;
    if let Some(ty) = module.types.as_slice().get(index)
        && let Some(name) = &ty.name
    {
        let name = name.as_str();
        write!(answer, " {name}")?;
    }
    let size = layout.size;
    let alignment = layout.alignment.get();
    write!(answer, ": size {size}, alignment {alignment}, ")?;
    let flags = info.flags;
    let uniform = info.uniform_layout;
    let storage = info.storage_layout;
    let immediates = info.immediates_compatibility;
    write!(
        answer,
        "{flags:?}, uniform {uniform:?}, storage {storage:?}, immediates {immediates:?}\n"
    )
}

/// The layouts of the types of an accepted module.
fn layouts_of(alloc: Global, module: &Module) -> Result<Layouter, OutOfMemory>
    requires { GlobalReferencesOk (global_lists «module».now) }
    ensures { IfOk result (λ layouts. length layouts ≡ length «module».now.types) }
{
    let mut layouter = Layouter::new(alloc);
    match layouter.update(to_ctx(module)) {
        Ok(()) => Ok(layouter),
        Err(_) => Err(OutOfMemory),
    }
}

/// `types`: adds what is known of each type of an accepted module.
pub fn add_types(
    session: &Session<PlainTyping>,
    answer: &mut String,
    module: &Module,
) -> Result<(), OutOfMemory>
    requires references { GlobalReferencesOk (global_lists «module».now) }
    requires infos { length session.now.validator.infos ≡ length «module».now.types }
{
    let layouter = layouts_of(session.alloc(), module)?;
    for index in 0..module.types.len() {
        let ty = Handle::new(index as u32);
        let info = session.validator.type_info(ty);
        add_info(answer, module, ty, layouter[ty], info)?;
    }
    Ok(())
}

/// `type T`: adds what is known of a type of an accepted module.
pub fn add_type(
    session: &Session<PlainTyping>,
    answer: &mut String,
    module: &Module,
    words: &[&[u8]],
) -> Result<(), OutOfMemory>
    requires references { GlobalReferencesOk (global_lists «module».now) }
    requires infos { length session.now.validator.infos ≡ length «module».now.types }
{
    let Some(ty) = only_handle(words) else {
        return Ok(add_not_applicable(answer, "not an index")?);
    };
    if ty.index() >= module.types.len() {
        return Ok(add_not_applicable(answer, "no such type")?);
    }
    let layouter = layouts_of(session.alloc(), module)?;
    let info = session.validator.type_info(ty);
    Ok(add_info(answer, module, ty, layouter[ty], info)?)
}

/// `expressions`: adds the type of each global expression of an accepted module.
pub fn add_expressions(answer: &mut String, info: &ModuleInfo) -> Result<(), AllocError> {
    for (index, ty) in info.const_expression_types().iter().enumerate() {
        write!(answer, "G{index} {ty:?}\n")?;
    }
    Ok(())
}

/// Whether all of some expressions are among the first `count`.
fn all_below(expressions: &[Handle<ExpressionTag>], count: usize) -> bool
    ensures { IsTrue result → All (λ e. e < count) expressions.now }
{
    expressions
        .iter()
        .all(|expression| expression.index() < count)
}

/// Whether the types are there that a type names.
fn exists(resolution: &TypeResolution, types: &UniqueArena) -> bool
    ensures { IsTrue result → TypesExist types.now resolution.now }
{
    match resolution {
        TypeResolution::Handle(ty) => ty.index() < types.len(),
        TypeResolution::Value(inner) => inner.parts().next().is_none(),
    }
}

/// Whether the types are there that some types name.
fn all_exist(resolutions: &[TypeResolution], types: &UniqueArena) -> bool
    ensures { IsTrue result → All (TypesExist types.now) resolutions.now }
{
    resolutions
        .iter()
        .all(|resolution| exists(resolution, types))
}

/// Adds whether a type can be composed of global expressions.
fn add_composed(
    answer: &mut String,
    module: &Module,
    ty: Handle<TypeTag>,
    components: &[Handle<ExpressionTag>],
    types: &[TypeResolution],
) -> Result<(), AllocError>
    requires { GlobalReferencesOk (global_lists «module».now) }
{
    if ty.index() >= module.types.len() {
        return add_not_applicable(answer, "no such type");
    }
    if !all_below(components, types.len()) || !all_exist(types, &module.types) {
        return add_not_applicable(answer, "no such expression");
    }
    match validate_compose_at(ty, to_ctx(module), components, types) {
        Ok(()) => answer.push_str("ok\n"),
        Err(error) => write!(answer, "{error:?}\n"),
    }
}

/// The type and the components of the words of a composition.
fn composition(
    alloc: Global,
    words: &[&[u8]],
) -> Result<(Handle<TypeTag>, List<Handle<ExpressionTag>>), Unread> {
    let (ty, rest) = known(words.split_first())?;
    let ty = known(handle(ty))?;
    let mut components = List::new(alloc);
    for word in rest {
        components.push(known(handle(word))?)?;
    }
    Ok((ty, components))
}

/// `compose T E..`: adds whether a type can be composed of global expressions of an accepted module.
pub fn add_compose(
    alloc: Global,
    answer: &mut String,
    module: &Module,
    info: &ModuleInfo,
    words: &[&[u8]],
) -> Result<(), OutOfMemory>
    requires { GlobalReferencesOk (global_lists «module».now) }
{
    match composition(alloc, words) {
        Ok((ty, components)) => {
            let types = info.const_expression_types();
            Ok(add_composed(answer, module, ty, components.as_slice(), types)?)
        }
        Err(Unread::Item) => Ok(add_not_applicable(answer, "not indices")?),
        Err(Unread::OutOfMemory) => Err(OutOfMemory),
    }
}

/// The literal of a type and a value.
fn literal_of(words: &[&[u8]]) -> Option<Literal> {
    let [ty, value] = words else { return None };
    literal(ty, value)
}

/// `literal L V`: adds whether a literal has a right value and width.
pub fn add_literal(
    session: &mut Session<PlainTyping>,
    answer: &mut String,
    settings: Settings,
    words: &[&[u8]],
) -> Result<(), AllocError> {
    let Some(literal) = literal_of(words) else {
        return add_not_applicable(answer, "not a literal");
    };
    match session.with_settings(settings).validate_literal(literal) {
        Ok(()) => answer.push_str("ok\n"),
        Err(error) => write!(answer, "{error:?}\n"),
    }
}

/// The scalar type of a kind and a width in bytes.
fn scalar(words: &[&[u8]]) -> Option<Scalar> {
    let [of, width] = words else { return None };
    Some(Scalar {
        kind: kind(of)?,
        width: number_up_to(width, 255)? as u8,
    })
}

/// `width K W`: adds whether a scalar type has a right width, and whether immediates may hold it.
pub fn add_width(
    session: &mut Session<PlainTyping>,
    answer: &mut String,
    settings: Settings,
    words: &[&[u8]],
) -> Result<(), AllocError> {
    let Some(scalar) = scalar(words) else {
        return add_not_applicable(answer, "not a kind and a width");
    };
    match session.with_settings(settings).check_width(scalar) {
        Ok(immediates) => write!(answer, "ok, immediates {immediates:?}\n"),
        Err(error) => write!(answer, "{error:?}\n"),
    }
}
