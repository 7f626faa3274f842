//! Answers about mathematical functions: the lists of types that each takes, and what it returns.

ghost use Rattle.std.specs.Prelude.{◌≡◌, ◌<◌, All, IfOk, IfSome, IsTrue, map, vec_items};
ghost use Rattle.naga_ir.specs.Handles.{HandlesAccepted};
ghost use Rattle.naga_ir.specs.ItemReferences.{expression_references};
ghost use Rattle.naga_query.specs.Calls.{AreExpressionsBelow};
ghost use Rattle.naga_typing.specs.declared.typifier.TypeResolution.TheVariants as resolution;

use crate::answers::modules::add_not_applicable;
use naga_module_text::tables::math_function;
use naga_valid::{
    Expression, ExpressionTag, FullTyping, Handle, MathFunction, Module, OutOfMemory, PlainTyping,
    ResolveError, TypeInner, TypeResolution, TypeTag, Typing,
};
use std::alloc::{AllocError, Global};

/// How many types a module may have so that the lists of them are tried.
const MOST_TYPES: usize = 100;

/// The number of arguments that an expression has room for.
const MOST_ARGUMENTS: usize = 4;

/// Types that are tried as arguments.
type Arguments = Vec<Handle<TypeTag>>;

/// What lists of types are tried with, besides a typing.
#[derive(Clone, Copy)]
struct Trial<'a> {
    alloc: Global,
    module: &'a Module,
    fun: MathFunction,
}

/// Adds the name of a type, or its index if it has none.
fn add_name(answer: &mut String, module: &Module, ty: Handle<TypeTag>) -> Result<(), AllocError> {
    let index = ty.index();
    if let Some(ty) = module.types.as_slice().get(index)
        && let Some(name) = &ty.name
    {
        return answer.push_str(name.as_str());
    }
    write!(answer, "T{index}")
}

/// Adds the names of types.
fn add_names(
    answer: &mut String,
    module: &Module,
    list: &[Handle<TypeTag>],
) -> Result<(), AllocError> {
    for (place, ty) in list.iter().enumerate() {
        if place > 0 {
            answer.push(' ')?;
        }
        add_name(answer, module, *ty)?;
    }
    Ok(())
}

/// Adds the type that a function returns: the name of an equal type of the module, if there is one.
fn add_returned(
    answer: &mut String,
    module: &Module,
    returned: &Result<TypeResolution, ResolveError>,
) -> Result<(), OutOfMemory> {
    match returned {
        Ok(TypeResolution::Value(inner)) => {
            let types = module.types.as_slice();
            match types.iter().position(|ty| ty.inner == *inner) {
                Some(index) if index < MOST_TYPES => {
                    add_name(answer, module, Handle::new(index as u32))?;
                }
                _ => write!(answer, "{inner:?}")?,
            }
        }
        Ok(TypeResolution::Handle(ty)) => write!(answer, "handle {ty:?}")?,
        Err(ResolveError::OutOfMemory) => return Err(OutOfMemory),
        Err(error) => write!(answer, "{error:?}")?,
    }
    Ok(())
}

/// The forms of types of a module.
fn forms_of<'a>(
    alloc: Global,
    module: &'a Module,
    list: &[Handle<TypeTag>],
) -> Result<Vec<&'a TypeInner>, AllocError> {
    let mut forms = Vec::new(alloc);
    for ty in list {
        if let Some(ty) = module.types.as_slice().get(ty.index()) {
            forms.push(&ty.inner)?;
        }
    }
    Ok(forms)
}

/// What is resolved for expressions of these types.
fn resolutions_of(
    alloc: Global,
    list: &[Handle<TypeTag>],
) -> Result<Vec<TypeResolution>, OutOfMemory>
    ensures { IfOk result (λ resolutions. vec_items resolutions ≡ map resolution.Handle list.now) }
{
    Ok(
        list.iter()
            .map(|ty| TypeResolution::Handle(*ty))
            .collect(alloc)?,
    )
}

/// The expression of a place, if it is one of the first so many.
fn argument_at(place: u32, count: usize) -> Option<Handle<ExpressionTag>>
    requires { place < 4 }
    ensures { IfSome result (λ e. e < count) }
{
    if (place as usize) < count {
        Some(Handle::new(place))
    } else {
        None
    }
}

/// A function of the first so many expressions.
fn call_of(fun: MathFunction, count: usize) -> Expression
    requires { 0 < count }
    ensures { AreExpressionsBelow count (expression_references result) }
{
    Expression::Math {
        fun,
        arg: Handle::new(0),
        arg1: argument_at(1, count),
        arg2: argument_at(2, count),
        arg3: argument_at(3, count),
    }
}

/// Whether all of some types are among the first `count`.
fn all_below(list: &[Handle<TypeTag>], count: usize) -> bool
    ensures { IsTrue result → All (λ t. t < count) list.now }
{
    list.iter().all(|ty| ty.index() < count)
}

/// Whether the function accepts types.
fn accepts<T: Typing>(
    trial: Trial<'_>,
    typing: &T,
    list: &[Handle<TypeTag>],
) -> Result<bool, AllocError> {
    let forms = forms_of(trial.alloc, trial.module, list)?;
    Ok(typing.accepts(trial.fun, &forms))
}

/// The least number of arguments of the function that begins with types.
fn least<T: Typing>(
    trial: Trial<'_>,
    typing: &T,
    list: &[Handle<TypeTag>],
) -> Result<usize, AllocError> {
    let forms = forms_of(trial.alloc, trial.module, list)?;
    Ok(typing.min_arguments(trial.fun, &forms))
}

/// What the function returns for arguments of types.
fn returned<T: Typing>(
    trial: Trial<'_>,
    typing: &T,
    list: &[Handle<TypeTag>],
) -> Result<TypeResolution, ResolveError>
    requires { HandlesAccepted trial.«module».now }
{
    if list.is_empty() || !all_below(list, trial.module.types.len()) {
        return Err(ResolveError::NotResolvable);
    }
    let earlier = resolutions_of(trial.alloc, list)?;
    let call = call_of(trial.fun, list.len());
    typing.resolve(trial.alloc, trial.module, &call, &earlier)
}

/// Adds types that the function accepts, what it returns for them, and how many there have to be, if more.
fn add_accepted<T: Typing>(
    trial: Trial<'_>,
    typing: &T,
    answer: &mut String,
    list: &[Handle<TypeTag>],
) -> Result<(), OutOfMemory>
    requires { HandlesAccepted trial.«module».now }
{
    add_names(answer, trial.module, list)?;
    answer.push_str(" -> ")?;
    add_returned(answer, trial.module, &returned(trial, typing, list))?;
    let least = least(trial, typing, list)?;
    if least > list.len() {
        write!(answer, ", least {least}")?;
    }
    answer.push('\n')?;
    Ok(())
}

/// Tries a list with each type of the module behind it. Adds the accepted ones, and keeps them, and all of one
/// type.
fn extend<T: Typing>(
    trial: Trial<'_>,
    typing: &T,
    answer: &mut String,
    list: &[Handle<TypeTag>],
    longer: &mut Vec<Arguments>,
) -> Result<(), OutOfMemory>
    requires { HandlesAccepted trial.«module».now }
{
    for index in 0..trial.module.types.len().min(MOST_TYPES) {
        let mut types = list.to_vec(trial.alloc)?;
        types.push(Handle::new(index as u32))?;
        let is_accepted = accepts(trial, typing, &types)?;
        if is_accepted {
            add_accepted(trial, typing, answer, &types)?;
        }
        if is_accepted || list.is_empty() {
            longer.push(types)?;
        }
    }
    Ok(())
}

/// Tries each of some lists with each type of the module behind it.
fn extend_all<T: Typing>(
    trial: Trial<'_>,
    typing: &T,
    answer: &mut String,
    lists: &[Arguments],
) -> Result<Vec<Arguments>, OutOfMemory>
    requires { HandlesAccepted trial.«module».now }
{
    let mut longer = Vec::new(trial.alloc);
    for list in lists {
        extend(trial, typing, answer, list, &mut longer)?;
    }
    Ok(longer)
}

/// The least number of arguments of the function, and a line for each list of types that it accepts: of all
/// single types, of all pairs, and of the accepted lists with one more type.
fn overloads<T: Typing>(trial: Trial<'_>, typing: &T) -> Result<String, OutOfMemory>
    requires { HandlesAccepted trial.«module».now }
{
    let mut answer = String::new(trial.alloc);
    let least = least(trial, typing, &[])?;
    write!(answer, "least {least}\n")?;
    let mut lists = Vec::new(trial.alloc);
    lists.push(Vec::new(trial.alloc))?;
    for _ in 0..MOST_ARGUMENTS {
        lists = extend_all(trial, typing, &mut answer, &lists)?;
    }
    Ok(answer)
}

/// Adds the overloads of a function, unless those before were the same.
fn add_new(
    answer: &mut String,
    before: &mut String,
    fun: MathFunction,
    found: String,
) -> Result<(), AllocError> {
    if found.as_str() == before.as_str() {
        return Ok(());
    }
    if !before.is_empty() {
        write!(answer, "{fun:?} differs\n")?;
    }
    answer.push_str(found.as_str())?;
    *before = found;
    Ok(())
}

/// Adds the overloads of a function by the plain typing and by the full one, unless those before were the same.
fn add_by_both(
    alloc: Global,
    answer: &mut String,
    before: &mut String,
    module: &Module,
    fun: MathFunction,
) -> Result<(), OutOfMemory>
    requires { HandlesAccepted «module».now }
{
    let trial = Trial { alloc, module, fun };
    add_new(answer, before, fun, overloads(trial, &PlainTyping)?)?;
    add_new(answer, before, fun, overloads(trial, &FullTyping)?)?;
    Ok(())
}

/// `overloads FUN..`: adds the lists of types of the module that the functions take, once for all of them if these are
/// the same.
pub fn add_overloads(
    alloc: Global,
    answer: &mut String,
    module: &Module,
    words: &[&[u8]],
) -> Result<(), OutOfMemory>
    requires { HandlesAccepted «module».now }
{
    if words.is_empty() {
        return Ok(add_not_applicable(answer, "no function")?);
    }
    if module.types.len() > MOST_TYPES {
        return Ok(add_not_applicable(answer, "more than 100 types")?);
    }
    let mut before = String::new(alloc);
    for word in words {
        match math_function(word) {
            Some(fun) => add_by_both(alloc, answer, &mut before, module, fun)?,
            None => return Ok(add_not_applicable(answer, "not a function")?),
        }
    }
    Ok(())
}
