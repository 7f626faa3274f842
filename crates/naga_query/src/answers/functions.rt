//! Answers about the expressions of functions: the stages that may use each.

ghost use Rattle.std.specs.Prelude.{◌≡◌, ◌<◌, ◌≤◌, ℕ, IfOk, IsTrue, OnOk, Some, [], length};
ghost use Rattle.naga_ir.specs.ItemReferences.{global_lists};
ghost use Rattle.naga_ir.specs.declared.expression.Expression.TheVariants as form;
ghost use Rattle.naga_query.specs.Accepted.{AreFunctionsKnown, ArgumentsAreThere, CanValidateIn, IsAcceptedModule, IsFunctionAt, IsKnownBefore, IsThereOrArgument};
ghost use Rattle.naga_typing.specs.Resolutions.{IsProperResolution, ResolutionExists};
ghost use Rattle.naga_typing.specs.Typings.{CanResolve};

use crate::answers::modules::{add_error, add_not_applicable};
use crate::callable::{FunctionAt, callable_at, function_of};
use crate::session::Session;
use bitflags::Flags;
use naga_module_text::declarations::{Callable, Declared};
use naga_module_text::draft::Draft;
use naga_report::report::{report_accepted, report_refused};
use naga_valid::{
    Expression, ExpressionError, ExpressionKindTracker, ExpressionTag, Function, FunctionInfo,
    Handle, Module, ModuleInfo, OutOfMemory, PlainTyping, ResolveError, Scalar, ShaderStages,
    TypeInner, TypeResolution, Typing, ValidationError, Validator,
};
use std::alloc::{AllocError, Global};

/// The type of an expression: the one that its line declares, or what the plain typing resolves, or bool.
pub fn type_of(
    alloc: Global,
    module: &Module,
    expression: &Expression,
    declared: Declared,
    earlier: &[TypeResolution],
) -> Result<TypeResolution, OutOfMemory>
    requires can_resolve { CanResolve «module».now expression.now earlier.now }
    ensures exists { IfOk result (λ r. ResolutionExists (global_lists «module».now) r) }
    ensures proper { IfOk result IsProperResolution }
{
    if let Some(ty) = declared.ty
        && ty.index() < module.types.len()
    {
        return Ok(TypeResolution::Handle(ty));
    }
    match PlainTyping.resolve(alloc, module, expression, earlier) {
        Ok(resolution) => Ok(resolution),
        Err(ResolveError::OutOfMemory) => Err(OutOfMemory),
        Err(_) => Ok(TypeResolution::Value(TypeInner::Scalar(Scalar::BOOL))),
    }
}

/// What the rule of an expression returns.
type Validated = Result<ShaderStages, ExpressionError>;

/// Adds the stages that may use an expression, in hexadecimal.
fn add_stages(answer: &mut String, stages: ShaderStages) -> Result<(), AllocError> {
    let bits = stages.bits();
    write!(answer, "{bits:x}\n")
}

/// Adds the stages that may use an expression, or the variant of the error.
fn add_in_short(answer: &mut String, validated: &Validated) -> Result<(), OutOfMemory> {
    match validated {
        Ok(stages) => Ok(add_stages(answer, *stages)?),
        Err(ExpressionError::OutOfMemory) => Err(OutOfMemory),
        Err(error) => {
            let name = error.name();
            write!(answer, "refused {name}\n")?;
            Ok(())
        }
    }
}

/// Adds the stages that may use an expression, or the whole error.
fn add_whole(answer: &mut String, validated: &Validated) -> Result<(), OutOfMemory> {
    match validated {
        Ok(stages) => Ok(add_stages(answer, *stages)?),
        Err(ExpressionError::OutOfMemory) => Err(OutOfMemory),
        Err(error) => {
            write!(answer, "{error:?}\n")?;
            Ok(())
        }
    }
}

/// Whether an expression is not an argument past the first `count`.
fn argument_exists(expression: &Expression, count: usize) -> bool
    ensures { IsTrue result → (i : ℕ) → expression.now ≡ form.FunctionArgument i → i < count }
{
    match expression {
        Expression::FunctionArgument(index) => (*index as usize) < count,
        _ => true,
    }
}

/// Whether all arguments exist that the expressions of a function name.
fn arguments_exist(function: &Function) -> bool
    ensures { IsTrue result → ArgumentsAreThere function.now }
{
    let expressions = function.expressions.as_slice();
    for index in 0..expressions.len() {
        if !argument_exists(&expressions[index], function.arguments.len()) {
            return false;
        }
    }
    true
}

/// What the expressions of a function are validated with.
#[derive(Clone, Copy)]
struct Surroundings<'a> {
    validator: &'a Validator,
    resolved: bool,
    module: &'a Module,
    info: &'a ModuleInfo,
    function: &'a Function,
    kinds: &'a ExpressionKindTracker,
}

/// Validates an expression at a place: the one that stands there, or an argument.
fn validate_at(
    with: Surroundings<'_>,
    types: &FunctionInfo,
    place: Handle<ExpressionTag>,
    expression: &Expression,
) -> Validated
    requires known { CanValidateIn with.«module».now with.function.now with.info.now.lists }
    requires before { IsKnownBefore (global_lists with.«module».now) with.kinds.now types.now.types place }
    requires there { IsThereOrArgument with.function.now place expression.now }
{
    with.validator.validate_expression(
        with.resolved,
        place,
        expression,
        with.function,
        with.module,
        types,
        with.info,
        with.kinds,
    )
}

/// Validates each expression of a function by its rule, going on after a refusal.
fn validate_each(
    alloc: Global,
    with: Surroundings<'_>,
    declared: &[Declared],
) -> Result<Vec<Validated>, OutOfMemory>
    requires known { CanValidateIn with.«module».now with.function.now with.info.now.lists }
    requires kinds { length with.kinds.now ≡ length with.function.now.expressions }
{
    let mut types = FunctionInfo::new(alloc, ShaderStages::all());
    let mut all = Vec::new(alloc);
    for (place, expression) in with.function.expressions.iter() {
        let declared = declared.get(place.index()).copied().unwrap_or_default();
        let validated = match declared.missing {
            Some(argument) => {
                let missing = Expression::FunctionArgument(argument);
                validate_at(with, &types, place, &missing)
            }
            None => validate_at(with, &types, place, expression),
        };
        all.push(validated)?;
        let earlier = types.types.as_slice();
        let ty = type_of(alloc, with.module, expression, declared, earlier)?;
        types.push(ty)?;
    }
    Ok(all)
}

/// The same of a function whose arguments may be missing: then there is nothing.
fn validate_function(
    session: &Session<PlainTyping>,
    draft: &Draft,
    info: &ModuleInfo,
    at: FunctionAt<'_>,
) -> Result<Option<Vec<Validated>>, OutOfMemory>
    requires known { AreFunctionsKnown draft.now.«module» info.now.lists }
    requires there { IsFunctionAt draft.now.«module» at.function.now at.preceding }
{
    if !arguments_exist(at.function) {
        return Ok(None);
    }
    let alloc = session.alloc();
    let kinds = ExpressionKindTracker::from_arena(alloc, &at.function.expressions)?;
    let with = Surroundings {
        validator: &session.validator,
        resolved: draft.settings.resolved(),
        module: &draft.module,
        info,
        function: at.function,
        kinds: &kinds,
    };
    let declared = draft.declarations.of(at.callable);
    Ok(Some(validate_each(alloc, with, declared)?))
}

/// Validates each expression of a function or an entry point, if it exists.
fn validate_callable(
    session: &Session<PlainTyping>,
    draft: &Draft,
    info: &ModuleInfo,
    callable: Callable,
) -> Result<Option<Vec<Validated>>, OutOfMemory>
    requires { AreFunctionsKnown draft.now.«module» info.now.lists }
{
    match function_of(&draft.module, callable) {
        Some(at) => validate_function(session, draft, info, at),
        None => Ok(None),
    }
}

/// Adds a line for each expression of a function or an entry point: the stages that may use it, or the variant
/// of the error.
fn add_each(answer: &mut String, callable: Callable, all: &[Validated]) -> Result<(), OutOfMemory> {
    for (place, validated) in all.iter().enumerate() {
        write!(answer, "{callable} E{place} ")?;
        add_in_short(answer, validated)?;
    }
    Ok(())
}

/// Adds to the info of a module an info of each function: the stages that its line declares.
fn add_infos(alloc: Global, info: &mut ModuleInfo, draft: &Draft) -> Result<(), OutOfMemory>
    requires none { info.old.lists.functions ≡ [] }
    requires flags { length draft.now.«module».types ≤ length info.old.lists.type_flags }
    ensures functions { OnOk result (length info.new.lists.functions ≡ length draft.now.«module».functions) }
    ensures flags { OnOk result (length draft.now.«module».types ≤ length info.new.lists.type_flags) }
{
    for index in 0..draft.module.functions.len() {
        let stages = draft
            .declarations
            .stages
            .get(index)
            .copied()
            .unwrap_or(ShaderStages::all());
        info.push_function(FunctionInfo::new(alloc, stages))?;
    }
    Ok(())
}

/// Adds a line for each expression of each function and of each entry point.
fn add_of_all(
    session: &Session<PlainTyping>,
    answer: &mut String,
    draft: &Draft,
    info: &ModuleInfo,
) -> Result<(), OutOfMemory>
    requires { AreFunctionsKnown draft.now.«module» info.now.lists }
{
    let module = &draft.module;
    let count = module
        .functions
        .len()
        .saturating_add(module.entry_points.len());
    for place in 0..count {
        let callable = callable_at(module, place);
        match validate_callable(session, draft, info, callable)? {
            Some(all) => add_each(answer, callable, &all)?,
            None => add_not_applicable(answer, "an argument is missing")?,
        }
    }
    Ok(())
}

/// Adds the report on a refused module.
fn add_refused(
    alloc: Global,
    answer: &mut String,
    error: &ValidationError,
) -> Result<(), OutOfMemory> {
    if *error == ValidationError::OutOfMemory {
        return Err(OutOfMemory);
    }
    answer.push_str(report_refused(alloc, error)?.as_str())?;
    Ok(())
}

/// `functions`: adds the report on a module, and, if it is accepted, a line for each expression of its functions.
pub fn add_functions(
    session: &mut Session<PlainTyping>,
    answer: &mut String,
    draft: &Draft,
) -> Result<(), OutOfMemory> {
    let alloc = session.alloc();
    match session.validate(draft) {
        Ok(mut info) => {
            let report = report_accepted(alloc, &draft.module, &session.validator)?;
            answer.push_str(report.as_str())?;
            add_infos(alloc, &mut info, draft)?;
            add_of_all(session, answer, draft, &info)
        }
        Err(error) => add_refused(alloc, answer, error.as_inner()),
    }
}

/// Adds the stages that may use the last expression of a function or an entry point, or the whole error.
fn add_last_of(
    session: &Session<PlainTyping>,
    answer: &mut String,
    draft: &Draft,
    info: &ModuleInfo,
    callable: Callable,
) -> Result<(), OutOfMemory>
    requires { AreFunctionsKnown draft.now.«module» info.now.lists }
{
    let all = validate_callable(session, draft, info, callable)?;
    match all.as_ref().and_then(|all| all.last()) {
        Some(validated) => add_whole(answer, validated),
        None => Ok(add_not_applicable(answer, "no expression")?),
    }
}

/// Adds the stages that may use the last expression of the last function of an accepted module, or the whole
/// error.
fn add_of_accepted(
    session: &Session<PlainTyping>,
    answer: &mut String,
    draft: &Draft,
    info: &mut ModuleInfo,
) -> Result<(), OutOfMemory>
    requires { IsAcceptedModule draft.now.«module» session.now.validator.infos info.old.lists }
{
    add_infos(session.alloc(), info, draft)?;
    match draft.declarations.last {
        Some(last) => add_last_of(session, answer, draft, info, last),
        None => Ok(add_not_applicable(answer, "no function")?),
    }
}

/// `form FORM`: adds the stages that may use the last expression of the last function, or the whole error, or why
/// the module is refused.
pub fn add_last(
    session: &mut Session<PlainTyping>,
    answer: &mut String,
    draft: &Draft,
) -> Result<(), OutOfMemory> {
    match session.validate(draft) {
        Ok(mut info) => add_of_accepted(session, answer, draft, &mut info),
        Err(error) => add_error(answer, &error),
    }
}
