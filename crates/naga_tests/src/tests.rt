//! What the tests share.

ghost use Rattle.std.specs.Prelude.{◌<◌, All, IsTrue, length};
ghost use Rattle.naga_ir.specs.Handles.{GlobalReferencesOk};
ghost use Rattle.naga_ir.specs.ItemReferences.{global_lists};
ghost use Rattle.naga_typing.specs.Resolutions.{TypesExist};

mod compose;
mod const_expressions;
mod declarations;
mod deep_types;
mod expression_errors;
mod flags;
mod function_errors;
mod handle_errors;
mod large;
mod laws;
mod layouts;
mod library;
mod module_infos;
mod more_capabilities;
mod nested_blocks;
mod packing;
mod run;
mod slots;
mod structs;
mod text;
mod type_errors;
mod type_infos;
mod typings;
mod valid;

use naga_flags::flags::Capabilities;
use naga_handles::handles::validate_module_handles;
use naga_ir::alignment::Alignment;
use naga_ir::expression::Expression;
use naga_ir::handle::Handle;
use naga_ir::ir::Module;
use naga_ir::memory::OutOfMemory;
use naga_ir::span::Span;
use naga_ir::tags::{ExpressionTag, TypeTag};
use naga_ir::types::{Type, TypeInner};
use naga_ir::unique_arena::UniqueArena;
use naga_text::text::read_text;
use naga_types::error::TypeError;
use naga_types::info::{TypeContext, TypeInfo, TypeInfos};
use naga_types::type_rule::validate_type;
use naga_typing::context::to_ctx;
use naga_typing::layouter::{LayoutErrorInner, Layouter};
use naga_typing::typifier::TypeResolution;
use std::alloc::Global;
use std::fmt::{Debug, Display};
use std::process::Abort;

/// What `visit` makes of a module, which is empty at first. No other function here owns a module, since
/// each exit of a function drops what it owns, and the proof goes through each.
pub(crate) fn with_module<R, F: FnOnce(&mut Module) -> R>(alloc: Global, visit: F) -> R
    requires { F.IsAlwaysCallable visit }
{
    let mut module = Module::new(alloc);
    visit(&mut module)
}

/// What `visit` makes of the module that a text describes.
pub(crate) fn with_text<R, F: FnOnce(&Module) -> R>(
    rt: &impl Abort,
    alloc: Global,
    text: &str,
    visit: F,
) -> R
    requires { F.IsAlwaysCallable visit }
{
    let contents = read_text(alloc, text.as_bytes()).expect(rt, "readable");
    visit(&contents.module)
}

/// Makes sure that a value is as wanted. Each `assert_eq!` is proved where it stands, with its message; this
/// is proved once.
pub(crate) fn assert_same<T: Debug + PartialEq>(rt: &impl Abort, got: &T, want: &T) {
    assert!(rt; *got == *want, "{got:?}, and not {want:?}");
}

/// Makes sure that a value of one row of a table is as wanted.
pub(crate) fn assert_same_for<R: Debug, T: Debug + PartialEq>(
    rt: &impl Abort,
    row: &R,
    got: &T,
    want: &T,
) {
    assert!(rt; *got == *want, "{row:?}: {got:?}, and not {want:?}");
}

/// Adds a type without a name.
pub(crate) fn add_type(
    rt: &impl Abort,
    module: &mut Module,
    inner: TypeInner,
) -> Result<Handle<TypeTag>, OutOfMemory> {
    assert!(rt; module.types.len() < 100);
    module
        .types
        .insert(Type { name: None, inner }, Span::default())
}

/// Adds a global expression.
pub(crate) fn add(
    rt: &impl Abort,
    module: &mut Module,
    expression: Expression,
) -> Result<Handle<ExpressionTag>, OutOfMemory> {
    assert!(rt; module.global_expressions.len() < 100);
    module
        .global_expressions
        .append(expression, Span::default())
}

/// Makes sure that references in a module exist and go back.
pub(crate) fn assert_references_ok(rt: &impl Abort, alloc: Global, module: &Module)
    ensures { GlobalReferencesOk (global_lists «module».now) }
{
    assert!(rt; validate_module_handles(alloc, module).is_ok());
}

/// The alignment of so many bytes.
pub(crate) fn aligned(rt: &impl Abort, bytes: u32) -> Alignment {
    Alignment::new(bytes).expect(rt, "a power of two")
}

/// The info of the last type of a module, if all its types are validated one after another, or why the
/// first that is refused is. Overrides need no values.
pub(crate) fn result_of_last(
    rt: &impl Abort,
    alloc: Global,
    capabilities: Capabilities,
    module: &Module,
) -> Result<Result<TypeInfo, TypeError>, OutOfMemory> {
    assert_references_ok(rt, alloc, module);
    let mut layouter = Layouter::new(alloc);
    if let Err(error) = layouter.update(to_ctx(module)) {
        assert_eq!(rt; error.inner, LayoutErrorInner::OutOfMemory);
        return Err(OutOfMemory);
    }
    let mut infos = TypeInfos::with_room(alloc, 0)?;
    for index in 0..module.types.len() {
        assert!(rt; index <= infos.len());
        let ctx = TypeContext {
            capabilities,
            overrides_resolved: false,
            infos: &infos,
            layouter: &layouter,
        };
        match validate_type(alloc, ctx, Handle::new(index as u32), to_ctx(module)) {
            Ok(info) => infos.push(info)?,
            Err(error) => return Ok(Err(error)),
        }
    }
    let last = module.types.len().saturating_sub(1);
    assert!(rt; last < infos.len() && last < 4294967295);
    Ok(Ok(infos.get(Handle::new(last as u32))))
}

/// Makes sure that errors are displayed as the lines of a text.
pub(crate) fn assert_lines<T: Display>(rt: &(impl AllocGlobal + Abort), errors: &[T], lines: &str) {
    let mut shown = String::new(rt.alloc());
    for error in errors {
        write!(shown, "{error}\n").expect(rt, "memory");
    }
    assert!(rt; shown.as_str() == lines, "{shown}");
}

/// Whether the types are there that a resolution names. A type that is given as a value names none in tests.
fn exists(resolution: &TypeResolution, types: &UniqueArena) -> bool
    ensures { IsTrue result → TypesExist types.now resolution.now }
{
    match resolution {
        TypeResolution::Handle(handle) => handle.index() < types.len(),
        TypeResolution::Value(inner) => inner.parts().next().is_none(),
    }
}

/// Whether the types are there that some resolutions name.
pub(crate) fn all_exist(resolutions: &[TypeResolution], types: &UniqueArena) -> bool
    ensures { IsTrue result → All (TypesExist types.now) resolutions.now }
{
    resolutions
        .iter()
        .all(|resolution| exists(resolution, types))
}

/// The last type of a module.
pub(crate) fn last_type(rt: &impl Abort, module: &Module) -> Handle<TypeTag>
    ensures { result < length «module».now.types }
{
    let last = module.types.len().checked_sub(1).expect(rt, "a type");
    Handle::new(last as u32)
}
