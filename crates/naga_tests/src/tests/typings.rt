//! A typing besides the two of `naga_typing`, and the types that any typing resolves, by its laws.

ghost use Rattle.naga_ir.specs.Handles.{HandlesAccepted};

use super::{add, assert_same, with_module};
use naga_handles::handles::validate_module_handles;
use naga_ir::expression::{Expression, Literal, MathFunction};
use naga_ir::ir::Module;
use naga_ir::list::List;
use naga_ir::types::{Scalar, TypeInner};
use naga_typing::plain_typing::PlainTyping;
use naga_typing::typifier::{ResolveError, TypeResolution};
use naga_typing::typing::Typing;
use std::alloc::Global;
use std::process::Abort;
use std::test::Fail;

/// A typing that supports only the variants whose types the laws give.
#[derive(Clone, Copy)]
struct DeclaredTyping;

impl Typing for DeclaredTyping {
    ghost use Rattle.naga_tests.specs.DeclaredTyping.{declared_lawful, declared_resolves};
    ghost use Rattle.std.specs.Prelude.{false};

    ghost resolves = { λ _. declared_resolves };

    ghost accepts_types = { λ _ _ _. false };

    ghost least_arguments = { λ _ _ _. 0 };

    ghost lawful = { λ _. declared_lawful };

    #[tactic(auto, unfolding(crate::specs::DeclaredTyping::declared_resolves))]
    fn resolve(
        &self,
        alloc: Global,
        module: &Module,
        expression: &Expression,
        earlier: &[TypeResolution],
    ) -> Result<TypeResolution, ResolveError> {
        match expression {
            Expression::Literal(_)
            | Expression::Constant(_)
            | Expression::Override(_)
            | Expression::ZeroValue(_)
            | Expression::Compose { .. }
            | Expression::Splat { .. } => PlainTyping.resolve(alloc, module, expression, earlier),
            _ => Err(ResolveError::NotResolvable),
        }
    }

    fn accepts(&self, _fun: MathFunction, _types: &[&TypeInner]) -> bool {
        false
    }

    fn min_arguments(&self, _fun: MathFunction, _types: &[&TypeInner]) -> usize {
        0
    }
}

/// The types of all global expressions, each from those before: for any typing, by its laws.
fn resolve_all<T: Typing>(
    typing: &T,
    alloc: Global,
    module: &Module,
) -> Result<List<TypeResolution>, ResolveError>
    requires { HandlesAccepted «module».now }
{
    let mut resolutions = List::new(alloc);
    for (_, expression) in module.global_expressions.iter() {
        let resolution = typing.resolve(alloc, module, expression, resolutions.as_slice())?;
        resolutions.push(resolution)?;
    }
    Ok(resolutions)
}

/// Makes sure that the handles of a module are right.
pub(super) fn assert_handles_ok(rt: &impl Abort, alloc: Global, module: &Module)
    ensures { HandlesAccepted «module».now }
{
    assert!(rt; validate_module_handles(alloc, module).is_ok());
}

/// The type of the last global expression of a module.
fn last_type<T: Typing>(
    rt: &impl Abort,
    alloc: Global,
    typing: &T,
    module: &Module,
) -> Result<TypeResolution, ResolveError> {
    assert_handles_ok(rt, alloc, module);
    let resolutions = resolve_all(typing, alloc, module)?;
    let last = resolutions.as_slice().last().expect(rt, "an expression");
    Ok(last.try_clone()?)
}

/// The type of a selection between bools.
fn selection<T: Typing>(
    rt: &impl Abort,
    alloc: Global,
    typing: &T,
) -> Result<Result<TypeResolution, ResolveError>, Fail> {
    with_module(alloc, |module| {
        let value = add(rt, module, Expression::Literal(Literal::Bool(true)))?;
        let select = Expression::Select {
            condition: value,
            accept: value,
            reject: value,
        };
        add(rt, module, select)?;
        Ok(last_type(rt, alloc, typing, module))
    })
}

#[test]
fn another_typing_may_support_less(rt: HostRuntime) -> Result<(), Fail> {
    let plain = selection(&rt, rt.alloc(), &PlainTyping)?;
    let bool = TypeResolution::Value(TypeInner::Scalar(Scalar::BOOL));
    assert_same(&rt, &plain, &Ok(bool));
    let declared = selection(&rt, rt.alloc(), &DeclaredTyping)?;
    assert_same(&rt, &declared, &Err(ResolveError::NotResolvable));
    Ok(())
}
