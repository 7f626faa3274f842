//! What resolves the types of expressions.

ghost use Rattle.std.specs.Prelude.{◌≡◌, ℕ, Bool, List, OnErr, Result, map};
ghost use Rattle.naga_ir.specs.declared.expression.Expression as expression;
ghost use Rattle.naga_ir.specs.declared.expression.MathFunction as math;
ghost use Rattle.naga_ir.specs.declared.ir.Module as modules;
ghost use Rattle.naga_ir.specs.declared.types.TypeInner as inner;
ghost use Rattle.naga_typing.specs.Typings.{CanResolve, IsLawful, IsPushResult, IsResolveResult};
ghost use Rattle.naga_typing.specs.declared.typifier.ResolveError as error;
ghost use Rattle.naga_typing.specs.declared.typifier.TypeResolution as resolution;

use crate::typifier::{ResolveError, TypeResolution};
use naga_ir::expression::{Expression, MathFunction};
use naga_ir::ir::Module;
use naga_ir::list::List;
use naga_ir::types::TypeInner;
use std::alloc::Global;

/// A rule for the types of expressions, as naga's `ResolveContext::resolve` and the overloads of its
/// math functions are one. Generic code is proved for every implementation, only by its laws.
pub trait Typing: Drop {
    ghost resolves: { Self → modules.Module → expression.Expression → List resolution.TypeResolution → Result resolution.TypeResolution error.ResolveError };

    ghost accepts_types: { Self → math.MathFunction → List inner.TypeInner → Bool };

    ghost least_arguments: { Self → math.MathFunction → List inner.TypeInner → ℕ };

    /// The type of an expression, by the types of the expressions before it in the arena. It depends on
    /// only these arguments. The expression may be one of a function, which isn't given, so that for a
    /// local variable or an argument nothing is known.
    ///
    /// # Errors
    ///
    /// - `IncompatibleOperands` if the types of the operands don't fit the expression.
    /// - `NotResolvable` if the typing doesn't support this variant of expressions.
    /// - `OutOfMemory` if memory was refused. That it was refused isn't proved of an implementation.
    fn resolve(
        &self,
        alloc: Global,
        module: &Module,
        expression: &Expression,
        earlier: &[TypeResolution],
    ) -> Result<TypeResolution, ResolveError>
        requires { CanResolve «module».now expression.now earlier.now }
        ensures { IsResolveResult (resolves self.now «module».now expression.now earlier.now) result };

    /// Adds the type of an expression to the types of the expressions before it: what `resolve` returns, without
    /// handing it on, where a typing has such a way.
    ///
    /// # Errors
    ///
    /// The errors of `resolve`, and `OutOfMemory` if memory was refused for the list. They leave the list as it was.
    fn push_type(
        &self,
        alloc: Global,
        module: &Module,
        expression: &Expression,
        types: &mut List<TypeResolution>,
    ) -> Result<(), ResolveError>
        requires { CanResolve «module».now expression.now types.old }
        ensures result { IsPushResult (resolves self.now «module».now expression.now types.old) types.old types.new
            result }
        ensures refused { OnErr result (types.new ≡ types.old) }
    {
        let ty = self.resolve(alloc, module, expression, types.as_slice())?;
        types.push(ty)?;
        Ok(())
    }

    /// Whether some overload of a math function begins with arguments of these types.
    fn accepts(&self, fun: MathFunction, types: &[&TypeInner]) -> bool
        ensures { result ≡ accepts_types self.now fun (map (λ t. t.now) types.now) };

    /// The least number of arguments that an overload of a math function takes which begins with
    /// arguments of these types.
    fn min_arguments(&self, fun: MathFunction, types: &[&TypeInner]) -> usize
        ensures { result ≡ least_arguments self.now fun (map (λ t. t.now) types.now) };

    ghost lawful: { (t : Self) → IsLawful (resolves t) };
}
