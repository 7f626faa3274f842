//! When the values of expressions are known.

ghost use Rattle.std.specs.Prelude.{◌≡◌, ◌==◌, ◌<◌, [], Contains, IfOk, IsOk, length, slice_get, ℕ};
ghost use Rattle.naga_ir.specs.Handles.{ReferencesPrecede, OrderedOperands};
ghost use Rattle.naga_ir.specs.References as references;
ghost use Rattle.naga_typing.specs.Kinds as spec;
ghost use Rattle.naga_typing.specs.Kinds.{AreKinds, is_const, is_const_or_override};

use naga_ir::arena::Arena;
use naga_ir::expression::Expression;
use naga_ir::handle::Handle;
use naga_ir::handle_vec::HandleVec;
use naga_ir::memory::OutOfMemory;
use naga_ir::origin::Origin;
use naga_ir::tags::ExpressionTag;
use std::alloc::Global;
use std::marker::Model;

/// When the value of an expression is known, the earliest first: naga's `ExpressionKind`.
#[derive(Clone, Copy, Debug, PartialEq, Eq, PartialOrd, Ord)]
pub enum ExpressionKind {
    /// When the shader is compiled.
    Const,
    /// When a pipeline is created, which gives overrides their values.
    Override,
    /// When the shader runs.
    Runtime,
}

/// The kinds of the expressions of an arena, which contracts see as a list in their order: naga's
/// `ExpressionKindTracker`.
#[derive(Debug, Drop)]
pub struct ExpressionKindTracker {
    inner: HandleVec<ExpressionKind, ExpressionTag>,
}

impl Model for ExpressionKindTracker {
    ghost use Rattle.std.specs.Prelude.{List};
    ghost use Rattle.naga_typing.specs.declared.expression_kind.ExpressionKind.{ExpressionKind};

    ghost Value = { List ExpressionKind };

    ghost view = { λ t. t.inner.items };
}

impl ExpressionKindTracker {
    /// No kinds. It takes no memory.
    pub fn new(alloc: Global) -> ExpressionKindTracker
        ensures { result ≡ [] }
    {
        let inner = HandleVec::new(alloc);
        ExpressionKindTracker { inner }
    }

    /// Whether there are no kinds.
    pub fn is_empty(&self) -> bool
        ensures { result ≡ (length self.now == 0) }
    {
        self.inner.is_empty()
    }

    /// The kinds of the expressions of an arena, by the rule of naga's
    /// `ExpressionKindTracker::from_arena`. Literals, zero values and constants are `Const`, overrides
    /// `Override`. `Compose`, `Splat`, `Access`, `AccessIndex`, `Swizzle`, `Unary`, `Binary`, `Math`,
    /// `As`, `Select`, `Relational` and `ArrayLength` have the latest kind of their operands. All else
    /// is `Runtime`.
    ///
    /// The cost is linear in the expressions and their operands.
    ///
    /// # Errors
    ///
    /// `OutOfMemory` if memory was refused; an empty arena takes none.
    pub fn from_arena(
        alloc: Global,
        arena: &Arena<Expression, ExpressionTag>,
    ) -> Result<ExpressionKindTracker, OutOfMemory>
        requires { ReferencesPrecede (OrderedOperands arena.now) }
        ensures kinds { IfOk result (AreKinds arena.now) }
        ensures none { arena.now ≡ [] → IsOk result }
    {
        let mut tracker = ExpressionKindTracker {
            inner: HandleVec::new(alloc),
        };
        // Operands precede an expression, so their kinds are known here.
        for (_, expression) in arena.iter() {
            let kind = tracker.kind_of(expression);
            tracker.inner.push(kind)?;
        }
        Ok(tracker)
    }

    /// Whether the value of an expression is known when the shader is compiled.
    pub fn is_const(&self, value: Handle<ExpressionTag>) -> bool
        requires { value < length self.now }
        ensures { result ≡ is_const (slice_get self.now value) }
    {
        match self.inner[value] {
            ExpressionKind::Const => true,
            ExpressionKind::Override | ExpressionKind::Runtime => false,
        }
    }

    /// Whether the value of an expression is known when a pipeline is created, if not before.
    pub fn is_const_or_override(&self, value: Handle<ExpressionTag>) -> bool
        requires { value < length self.now }
        ensures { result ≡ is_const_or_override (slice_get self.now value) }
    {
        matches!(
            self.inner[value],
            ExpressionKind::Const | ExpressionKind::Override
        )
    }

    /// The kind of one expression, by the kinds of its operands.
    fn kind_of(&self, expression: &Expression) -> ExpressionKind
        requires { (o : ℕ) → Contains (references.operands expression.now) o → o < length self.now }
        ensures { result ≡ spec.kind_of self.now expression.now }
    {
        match expression.origin() {
            Origin::Literal(_) | Origin::ZeroValue(_) | Origin::Constant(_) => {
                ExpressionKind::Const
            }
            Origin::Override(_) => ExpressionKind::Override,
            Origin::Compose(_) | Origin::Splat(_) | Origin::Computed => self.latest(expression),
            Origin::Runtime => ExpressionKind::Runtime,
        }
    }

    /// The latest kind of the operands of an expression.
    fn latest(&self, expression: &Expression) -> ExpressionKind
        requires { (o : ℕ) → Contains (references.operands expression.now) o → o < length self.now }
        ensures { result ≡ spec.of_operands self.now expression.now }
    {
        let mut kind = ExpressionKind::Const;
        for operand in expression.operands() {
            kind = kind.max(self.inner[operand]);
        }
        kind
    }
}
