//! What the rules of variables, inputs and outputs depend on, besides the item.

ghost use Rattle.std.specs.Prelude.{◌≡◌, ◌<◌, Some, length};
ghost use Rattle.naga_interface.specs.Surroundings as spec;
ghost use Rattle.naga_interface.specs.Surroundings.{AreExpressionsTyped, AreTypesKnown, known, surroundings};

use naga_flags::flags::{Capabilities, TypeFlags, ValidationFlags};
use naga_ir::handle::Handle;
use naga_ir::tags::{ExpressionTag, TypeTag};
use naga_ir::types::TypeInner;
use naga_ir::unique_arena::UniqueArena;
use naga_types::info::{TypeInfo, TypeInfos};
use naga_typing::expression_kind::ExpressionKindTracker;
use naga_typing::typifier::{TypeResolution, compare_types};

/// What the rules of variables, inputs and outputs depend on, besides the item.
#[derive(Clone, Copy)]
pub struct InterfaceContext<'a> {
    /// Which parts of the module are validated.
    pub flags: ValidationFlags,
    /// What shaders may use.
    pub capabilities: Capabilities,
    /// The types of the module.
    pub types: &'a UniqueArena,
    /// What is known of these types.
    pub infos: &'a TypeInfos,
}

/// What is known of the expressions that may initialise variables: all of a module, or all of a function.
#[derive(Clone, Copy)]
pub struct Initialisers<'a> {
    /// The types of the expressions.
    pub types: &'a [TypeResolution],
    /// When the values of the expressions are known. If no variable has an initialiser, there may be none.
    pub kinds: &'a ExpressionKindTracker,
}

impl<'a> InterfaceContext<'a> {
    /// What a type is made of.
    pub(crate) fn inner(self, ty: Handle<TypeTag>) -> &'a TypeInner
        requires { ty < length self.types.now }
        ensures { spec.form_of (surroundings self.entry) ty ≡ Some result.now }
    {
        &self.types[ty].inner
    }

    /// What is known of a type.
    pub(crate) fn info(self, ty: Handle<TypeTag>) -> TypeInfo
        requires known { AreTypesKnown (surroundings self) }
        requires exists { ty < length self.types.now }
        ensures { result ≡ spec.info_of (surroundings self.entry) ty }
    {
        self.infos.get(ty)
    }

    /// What a type may be used for.
    pub(crate) fn type_flags(self, ty: Handle<TypeTag>) -> TypeFlags
        requires known { AreTypesKnown (surroundings self) }
        requires exists { ty < length self.types.now }
        ensures { result ≡ record { 0 = spec.flags_of (surroundings self.entry) ty } }
    {
        self.info(ty).flags
    }

    /// Whether an expression has this type.
    pub(crate) fn has_type(
        self,
        init: Initialisers<'a>,
        ty: Handle<TypeTag>,
        expression: Handle<ExpressionTag>,
    ) -> bool
        requires known { AreTypesKnown (surroundings self) }
        requires typed { AreExpressionsTyped (surroundings self) (known init) }
        requires exists { ty < length self.types.now }
        requires there { expression < length init.types.now }
        ensures { result ≡ spec.has_type (surroundings self.entry) (known init.entry) ty expression }
    {
        let actual = &init.types[expression.index()];
        compare_types(&TypeResolution::Handle(ty), actual, self.types)
    }
}
