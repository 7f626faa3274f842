//! What is read of a module while its types and global expressions are visited, counted.

ghost use Rattle.naga_arena.specs.Numbers.{largest_u32};
ghost use Rattle.std.specs.Prelude.{◌≡◌, ◌+◌, ◌*◌, ◌<◌, Some, length, slice_get};

use naga_ir::expression::Expression;
use naga_ir::handle::Handle;
use naga_ir::ir::Module;
use naga_ir::tags::{ExpressionTag, TypeTag};
use naga_ir::types::Type;

/// Reads types and global expressions of a module, and counts how many.
#[derive(Drop)]
pub(crate) struct Reader {
    looks: u64,
}

impl Reader {
    /// Nothing was read.
    pub(crate) fn new() -> Reader
        ensures { result.looks ≡ 0 }
    {
        Reader { looks: 0 }
    }

    /// How many items were read.
    pub(crate) fn looks(&self) -> u64
        ensures { result ≡ self.now.looks }
    {
        self.looks
    }

    /// The type that a handle names.
    pub(crate) fn type_at<'a>(&mut self, module: &'a Module, handle: Handle<TypeTag>) -> &'a Type
        requires exists { handle < length «module».now.types }
        requires few { self.old.looks < 2 * largest_u32 }
        ensures read { slice_get «module».now.types handle ≡ Some result.now }
        ensures counted { self.new.looks ≡ self.old.looks + 1 }
    {
        self.looks += 1;
        &module.types[handle]
    }

    /// The global expression that a handle names.
    pub(crate) fn expression_at<'a>(
        &mut self,
        module: &'a Module,
        handle: Handle<ExpressionTag>,
    ) -> &'a Expression
        requires exists { handle < length «module».now.global_expressions }
        requires few { self.old.looks < 2 * largest_u32 }
        ensures read { slice_get «module».now.global_expressions handle ≡ Some result.now }
        ensures counted { self.new.looks ≡ self.old.looks + 1 }
    {
        self.looks += 1;
        &module.global_expressions[handle]
    }
}
