//! Laws of accepted modules, for code that fills or reads buffers which it shares with shaders.
//!
//! A law is a function that does nothing: its contract says what holds of the values that it is called
//! with, and a caller may rely on that from then on. Each that takes a module requires that the
//! validator has accepted it, with overrides resolved or not; `Validator::validate` and
//! `validate_resolved_overrides` promise that if they return `Ok`. Of a handle to no type of the
//! module nothing is said. Sizes, offsets, spans, strides and alignments are in bytes.
//!
//! The leaves of a value are its scalars, vectors, matrices and atomics, at any depth of arrays and
//! structs. Each is named by the indices of the elements and members that lead to it.

ghost use Rattle.std.specs.Prelude.{◌≡◌, ◌↔◌, ◌+◌, ◌*◌, ◌≤◌, ℕ, IfSome, IsTrue, List, Ok, Some, bit_or, false, length, slice_get, true};
ghost use Rattle.naga_exprs.specs.ExpressionRule.{IsRule};
ghost use Rattle.naga_exprs.specs.Math.{math_typing};
ghost use Rattle.naga_exprs.specs.MoreCapabilities.{AllowsMore};
ghost use Rattle.naga_flags.specs.Bits.{STRUCT_LAYOUTS};
ghost use Rattle.naga_flags.specs.Flags.{has};
ghost use Rattle.naga_flags.specs.declared.flags.ShaderStages.{ShaderStages};
ghost use Rattle.naga_immediates.specs.LeafSlots.{HasNoArray, HasSlotsOfLeaves};
ghost use Rattle.naga_immediates.specs.SlotText as text;
ghost use Rattle.naga_immediates.specs.Slots.{IsSetOf, SharesByte, UsesSlot};
ghost use Rattle.naga_info.specs.ModuleInfo.{ModuleInfoLists};
ghost use Rattle.naga_info.specs.Surroundings.{surroundings};
ghost use Rattle.naga_ir.specs.Handles.{HandlesAccepted};
ghost use Rattle.naga_ir.specs.ItemReferences.{global_lists};
ghost use Rattle.naga_types.specs.FlagsOfParts.{IsConstructibleByElements, IsConstructibleByMembers, MembersHaveFlags};
ghost use Rattle.naga_types.specs.HostLayouts.{HasStorageByLeaves, HasUniformByLeaves, HaveLeafAlignments, IsForHosts};
ghost use Rattle.naga_types.specs.HostLeaves.{IsLaidOutForHosts, resolved_for_hosts, sized_for_hosts};
ghost use Rattle.naga_ir.specs.declared.types.TypeInner.{TypeInner};
ghost use Rattle.naga_types.specs.declared.info.TypeInfo.{TypeInfo};
ghost use Rattle.naga_types.specs.TypeRule.{type_rule_with};
ghost use Rattle.naga_typing.specs.Leaves.{AreSeparate, EndsInArray, HasNoShortStride, inner_at, size_at_index};
ghost use Rattle.naga_valid.specs.Accepted.{Accepts, AcceptsBy, AreValidTypes};
ghost use Rattle.naga_valid.specs.Functions.{AreFunctionsReadyInOrder, validator_surroundings};
ghost use Rattle.naga_valid.specs.Interfaces.{AcceptsDeclarationsToo, HasSeparateLeaves, IsBuffer, IsKnown, KeepVariables, surroundings_of};
ghost use Rattle.naga_valid.specs.MoreCapabilities.{AcceptsFunctionsToo, HasMoreCapabilities};
ghost use Rattle.naga_valid.specs.State.{settings_of, stages_with};

use crate::driver::Validator;
use naga_immediates::immediates::ImmediateSlots;
use naga_info::context::FunctionContext;
use naga_info::module_info::ModuleInfo;
use naga_ir::expression::Expression;
use naga_ir::handle::Handle;
use naga_ir::ir::Module;
use naga_ir::tags::{GlobalVariableTag, TypeTag};
use naga_typing::typing::Typing;

/// The leaves of a type that is `SIZED`, whose size the module or an override gives: the first byte of
/// each is a multiple of its alignment, each ends within the size of the type, and no two share a byte.
/// So a host can fill as many bytes as the size, leaf by leaf.
///
/// It holds of types with the flags `DATA`, `SIZED` and `HOST_SHAREABLE` that have a uniform or a
/// storage layout. Nothing is promised if both layouts are errors. An array whose override gives no
/// count has no leaves, and the size has no room for its elements: nothing is said of them. `length` is
/// only the length of runtime-sized arrays.
pub fn leaves<T: Typing>(
    module: &Module,
    validator: &Validator<T>,
    resolved: bool,
    ty: Handle<TypeTag>,
    length: u32,
)
    requires accepted { AreValidTypes «module».now (settings_of validator.now resolved) validator.now.infos }
    ensures { IsLaidOutForHosts (global_lists «module».now) validator.now.infos ty sized_for_hosts
        → AreSeparate (global_lists «module».now) length ty (size_at_index (global_lists «module».now) ty) }
{}

/// The leaves of a type that ends in a runtime-sized array of `length` elements, which is the type
/// itself, or the last member of a struct: the first byte of each is a multiple of its alignment, no
/// two share a byte, and each ends within the offset of the array, 0 if it is the type itself, plus
/// `length` times its stride. So a host can fill as many bytes, leaf by leaf.
///
/// It holds of types with the flags `DATA`, `CREATION_RESOLVED` and `HOST_SHAREABLE` that have a
/// uniform or a storage layout. Nothing is promised if both layouts are errors, nor that this number of
/// bytes fits into 32 bits.
pub fn leaves_at_length<T: Typing>(
    module: &Module,
    validator: &Validator<T>,
    resolved: bool,
    ty: Handle<TypeTag>,
    length: u32,
)
    requires accepted { AreValidTypes «module».now (settings_of validator.now resolved) validator.now.infos }
    ensures { IsLaidOutForHosts (global_lists «module».now) validator.now.infos ty resolved_for_hosts
        → (first stride : ℕ) → EndsInArray (global_lists «module».now) ty first stride
        → AreSeparate (global_lists «module».now) length ty (first + length * stride) }
{}

/// What the rule on strides refuses: a module is accepted exactly if it would be accepted where an array may have any
/// stride, and no array in it has a stride below the size of its elements. What is known of it is the same.
///
/// So of a module from elsewhere, whose arrays have room for their elements, nothing is refused by this rule.
pub fn strides<T: Typing>(module: &Module, validator: &Validator<T>, resolved: bool)
    ensures { (infos : List TypeInfo) (lists : ModuleInfoLists)
        → Accepts (T.resolves validator.now.typing) «module».now (settings_of validator.now resolved) infos lists
        ↔ (AcceptsBy (type_rule_with true) (T.resolves validator.now.typing) «module».now
        (settings_of validator.now resolved) infos lists
        × ((t : ℕ) → HasNoShortStride (global_lists «module».now) t)) }
{}

/// When a type has a storage layout, by its leaves. The leaf alignment of a type is the
/// greatest alignment that a leaf of it has if each array is read with one element. The type has a
/// storage layout exactly if, for itself and all types inside it, each offset of a member is a
/// multiple of the leaf alignment of the member's type, each span of the leaf alignment of the struct, and each
/// stride of the leaf alignment of the elements; the layout is then its leaf alignment.
///
/// It holds of types with the flags `DATA` and `HOST_SHAREABLE`; these and all types inside them have
/// leaf alignments. Which error a type without a layout has isn't promised.
pub fn storage_ok<T: Typing>(
    module: &Module,
    validator: &Validator<T>,
    resolved: bool,
    ty: Handle<TypeTag>,
)
    requires accepted { AreValidTypes «module».now (settings_of validator.now resolved) validator.now.infos }
    ensures { IfSome (slice_get validator.now.infos ty) (λ info. IsForHosts info
        → HaveLeafAlignments (global_lists «module».now) ty × HasStorageByLeaves (global_lists «module».now) ty info) }
{}

/// When a type has a uniform layout, by its leaves. The uniform alignment of a type is its
/// leaf alignment, as in `storage_ok`, but at least 16 for structs and arrays. The type has a uniform
/// layout exactly if these hold of itself and of all types inside it; the layout is then its uniform
/// alignment.
///
/// - Each member has a fixed size, and an offset that is a multiple of the uniform alignment of its
///   type.
/// - The member after a struct begins after the room of the struct, its span rounded up to a multiple
///   of 16.
/// - Each span is a multiple of the leaf alignment of the struct, and each stride of the uniform
///   alignment of the array.
///
/// It holds of types with the flags `DATA` and `HOST_SHAREABLE`; these and all types inside them have
/// leaf alignments. Which error a type without a layout has isn't promised.
pub fn uniform_ok<T: Typing>(
    module: &Module,
    validator: &Validator<T>,
    resolved: bool,
    ty: Handle<TypeTag>,
)
    requires accepted { AreValidTypes «module».now (settings_of validator.now resolved) validator.now.infos }
    ensures { IfSome (slice_get validator.now.infos ty) (λ info. IsForHosts info
        → HaveLeafAlignments (global_lists «module».now) ty
        × HasUniformByLeaves (global_lists «module».now) validator.now.infos ty info) }
{}

/// The flags of structs and arrays, by the flags of their members and elements.
///
/// - Each flag of a struct, `IO_SHAREABLE` aside, is a flag of the type of each member: a member may be used
///   for all that the struct may, except for being passed between stages.
/// - A struct has the flag `CONSTRUCTIBLE` exactly if the types of all its members have it.
/// - An array has it exactly if its size is `Constant` and its base type has it. So an array that an
///   override sizes isn't constructible, whether overrides are resolved or not.
///
/// A struct may lack two flags that all its members have: `IO_SHAREABLE`, and `HOST_SHAREABLE` if a member
/// begins at byte 0 after one that ends past it. Of types that are neither structs nor arrays nothing is
/// said.
pub fn struct_flags<T: Typing>(
    module: &Module,
    validator: &Validator<T>,
    resolved: bool,
    ty: Handle<TypeTag>,
)
    requires accepted { AreValidTypes «module».now (settings_of validator.now resolved) validator.now.infos }
    ensures members { IfSome (slice_get validator.now.infos ty)
        (MembersHaveFlags (global_lists «module».now) validator.now.infos ty) }
    ensures constructible_struct { IfSome (slice_get validator.now.infos ty)
        (IsConstructibleByMembers (global_lists «module».now) validator.now.infos ty) }
    ensures constructible_array { IfSome (slice_get validator.now.infos ty)
        (IsConstructibleByElements (global_lists «module».now) validator.now.infos ty) }
{}

/// The slots of immediate data that a type without arrays uses are the slots of its leaves. `slots` are the
/// slots that a value of the type uses if it begins at byte `offset`, as `ImmediateSlots::from_type`
/// returns them. A slot is among them exactly if it is one of the 64 that there are, and a leaf of the
/// value shares a byte with it. If each leaf ends by byte 256, that is all that the leaves share bytes
/// with.
///
/// It holds of types with the flags `DATA` and `HOST_SHAREABLE`. Of types with arrays inside nothing is
/// said, since the slots of an array are the slots of its strides too. `length` is the length of runtime-sized
/// arrays, which such a type has none of.
pub fn slots_of_leaves<T: Typing>(
    module: &Module,
    validator: &Validator<T>,
    resolved: bool,
    ty: Handle<TypeTag>,
    length: u32,
    offset: u32,
    slots: ImmediateSlots,
)
    requires accepted { AreValidTypes «module».now (settings_of validator.now resolved) validator.now.infos }
    ensures { IfSome (slice_get validator.now.infos ty) (λ info. IsForHosts info
        → HasNoArray (global_lists «module».now) ty
        → (inner : TypeInner) → inner_at (global_lists «module».now) ty ≡ Some inner
        → IsSetOf (UsesSlot (global_lists «module».now) inner offset) slots
        → HasSlotsOfLeaves (global_lists «module».now) length ty offset slots) }
{}

/// Sets of slots that are shown by the same text are equal.
pub fn slot_text(slots: ImmediateSlots, other: ImmediateSlots)
    ensures { text.slot_text slots ≡ text.slot_text other → slots ≡ other }
{}

/// Two ranges of bytes, of which one begins where the other ends, use together the slots of the one
/// range that they make. `first` are the slots of `size` bytes from `offset` on, `next` the slots of the
/// `more` bytes after them, and `both` the slots of all, as `ImmediateSlots::from_range` returns them. Then
/// `first | next` is `both`.
///
/// It holds at sums past 32 bits too.
pub fn ranges_join(
    offset: u32,
    size: u32,
    more: u32,
    first: ImmediateSlots,
    next: ImmediateSlots,
    both: ImmediateSlots,
)
    requires first { IsSetOf (SharesByte offset size) first }
    requires next { IsSetOf (SharesByte (offset + size) more) next }
    requires both { IsSetOf (SharesByte offset (size + more)) both }
    ensures { record { 0 = bit_or first.0 next.0 } ≡ both }
{}

/// The functions of an accepted module can be validated by `Validator::validate_function_expressions`, in
/// order, each once the infos of all functions before it are pushed to what `validate` returned, and its
/// entry points once the infos of all functions are. `mod_info` is what `validate` returned; a push of
/// functions or entry points leaves the flags of types as they are.
pub fn functions<T: Typing>(
    module: &Module,
    validator: &Validator<T>,
    resolved: bool,
    mod_info: &ModuleInfo,
)
    requires accepted { Accepts (T.resolves validator.now.typing) «module».now (settings_of validator.now resolved)
        validator.now.infos mod_info.now.lists }
    ensures handles { HandlesAccepted «module».now }
    ensures flags { length «module».now.types ≤ length mod_info.now.lists.type_flags }
    ensures in_order { AreFunctionsReadyInOrder «module».now }
{}

/// More capabilities accept no less: a module that a validator accepts is accepted by one with the same flags
/// and typing that has all its capabilities, whatever others it has. What the calls return is the same, the
/// `ModuleInfo` and the info of each type. So a shader that works on one device is never lost on a device with
/// more features.
///
/// A new validator with more capabilities also lets no fewer stages use subgroup operations.
///
/// Nothing is said of a module that `validator` refuses: with more capabilities it may be accepted, or refused
/// with another error or for another item.
pub fn more_capabilities<T: Typing>(
    module: &Module,
    validator: &Validator<T>,
    resolved: bool,
    more: &Validator<T>,
)
    requires { HasMoreCapabilities validator.now more.now }
    ensures accepted { (infos : List TypeInfo) (lists : ModuleInfoLists)
        → Accepts (T.resolves validator.now.typing) «module».now (settings_of validator.now resolved) infos lists
        → Accepts (T.resolves more.now.typing) «module».now (settings_of more.now resolved) infos lists }
    ensures same { (infos more_infos : List TypeInfo) (lists more_lists : ModuleInfoLists)
        → Accepts (T.resolves validator.now.typing) «module».now (settings_of validator.now resolved) infos lists
        → Accepts (T.resolves more.now.typing) «module».now (settings_of more.now resolved) more_infos more_lists
        → (more_infos ≡ infos) × (more_lists ≡ lists) }
    ensures stages { IsTrue (has (stages_with more.now.capabilities.0) (stages_with validator.now.capabilities.0)) }
{}

/// An expression of a function that is accepted in one context is accepted in another that allows more, and
/// no stage that may use it loses it. In `more` there are all capabilities of `less`, and no fewer stages that
/// may use subgroup operations, or each function that is known of the module; all else is the same.
///
/// Of an expression that is refused in `less` nothing is said.
pub fn more_capabilities_expression<T: Typing>(
    typing: &T,
    expression: &Expression,
    less: FunctionContext<'_>,
    more: FunctionContext<'_>,
)
    requires { AllowsMore (surroundings less) (surroundings more) }
    ensures { let math = math_typing (T.accepts_types typing.now) (T.least_arguments typing.now) in
        (allowed : ShaderStages) → IsRule math (surroundings less.entry) expression.now (Ok allowed)
        → (stages : ShaderStages) × IsRule math (surroundings more.entry) expression.now (Ok stages)
        × IsTrue (has stages.0 allowed.0) }
{}

/// A function whose expressions a validator accepts is accepted by one with the same flags and typing that has
/// all its capabilities, and lets no fewer stages use subgroup operations. The types of its expressions are the
/// same, and no stage that may use it loses it. What is known of the module may differ too, as long as no
/// fewer stages may use each function.
///
/// So, too, are all functions and entry points of a module, each by what is known of those before it, as
/// `Validator::validate_functions` validates them.
///
/// Of a function that `validator` refuses nothing is said.
pub fn more_capabilities_functions<T: Typing>(
    module: &Module,
    validator: &Validator<T>,
    resolved: bool,
    more: &Validator<T>,
)
    requires capabilities { HasMoreCapabilities validator.now more.now }
    requires stages { IsTrue (has more.now.subgroup_stages.0 validator.now.subgroup_stages.0) }
    ensures { let by = validator_surroundings T.resolves T.accepts_types T.least_arguments in
        AcceptsFunctionsToo (by validator.now resolved «module».now) (by more.now resolved «module».now) «module».now }
{}

/// The leaves of each uniform and storage variable of a module whose variables are accepted, of a binding if it has
/// several: the first byte of each is a multiple of its alignment, no two share a byte, and each ends within the size of
/// the type, or, if it ends in a runtime-sized array of `length` elements, where these end. So a host can fill the buffer
/// that it binds, leaf by leaf. No layout is asked for: the rule of variables asks for it.
///
/// `mod_info` is what `validate` or `validate_resolved_overrides` returned, and functions may have been added since. The
/// validator has the flag `STRUCT_LAYOUTS`: without it layouts are not validated.
pub fn buffers<T: Typing>(
    module: &Module,
    validator: &Validator<T>,
    mod_info: &ModuleInfo,
    variable: Handle<GlobalVariableTag>,
    length: u32,
)
    requires known { IsKnown (T.resolves validator.now.typing) validator.now «module».now mod_info.now.lists }
    requires layouts { IsTrue (has validator.now.flags.0 STRUCT_LAYOUTS) }
    requires accepted { KeepVariables validator.now «module».now mod_info.now.lists }
    ensures { (ty : ℕ) → IsBuffer (surroundings_of validator.now «module».now) «module».now variable ty
        → HasSeparateLeaves (global_lists «module».now) validator.now.infos length ty }
{}

/// More capabilities accept no less of what a module declares: variables, declarations of functions and entry points that
/// a validator accepts are accepted by one with the same flags and typing that has all its capabilities, and has the same
/// infos of types, as `more_capabilities` says. No fewer stages may use the functions and entry points, as
/// `more_capabilities_functions` says.
///
/// Of what `validator` refuses nothing is said.
pub fn more_capabilities_variables<T: Typing>(
    module: &Module,
    validator: &Validator<T>,
    more: &Validator<T>,
)
    requires capabilities { HasMoreCapabilities validator.now more.now }
    requires infos { more.now.infos ≡ validator.now.infos }
    ensures { AcceptsDeclarationsToo validator.now more.now «module».now }
{}
