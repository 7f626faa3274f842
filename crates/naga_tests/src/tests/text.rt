//! Texts, and what they say: the items of each as they are shown, one on a line. Types come first, then
//! expressions, constants, overrides and comments.

use super::{assert_same, assert_same_for, with_text};
use bitflags::Flags;
use naga_ir::ir::Module;
use naga_text::text::read_text;
use std::alloc::{AllocError, Global};
use std::fmt::Debug;
use std::process::Abort;
use std::test::Fail;

/// Adds items as they are shown, one on a line.
fn add_items<T: Debug>(shown: &mut String, items: &[T]) -> Result<(), AllocError> {
    for item in items {
        write!(shown, "{item:?}\n")?;
    }
    Ok(())
}

/// All items of a module, as they are shown.
fn shown_items(alloc: Global, module: &Module) -> Result<String, AllocError> {
    let mut shown = String::new(alloc);
    add_items(&mut shown, module.types.as_slice())?;
    add_items(&mut shown, module.global_expressions.as_slice())?;
    add_items(&mut shown, module.constants.as_slice())?;
    add_items(&mut shown, module.overrides.as_slice())?;
    add_items(&mut shown, module.doc_comments.struct_members.as_slice())?;
    Ok(shown)
}

/// Lines of types, also of scalars that no module may have, then of expressions, constants, overrides and
/// comments, and a text of several.
const ROWS: &[(&str, &str)] = &[
    (
        "type coop 8 16 float 2 B",
        "Type { name: None, inner: CooperativeMatrix { columns: Eight, rows: Sixteen, scalar: Scalar { kind: Float, \
        width: 2 }, role: B } }\n",
    ),
    (
        "type atomic uint 4",
        "Type { name: None, inner: Atomic(Scalar { kind: Uint, width: 4 }) }\n",
    ),
    (
        "type pointer 7 taskpayload",
        "Type { name: None, inner: Pointer { base: [7], space: TaskPayload } }\n",
    ),
    (
        "type pointer 7 storage",
        "Type { name: None, inner: Pointer { base: [7], space: Storage { access: StorageAccess { load: true, store: \
        true, atomic: false } } } }\n",
    ),
    (
        "type valuepointer 0 sint 4 function",
        "Type { name: None, inner: ValuePointer { size: None, scalar: Scalar { kind: Sint, width: 4 }, space: \
        Function } }\n",
    ),
    (
        "type valuepointer 3 sint 4 workgroup",
        "Type { name: None, inner: ValuePointer { size: Some(Tri), scalar: Scalar { kind: Sint, width: 4 }, space: \
        WorkGroup } }\n",
    ),
    (
        "type array 4294967294 4294967295 16",
        "Type { name: None, inner: Array { base: [4294967294], size: Constant(4294967295), stride: 16 } }\n",
    ),
    (
        "type array 4294967294 o5 4294967295",
        "Type { name: None, inner: Array { base: [4294967294], size: Pending([5]), stride: 4294967295 } }\n",
    ),
    (
        "type bindingarray 4294967294 dyn",
        "Type { name: None, inner: BindingArray { base: [4294967294], size: Dynamic } }\n",
    ),
    (
        "type image cube 1 depthms",
        "Type { name: None, inner: Image { dim: Cube, arrayed: true, class: Depth { multi: true } } }\n",
    ),
    (
        "type image 2 0 storage",
        "Type { name: None, inner: Image { dim: D2, arrayed: false, class: Storage { format: R8Unorm, \
        access: StorageAccess { load: true, store: true, atomic: true } } } }\n",
    ),
    (
        "type sampler 1",
        "Type { name: None, inner: Sampler { comparison: true } }\n",
    ),
    (
        "type accel 0",
        "Type { name: None, inner: AccelerationStructure { vertex_return: false } }\n",
    ),
    (
        "type rayquery 1",
        "Type { name: None, inner: RayQuery { vertex_return: true } }\n",
    ),
    (
        "type struct 48 0:0 1:16:3 2:32:4:1",
        "Type { name: None, inner: Struct { members: [StructMember { name: None, ty: [0], binding: \
        None, offset: 0 }, StructMember { name: None, ty: [1], binding: Some(Location { location: 3, \
        interpolation: None, sampling: None, blend_src: None, per_primitive: false }), offset: 16 }, StructMember { name: None, ty: [2], binding: Some(Location { \
        location: 4, interpolation: None, sampling: None, blend_src: Some(1), per_primitive: false }), \
        offset: 32 }], span: 48 } }\n",
    ),
    (
        "type struct 0",
        "Type { name: None, inner: Struct { members: [], span: 0 } }\n",
    ),
    (
        "type scalar sint 255\ntype scalar uint 0\ntype scalar bool 1\n",
        "Type { name: None, inner: Scalar(Scalar { kind: Sint, width: 255 }) }\nType { name: None, inner: \
        Scalar(Scalar { kind: Uint, width: 0 }) }\nType { name: None, inner: Scalar(Scalar { kind: Bool, \
        width: 1 }) }\n",
    ),
    (
        "type scalar aint 8\ntype scalar afloat 8",
        "Type { name: None, inner: Scalar(Scalar { kind: AbstractInt, width: 8 }) }\nType { name: None, inner: \
        Scalar(Scalar { kind: AbstractFloat, width: 8 }) }\n",
    ),
    ("expr lit i16 32767", "Literal(I16(32767))\n"),
    ("expr lit i16 -32768", "Literal(I16(-32768))\n"),
    ("expr lit u16 65535", "Literal(U16(65535))\n"),
    ("expr lit i32 2147483647", "Literal(I32(2147483647))\n"),
    ("expr lit i32 -2147483648", "Literal(I32(-2147483648))\n"),
    ("expr lit i32 -0", "Literal(I32(0))\n"),
    ("expr lit i32 -00000000000000000005", "Literal(I32(-5))\n"),
    ("expr lit u32 4294967295", "Literal(U32(4294967295))\n"),
    ("expr lit u32 00000000000000000006", "Literal(U32(6))\n"),
    (
        "expr lit i64 9223372036854775807",
        "Literal(I64(9223372036854775807))\n",
    ),
    (
        "expr lit i64 -9223372036854775808",
        "Literal(I64(-9223372036854775808))\n",
    ),
    (
        "expr lit u64 18446744073709551615",
        "Literal(U64(18446744073709551615))\n",
    ),
    ("expr lit f16 65535", "Literal(F16(65535))\n"),
    ("expr lit f32 4294967295", "Literal(F32(4294967295))\n"),
    (
        "expr lit f64 18446744073709551615",
        "Literal(F64(18446744073709551615))\n",
    ),
    ("expr lit bool 0", "Literal(Bool(false))\n"),
    ("expr lit bool 01", "Literal(Bool(true))\n"),
    (
        "expr lit aint 9223372036854775807",
        "Literal(AbstractInt(9223372036854775807))\n",
    ),
    (
        "expr lit aint -9223372036854775808",
        "Literal(AbstractInt(-9223372036854775808))\n",
    ),
    (
        "expr lit afloat 18446744073709551615",
        "Literal(AbstractFloat(18446744073709551615))\n",
    ),
    ("expr const 0", "Constant([0])\n"),
    ("expr override 4294967294", "Override([4294967294])\n"),
    ("expr zero 03", "ZeroValue([3])\n"),
    ("expr compose 0", "Compose { ty: [0], components: [] }\n"),
    (
        "expr compose 1 2 3 3",
        "Compose { ty: [1], components: [[2], [3], [3]] }\n",
    ),
    (
        "expr splat 2 7\nexpr splat 04 8",
        "Splat { size: Bi, value: [7] }\nSplat { size: Quad, value: [8] }\n",
    ),
    ("expr unary negate 5", "Unary { op: Negate, expr: [5] }\n"),
    ("expr unary not 5", "Unary { op: LogicalNot, expr: [5] }\n"),
    (
        "expr unary bitnot 5",
        "Unary { op: BitwiseNot, expr: [5] }\n",
    ),
    (
        "expr binary add 1 2",
        "Binary { op: Add, left: [1], right: [2] }\n",
    ),
    (
        "expr binary sub 1 2",
        "Binary { op: Subtract, left: [1], right: [2] }\n",
    ),
    (
        "expr binary mul 1 2",
        "Binary { op: Multiply, left: [1], right: [2] }\n",
    ),
    (
        "expr binary div 1 2",
        "Binary { op: Divide, left: [1], right: [2] }\n",
    ),
    (
        "expr binary mod 1 2",
        "Binary { op: Modulo, left: [1], right: [2] }\n",
    ),
    (
        "expr binary eq 1 2",
        "Binary { op: Equal, left: [1], right: [2] }\n",
    ),
    (
        "expr binary ne 1 2",
        "Binary { op: NotEqual, left: [1], right: [2] }\n",
    ),
    (
        "expr binary lt 1 2",
        "Binary { op: Less, left: [1], right: [2] }\n",
    ),
    (
        "expr binary le 1 2",
        "Binary { op: LessEqual, left: [1], right: [2] }\n",
    ),
    (
        "expr binary gt 1 2",
        "Binary { op: Greater, left: [1], right: [2] }\n",
    ),
    (
        "expr binary ge 1 2",
        "Binary { op: GreaterEqual, left: [1], right: [2] }\n",
    ),
    (
        "expr binary and 1 2",
        "Binary { op: And, left: [1], right: [2] }\n",
    ),
    (
        "expr binary or 1 2",
        "Binary { op: InclusiveOr, left: [1], right: [2] }\n",
    ),
    (
        "expr binary xor 1 2",
        "Binary { op: ExclusiveOr, left: [1], right: [2] }\n",
    ),
    (
        "expr binary land 1 2",
        "Binary { op: LogicalAnd, left: [1], right: [2] }\n",
    ),
    (
        "expr binary lor 1 2",
        "Binary { op: LogicalOr, left: [1], right: [2] }\n",
    ),
    (
        "expr binary shl 1 2",
        "Binary { op: ShiftLeft, left: [1], right: [2] }\n",
    ),
    (
        "expr binary shr 1 2",
        "Binary { op: ShiftRight, left: [1], right: [2] }\n",
    ),
    (
        "const 1 4294967294",
        "Constant { name: None, ty: [1], init: [4294967294] }\n",
    ),
    (
        "override 1 2 3",
        "Override { name: None, id: Some(3), ty: [1], init: Some([2]) }\n",
    ),
    (
        "override 1 - 65535",
        "Override { name: None, id: Some(65535), ty: [1], init: None }\n",
    ),
    (
        "override 1 2 -",
        "Override { name: None, id: None, ty: [1], init: Some([2]) }\n",
    ),
    (
        "override 1 - -",
        "Override { name: None, id: None, ty: [1], init: None }\n",
    ),
    (
        "doc 3 4294967294\ndoc 3 4294967294",
        "(([3], 4294967294), [])\n(([3], 4294967294), [])\n",
    ),
    (
        "const 0 0\nflags 1\nexpr lit bool 1\ndoc 0 1\noverride 0 - -\n\n# no line\nconst 0 1\ntype scalar bool \
        1\nexpr zero 0\n",
        "Type { name: None, inner: Scalar(Scalar { kind: Bool, width: 1 }) \
        }\nLiteral(Bool(true))\nZeroValue([0])\nConstant { name: None, ty: [0], init: [0] }\nConstant { \
        name: None, ty: [0], init: [1] }\nOverride { name: None, id: None, ty: [0], init: None }\n(([0], \
        1), [])\n",
    ),
];

#[test]
fn items_are_as_written(rt: HostRuntime) -> Result<(), Fail> {
    for (text, want) in ROWS {
        let shown = with_text(&rt, rt.alloc(), text, |module| {
            shown_items(rt.alloc(), module)
        })?;
        assert_same_for(&rt, text, &shown.as_str(), want);
    }
    Ok(())
}

/// The bits of the flags and of the capabilities that a text gives, and whether overrides must have their values.
fn settings(rt: &(impl AllocGlobal + Abort), text: &str) -> (Option<u8>, Option<u64>, bool) {
    let contents = read_text(rt.alloc(), text.as_bytes()).expect(rt, "readable");
    let flags = contents.flags.map(|flags| flags.bits());
    let capabilities = contents
        .capabilities
        .map(|capabilities| capabilities.bits());
    (flags, capabilities, contents.resolved)
}

#[test]
fn settings_are_as_given(rt: HostRuntime) {
    assert_same(&rt, &settings(&rt, ""), &(None, None, false));
    let given = settings(&rt, "caps 5\nresolved\nflags 3");
    assert_same(&rt, &given, &(Some(3), Some(5), true));
}
