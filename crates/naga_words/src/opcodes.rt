//! The opcodes of items, and the numbers of the forms of expressions, as `bindings/c/naga_check_words.h` names them.

// Items.
pub(crate) const OP_FLAGS: u8 = 1;

pub(crate) const OP_CAPABILITIES: u8 = 2;

pub(crate) const OP_RESOLVED: u8 = 3;

pub(crate) const OP_SPECIAL_TYPES: u8 = 4;

pub(crate) const OP_PREDECLARED_TYPE: u8 = 5;

pub(crate) const OP_FILTER: u8 = 6;

pub(crate) const OP_FILTER_LEAF: u8 = 7;

pub(crate) const OP_COMMENT_ON_TYPE: u8 = 8;

pub(crate) const OP_COMMENT_ON_MEMBER: u8 = 9;

pub(crate) const OP_COMMENT_ON_FUNCTION: u8 = 10;

pub(crate) const OP_COMMENT_ON_ENTRY_POINT: u8 = 11;

pub(crate) const OP_COMMENT_ON_CONSTANT: u8 = 12;

pub(crate) const OP_COMMENT_ON_GLOBAL_VARIABLE: u8 = 13;

pub(crate) const OP_HEADER: u8 = 15;

pub(crate) const OP_SCALAR: u8 = 16;

pub(crate) const OP_VECTOR: u8 = 17;

pub(crate) const OP_MATRIX: u8 = 18;

pub(crate) const OP_COOPERATIVE_MATRIX: u8 = 19;

pub(crate) const OP_ATOMIC: u8 = 20;

pub(crate) const OP_POINTER: u8 = 21;

pub(crate) const OP_VALUE_POINTER: u8 = 22;

pub(crate) const OP_ARRAY: u8 = 23;

pub(crate) const OP_STRUCT: u8 = 24;

pub(crate) const OP_IMAGE: u8 = 25;

pub(crate) const OP_SAMPLER: u8 = 26;

pub(crate) const OP_ACCELERATION_STRUCTURE: u8 = 27;

pub(crate) const OP_RAY_QUERY: u8 = 28;

pub(crate) const OP_BINDING_ARRAY: u8 = 29;

pub(crate) const OP_CONSTANT: u8 = 32;

pub(crate) const OP_OVERRIDE: u8 = 33;

pub(crate) const OP_GLOBAL_VARIABLE: u8 = 34;

pub(crate) const OP_FUNCTION: u8 = 35;

pub(crate) const OP_ENTRY_POINT: u8 = 36;

pub(crate) const OP_ARGUMENT: u8 = 40;

pub(crate) const OP_LOCAL_VARIABLE: u8 = 41;

pub(crate) const OP_RESULT: u8 = 42;

pub(crate) const OP_NAMED_EXPRESSION: u8 = 43;

pub(crate) const OP_FUNCTION_FILTER_LEAF: u8 = 44;

pub(crate) const OP_WORKGROUP_SIZES: u8 = 45;

pub(crate) const OP_TASK_PAYLOAD: u8 = 46;

pub(crate) const OP_MESH_OUTPUT: u8 = 47;

pub(crate) const OP_STAGE: u8 = 48;

pub(crate) const OP_WORKGROUP_SIZE: u8 = 49;

pub(crate) const OP_RESOURCE: u8 = 50;

pub(crate) const OP_GLOBAL_EXPRESSION: u8 = 64;

pub(crate) const OP_EXPRESSION: u8 = 128;

// Statements, and where blocks begin and end.
pub(crate) const STATEMENT_EMIT: u8 = 192;

pub(crate) const STATEMENT_BLOCK: u8 = 193;

pub(crate) const STATEMENT_IF: u8 = 194;

pub(crate) const STATEMENT_ELSE: u8 = 195;

pub(crate) const STATEMENT_SWITCH: u8 = 196;

pub(crate) const STATEMENT_CASE: u8 = 197;

pub(crate) const STATEMENT_LOOP: u8 = 198;

pub(crate) const STATEMENT_CONTINUING: u8 = 199;

pub(crate) const STATEMENT_END: u8 = 200;

pub(crate) const STATEMENT_END_LOOP: u8 = 201;

pub(crate) const STATEMENT_BREAK: u8 = 202;

pub(crate) const STATEMENT_CONTINUE: u8 = 203;

pub(crate) const STATEMENT_RETURN: u8 = 204;

pub(crate) const STATEMENT_KILL: u8 = 205;

pub(crate) const STATEMENT_CONTROL_BARRIER: u8 = 206;

pub(crate) const STATEMENT_MEMORY_BARRIER: u8 = 207;

pub(crate) const STATEMENT_STORE: u8 = 208;

pub(crate) const STATEMENT_IMAGE_STORE: u8 = 209;

pub(crate) const STATEMENT_ATOMIC: u8 = 210;

pub(crate) const STATEMENT_IMAGE_ATOMIC: u8 = 211;

pub(crate) const STATEMENT_WORKGROUP_UNIFORM_LOAD: u8 = 212;

pub(crate) const STATEMENT_CALL: u8 = 213;

pub(crate) const STATEMENT_RAY_QUERY: u8 = 214;

pub(crate) const STATEMENT_TRACE_RAY: u8 = 215;

pub(crate) const STATEMENT_SUBGROUP_BALLOT: u8 = 216;

pub(crate) const STATEMENT_SUBGROUP_GATHER: u8 = 217;

pub(crate) const STATEMENT_SUBGROUP_OPERATION: u8 = 218;

pub(crate) const STATEMENT_COOPERATIVE_STORE: u8 = 219;

// Forms of expressions: a number that is added to `OP_GLOBAL_EXPRESSION` or `OP_EXPRESSION`.
pub(crate) const FORM_LITERAL: u8 = 0;

pub(crate) const FORM_CONSTANT: u8 = 1;

pub(crate) const FORM_OVERRIDE: u8 = 2;

pub(crate) const FORM_ZERO_VALUE: u8 = 3;

pub(crate) const FORM_COMPOSE: u8 = 4;

pub(crate) const FORM_ACCESS: u8 = 5;

pub(crate) const FORM_ACCESS_INDEX: u8 = 6;

pub(crate) const FORM_SPLAT: u8 = 7;

pub(crate) const FORM_SWIZZLE: u8 = 8;

pub(crate) const FORM_FUNCTION_ARGUMENT: u8 = 9;

pub(crate) const FORM_GLOBAL_VARIABLE: u8 = 10;

pub(crate) const FORM_LOCAL_VARIABLE: u8 = 11;

pub(crate) const FORM_LOAD: u8 = 12;

pub(crate) const FORM_IMAGE_SAMPLE: u8 = 13;

pub(crate) const FORM_IMAGE_LOAD: u8 = 14;

pub(crate) const FORM_IMAGE_QUERY: u8 = 15;

pub(crate) const FORM_UNARY: u8 = 16;

pub(crate) const FORM_BINARY: u8 = 17;

pub(crate) const FORM_SELECT: u8 = 18;

pub(crate) const FORM_DERIVATIVE: u8 = 19;

pub(crate) const FORM_RELATIONAL: u8 = 20;

pub(crate) const FORM_MATH: u8 = 21;

pub(crate) const FORM_AS: u8 = 22;

pub(crate) const FORM_CALL_RESULT: u8 = 23;

pub(crate) const FORM_ATOMIC_RESULT: u8 = 24;

pub(crate) const FORM_WORKGROUP_UNIFORM_LOAD_RESULT: u8 = 25;

pub(crate) const FORM_ARRAY_LENGTH: u8 = 26;

pub(crate) const FORM_RAY_QUERY_PROCEED_RESULT: u8 = 27;

pub(crate) const FORM_RAY_QUERY_GET_INTERSECTION: u8 = 28;

pub(crate) const FORM_RAY_QUERY_VERTEX_POSITIONS: u8 = 29;

pub(crate) const FORM_SUBGROUP_BALLOT_RESULT: u8 = 30;

pub(crate) const FORM_SUBGROUP_OPERATION_RESULT: u8 = 31;

pub(crate) const FORM_COOPERATIVE_LOAD: u8 = 32;

pub(crate) const FORM_COOPERATIVE_MULTIPLY_ADD: u8 = 33;
