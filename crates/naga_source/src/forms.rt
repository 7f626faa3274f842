//! The words that may stand behind the keywords of lines of many forms.

/// The forms of types.
const TYPES: [&str; 14] = [
    "scalar",
    "vector",
    "matrix",
    "coop",
    "atomic",
    "pointer",
    "valuepointer",
    "array",
    "struct",
    "image",
    "sampler",
    "accel",
    "rayquery",
    "bindingarray",
];

/// The forms of expressions that both texts have.
const EXPRESSIONS: [&str; 8] = [
    "lit", "const", "override", "zero", "compose", "splat", "unary", "binary",
];

/// The forms of expressions that only the larger text has.
const MORE_EXPRESSIONS: [&str; 26] = [
    "access",
    "accessindex",
    "swizzle",
    "argument",
    "global",
    "local",
    "load",
    "sample",
    "imageload",
    "imagequery",
    "select",
    "derivative",
    "relational",
    "math",
    "as",
    "callresult",
    "atomicresult",
    "workgroupload",
    "arraylength",
    "proceedresult",
    "getintersection",
    "vertexpositions",
    "ballotresult",
    "subgroupresult",
    "coopload",
    "coopmuladd",
];

/// The forms of statements.
const STATEMENTS: [&str; 27] = [
    "emit",
    "block",
    "if",
    "else",
    "switch",
    "case",
    "loop",
    "continuing",
    "end",
    "break",
    "continue",
    "kill",
    "barrier",
    "membarrier",
    "return",
    "store",
    "imagestore",
    "atomic",
    "imageatomic",
    "wgload",
    "call",
    "rayquery",
    "ballot",
    "collective",
    "gather",
    "coopstore",
    "trace",
];

/// Whether a word is one of some.
fn is_among(words: &[&str], word: &str) -> bool {
    words.iter().any(|other| *other == word)
}

/// Whether the word behind a keyword names a form.
pub fn has_forms(keyword: &str) -> bool {
    matches!(keyword, "type" | "expr" | "g" | "f" | "s")
}

/// Whether a word may stand behind a keyword, if forms are named there.
pub fn is_form(keyword: &str, form: &str) -> bool {
    match keyword {
        "type" => is_among(&TYPES, form),
        "expr" => is_among(&EXPRESSIONS, form),
        "g" | "f" => is_among(&EXPRESSIONS, form) || is_among(&MORE_EXPRESSIONS, form),
        "s" => is_among(&STATEMENTS, form),
        _ => true,
    }
}
