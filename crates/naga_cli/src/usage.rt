//! How the commands are called.

use crate::arguments::Subcommand;

/// How `check` is called.
const CHECK: &str = "usage: check [OPTIONS] FILE..

Validates the shader modules that files describe; - is standard input. An accepted module has the line
FILE: ok on standard output, and all else has lines on standard error that say where and why. The bodies of
functions are not validated, nor which variables they use.

  -q, --quiet           print nothing on accepted modules
      --json            print an object of JSON for each module, on standard output
      --text line       the files are in the line text
      --text larger     the files are in the larger text; else a line tells that only this text has
      --flags F         which parts are validated: a number, all, default, or names with commas between
      --capabilities C  what modules may use: a number, all, default, or names with commas between
      --resolved        overrides have to have their values
      --values          validate types, values and expressions alone, and nothing that is declared
  -h, --help            print this
  -V, --version         print the version

Status: 0 all accepted, 1 one refused, 2 one not readable, 3 input, output or memory failed, 4 wrong usage.
";

/// How `layout` is called.
const LAYOUT: &str = "usage: layout [OPTIONS] FILE [NAME..]

Prints the bytes of the structs that a file describes, or of the types with these names: each leaf with its
offset, size, alignment and type, the padding between, and which address spaces take the type. A name is a
label, the name of a type, or its index as in T2; - is standard input.

      --json            print an object of JSON for each type
      --slots           also print the slots of immediate data that a type uses from byte 0 on
      --length N        runtime-sized arrays have N elements, and one without this option
      --text line|larger, --flags F, --capabilities C, --resolved: as check has them
  -h, --help            print this
  -V, --version         print the version

Status: as check has it; 4 also if a name is not that of a type.
";

/// The version of both commands.
pub const VERSION: &str = "naga_cli 0.1.0, for modules of naga 30.0.1\n";

/// How a command is called.
pub fn usage_of(subcommand: Subcommand) -> &'static str {
    match subcommand {
        Subcommand::Check => CHECK,
        Subcommand::Layout => LAYOUT,
    }
}
