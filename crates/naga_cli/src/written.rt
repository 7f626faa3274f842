//! What is written of what is found of a module.

ghost use Rattle.naga_cli.specs.Written.{IsWritten};
ghost use Rattle.std.specs.Prelude.{IfOk};

use crate::arguments::Options;
use naga_verdict::lines::lines_of;
use naga_verdict::objects::object_of;
use naga_verdict::verdict::{Finding, status_of};
use std::alloc::{AllocError, Global};

/// Bytes, and where they are written.
#[derive(Drop)]
pub enum Written {
    /// There are none.
    Nothing,
    /// On standard output.
    Output(String),
    /// On standard error.
    Error(String),
}

/// What is written of what is found of a module.
///
/// # Errors
///
/// `AllocError` if a request for memory was refused.
pub fn written_of(alloc: Global, options: Options, finding: &Finding) -> Result<Written, AllocError>
    ensures { IfOk result (IsWritten options finding.now) }
{
    let is_accepted = status_of(&finding.verdict) == 0;
    if options.quiet && is_accepted {
        return Ok(Written::Nothing);
    }
    if options.json {
        return Ok(Written::Output(object_of(alloc, finding)?));
    }
    let lines = lines_of(alloc, finding)?;
    Ok(if is_accepted {
        Written::Output(lines)
    } else {
        Written::Error(lines)
    })
}
