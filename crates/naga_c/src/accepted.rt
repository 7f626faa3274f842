//! A module that is accepted, with what calls on it read.

ghost use Rattle.naga_c.specs.steps.Accepting.{Accepting};
ghost use Rattle.std.specs.Prelude.{◌≡◌};

use crate::results::Outcome;
use crate::status::{Status, status_without};
use crate::subject::{NoSubject, Subject};
use crate::verdict::{outcome_without, refused_outcome, refused_status, validate, validator_for};
use naga_valid::{FullTyping, Validator};
use std::alloc::Global;

/// A module that is accepted, and what is known of it.
#[derive(Drop)]
pub struct AcceptedModule {
    pub(crate) subject: Subject,
    /// The validator that accepted it, which has the info of each type.
    pub(crate) validator: Validator<FullTyping>,
    /// The most leaves that a call may come to.
    pub(crate) most_leaves: u64,
}

/// What a call leaves that has no accepted module.
#[derive(Clone, Copy, Debug, PartialEq)]
pub struct NotAccepted {
    pub(crate) outcome: Outcome,
    pub(crate) status: Status,
}

/// Validates what a call was given, without its functions.
pub(crate) fn accept(
    alloc: Global,
    given: Result<Subject, NoSubject>,
    most_leaves: u64,
) -> Result<AcceptedModule, NotAccepted>
    ensures { Accepting (λ g. g ≡ given) most_leaves result }
{
    let subject = match given {
        Ok(subject) => subject,
        Err(why) => {
            return Err(NotAccepted {
                outcome: outcome_without(why),
                status: status_without(why),
            });
        }
    };
    let mut validator = validator_for(alloc, &subject);
    match validate(&mut validator, &subject) {
        Ok(_) => Ok(AcceptedModule {
            subject,
            validator,
            most_leaves,
        }),
        Err(error) => {
            let inner = error.as_inner();
            Err(NotAccepted {
                outcome: refused_outcome(&subject.module, inner),
                status: refused_status(inner),
            })
        }
    }
}
