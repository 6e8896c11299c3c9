// A transform over the dimensions that a step gives.
ghost use Rattle.std.specs.Prelude.{◌≡◌, IfOk};
ghost use Rattle.transform_composition.specs.Transforms.{KeepsRules};
ghost use Rattle.transform_composition.specs.Agreeing.{Agrees};
ghost use Rattle.transform_composition.specs.Composing.{composed};
ghost use Rattle.dim_changes.specs.Causes.{Gives, fault_of, or_cause};

use crate::cause::{Cause, Fault};
use std::alloc::Global;
use transform_composition::{ComposeError, Domain, OutMap, Transform, compose};

/// The transform over a domain, whose maps give the old index of each old dimension.
///
/// The domain is tightened by the old one. Where it is tight already, the answer is `over`, by `gives-over`.
pub fn stepped(
    alloc: Global,
    outer: &Transform,
    domain: Domain,
    maps: Vec<OutMap>,
) -> Result<Transform, Fault>
    requires { KeepsRules (record { domain = domain; maps = maps.items }) }
    ensures { Gives outer.now (record { domain = domain; maps = maps.items })
        (or_cause (composed outer.now (record { domain = domain; maps = maps.items }))) result }
{
    agreeing(alloc, outer, domain, maps)
}

// The same, with what is known of index vectors that are no cells.
pub(crate) fn agreeing(
    alloc: Global,
    outer: &Transform,
    domain: Domain,
    maps: Vec<OutMap>,
) -> Result<Transform, Fault>
    requires { KeepsRules (record { domain = domain; maps = maps.items }) }
    ensures given { Gives outer.now (record { domain = domain; maps = maps.items })
        (or_cause (composed outer.now (record { domain = domain; maps = maps.items }))) result }
    ensures agrees { IfOk result (λ t. Agrees t outer.now (record { domain = domain; maps = maps.items })) }
{
    match Transform::new(domain, maps) {
        Ok(inner) => composed_over(alloc, outer, &inner),
        Err(_) => unreachable!(),
    }
}

// The composition, or its fault as that of a step.
fn composed_over(alloc: Global, outer: &Transform, inner: &Transform) -> Result<Transform, Fault>
    ensures given { Gives outer.now inner.now (or_cause (composed outer.now inner.now)) result }
    ensures agrees { IfOk result (λ t. Agrees t outer.now inner.now) }
{
    let _ = outer.domain();
    let _ = inner.domain();
    match compose(alloc, outer, inner) {
        Ok(t) => {
            let _ = t.domain();
            Ok(t)
        }
        Err(e) => Err(fault_of(e)),
    }
}

// Why transforms don't compose, as the cause of a step.
fn fault_of(error: ComposeError) -> Fault
    ensures { result ≡ fault_of error }
{
    match error {
        ComposeError::TooLarge { .. } => Fault::Refused {
            cause: Cause::TooLarge,
        },
        ComposeError::Memory => Fault::Memory,
        _ => Fault::Refused {
            cause: Cause::Overflow,
        },
    }
}
