// Looks at causes.
ghost use Rattle.std.specs.List.{AllByRecursion};
ghost use Rattle.transcript_laws.specs.Causes.{step_members, compose_members, build_members, join_members, meta_members, chunk_members};
ghost use Rattle.output_laws.specs.Plain.{IsPlainMember, IsWhole};

use crate::looks::{look_at_integer, look_at_name, look_at_number, look_at_u16, look_at_u32};
use dim_changes::Cause;
use transcript_laws::{BuildCause, JoinError, MetaWhy, Why};
use transform_composition::ComposeError;

pub(crate) fn look_at_step(cause: Cause)
    ensures { AllByRecursion IsPlainMember (step_members cause) }
{
    match cause {
        Cause::Count => {}
        Cause::Rank => {}
        Cause::Target => {}
        Cause::Label => {}
        Cause::ZeroStep => {}
        Cause::Unbounded => {}
        Cause::BadOrder => {}
        Cause::OutOfRange { lo, hi } => look_at_bounds(lo, hi),
        Cause::IndexDim => {}
        Cause::Overflow => {}
        Cause::TooLarge => {}
    }
}

fn look_at_bounds(lo: i64, hi: i64)
    ensures lower { IsWhole lo }
    ensures upper { IsWhole hi }
{
    look_at_integer(lo);
    look_at_integer(hi);
}

pub(crate) fn look_at_compose(cause: ComposeError)
    ensures { AllByRecursion IsPlainMember (compose_members cause) }
{
    match cause {
        ComposeError::Rank => {}
        ComposeError::Overflow { output } => look_at_u32(output),
        ComposeError::Outside { output } => look_at_u32(output),
        ComposeError::TooLarge { output } => look_at_u32(output),
        ComposeError::Memory => {}
    }
}

pub(crate) fn look_at_build(cause: BuildCause)
    ensures { AllByRecursion IsPlainMember (build_members cause) }
{
    match cause {
        BuildCause::Transform { cause } => look_at_compose(cause),
        BuildCause::Layers => {}
    }
}

pub(crate) fn look_at_join(cause: JoinError)
    ensures { AllByRecursion IsPlainMember (join_members cause) }
{
    match cause {
        JoinError::Depth => {}
        JoinError::Layers { layer } => look_at_u32(layer),
        JoinError::Axis => {}
        JoinError::Rank => {}
        JoinError::Unbounded { layer } => look_at_u32(layer),
        JoinError::Overflow { layer } => look_at_u32(layer),
        JoinError::Memory => {}
    }
}

pub(crate) fn look_at_meta(why: &MetaWhy)
    ensures { AllByRecursion IsPlainMember (meta_members why.now) }
{
    match why {
        MetaWhy::Json => {}
        MetaWhy::Member { name } => look_at_name(name),
        MetaWhy::Unsupported { name } => look_at_name(name),
    }
}

pub(crate) fn look_at_chunk(why: Why)
    ensures { AllByRecursion IsPlainMember (chunk_members why) }
{
    match why {
        Why::Length { have, want } => {
            look_at_number(have);
            look_at_number(want);
        }
        Why::Mode { have } => look_at_u16(have),
        Why::Rank { have } => look_at_u16(have),
        Why::Size { dim, have } => {
            look_at_u32(dim);
            look_at_u32(have);
        }
    }
}
