// Looks at answers.
ghost use Rattle.output_laws.specs.Typed.{IsTypedAnswer, IsTypedBody};

use crate::causes::{
    look_at_build, look_at_chunk, look_at_compose, look_at_join, look_at_meta, look_at_step,
};
use crate::looks::{
    look_at_domain, look_at_events, look_at_index, look_at_name, look_at_number, look_at_numbers,
    look_at_transform, look_at_u32, look_at_words,
};
use transcript_laws::{Answer, Body};

pub(crate) fn look_at_answer(answer: &Answer)
    ensures { IsTypedAnswer answer.now }
{
    look_at_number(answer.line);
    look_at_body(&answer.body);
}

fn look_at_body(body: &Body)
    ensures { IsTypedBody body.now }
{
    match body {
        Body::Opened {
            name,
            dtype: _,
            domain,
            events,
        } => {
            look_at_name(name);
            look_at_domain(domain);
            look_at_numbers(events);
        }
        Body::Viewed {
            name,
            dtype: _,
            transform,
        } => {
            look_at_name(name);
            look_at_transform(transform);
        }
        Body::Values {
            origin,
            shape: _,
            dtype: _,
            words,
        } => {
            look_at_index(origin);
            look_at_words(words);
        }
        Body::Staged { cells } => look_at_number(*cells),
        Body::Written { cells, events } => {
            look_at_number(*cells);
            look_at_numbers(events);
        }
        Body::Begun => {}
        Body::Committed { events } => look_at_numbers(events),
        Body::Aborted => {}
        Body::Resized { event } => look_at_number(*event),
        Body::Resolved {
            name,
            dtype: _,
            transform,
        } => {
            look_at_name(name);
            look_at_transform(transform);
        }
        Body::BadLine { text } => look_at_name(text),
        Body::BadSpec { path, events } => {
            look_at_name(path);
            look_at_events(events);
        }
        Body::Unsupported { path } => look_at_name(path),
        Body::BadStep { step } => look_at_u32(*step),
        Body::UnknownName { name } => look_at_name(name),
        Body::InTransaction => {}
        Body::NoTransaction => {}
        Body::UnknownDim { step } => look_at_u32(*step),
        Body::RepeatedDim { step } => look_at_u32(*step),
        Body::RefusedStep { step, cause } => {
            look_at_u32(*step);
            look_at_step(*cause);
        }
        Body::RefusedView { cause } => look_at_compose(*cause),
        Body::RefusedJoin { cause } => look_at_join(*cause),
        Body::RefusedSpec {
            path,
            cause,
            events,
        } => {
            look_at_name(path);
            look_at_build(*cause);
            look_at_numbers(events);
        }
        Body::NotFound { at, path, events } => {
            look_at_number(*at);
            look_at_name(path);
            look_at_numbers(events);
        }
        Body::Exists { at, path, events } => {
            look_at_number(*at);
            look_at_name(path);
            look_at_numbers(events);
        }
        Body::PathTaken { at, path, events } => {
            look_at_number(*at);
            look_at_name(path);
            look_at_numbers(events);
        }
        Body::Mismatch {
            at,
            member,
            path,
            events,
        } => {
            look_at_number(*at);
            look_at_name(member);
            look_at_name(path);
            look_at_numbers(events);
        }
        Body::BadMeta { key, why, events } => {
            look_at_name(key);
            look_at_meta(why);
            look_at_numbers(events);
        }
        Body::Unbounded { dim } => look_at_u32(*dim),
        Body::TooMany { dim } => look_at_u32(*dim),
        Body::OutOfRange { cell, dim } => {
            look_at_index(cell);
            look_at_u32(*dim);
        }
        Body::Uncovered { cell } => look_at_index(cell),
        Body::BadValues { path } => look_at_numbers(path),
        Body::Conflict { key, read, now } => {
            look_at_name(key);
            look_at_number(*read);
            look_at_number(*now);
        }
        Body::Shrunk { key, now } => {
            look_at_name(key);
            look_at_number(*now);
        }
        Body::NotAtomic { keys } => look_at_number(*keys),
        Body::NotArray => {}
        Body::TooManyChunks { at } => look_at_number(*at),
        Body::StoreFailed {
            event,
            done,
            events,
        } => {
            look_at_number(*event);
            look_at_numbers(done);
            look_at_events(events);
        }
        Body::Damaged { key, why } => {
            look_at_name(key);
            look_at_chunk(*why);
        }
        Body::Memory => {}
    }
}
