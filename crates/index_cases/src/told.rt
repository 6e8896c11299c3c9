// Domains as text.
use case_lines::{Fault, told};
use index_transform::Domain;
use std::alloc::Global;
use transform_composition::ComposeError;
use transform_json::write_domain;

// A domain, as JSON.
pub(crate) fn shown_domain(alloc: Global, domain: &Domain) -> Result<String, Fault> {
    Ok(write_domain(alloc, domain)?.to_string(alloc)?)
}

// What tightening answered, and the domain after it.
pub(crate) fn after(
    alloc: Global,
    given: &Result<(), ComposeError>,
    domain: &Domain,
) -> Result<String, Fault> {
    let mut text = told(alloc, given)?;
    text.push(' ')?;
    put_domain(alloc, &mut text, domain)?;
    Ok(text)
}

fn put_domain(alloc: Global, text: &mut String, domain: &Domain) -> Result<(), Fault> {
    let json = shown_domain(alloc, domain)?;
    Ok(text.push_str(&json)?)
}
