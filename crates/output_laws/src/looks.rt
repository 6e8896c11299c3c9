// Looks at the parts of answers: what their types say of them, that numbers take 64 bits and texts are UTF-8, then holds of their data.
ghost use Rattle.std.specs.Prelude.{◌≡◌, ◌<◌, ◌^◌, ℕ, List as ListOf, get_or, length, IsTrue, IsUtf8};
ghost use Rattle.std.specs.List.{AllByRecursion, list_all};
ghost use Rattle.transform_json.specs.Written.{domain_data, transform_data};
ghost use Rattle.index_intervals.specs.Bounds.{are_bounds};
ghost use Rattle.transcript_laws.specs.Members.{numbers_data, indices_data};
ghost use Rattle.output_laws.specs.Plain.{AreSmall, HasNumbers, IsPlain, IsWhole};

use cells::{Index, List, Name, Words};
use index_intervals::Interval;
use index_transform::{Domain, OutMap, Transform, look_at_all};

pub(crate) fn look_at_number(n: u64)
    ensures { n < 2 ^ 64 }
{}

pub(crate) fn look_at_u32(n: u32)
    ensures { n < 2 ^ 64 }
{}

pub(crate) fn look_at_u16(n: u16)
    ensures { n < 2 ^ 64 }
{}

pub(crate) fn look_at_numbers(ns: &List<u64>)
    ensures small { AllByRecursion (λ n. n < 2 ^ 64) ns.now }
    ensures plain { IsPlain 1 (numbers_data ns.now) }
{
    look_at_all_numbers(ns.items());
}

pub(crate) fn look_at_words(words: &Words)
    ensures { AllByRecursion (λ n. n < 2 ^ 64) words.now }
{
    look_at_all_numbers(words.items());
}

fn look_at_all_numbers(ns: &[u64])
    ensures { AllByRecursion (λ n. n < 2 ^ 64) ns.now }
{}

pub(crate) fn look_at_events(events: &Option<List<u64>>)
    ensures { AreSmall events.now }
{
    match events {
        None => {}
        Some(events) => look_at_numbers(events),
    }
}

pub(crate) fn look_at_index(index: &Index)
    ensures whole { AllByRecursion IsWhole index.now }
    ensures plain { IsPlain 1 (indices_data index.now) }
{
    look_at_all_indices(index.items());
}

fn look_at_all_indices(zs: &[i64])
    ensures { AllByRecursion IsWhole zs.now }
{
    for z in zs {
        look_at_integer(*z);
    }
}

pub(crate) fn look_at_integer(z: i64)
    ensures { IsWhole z }
{}

pub(crate) fn look_at_name(name: &Name)
    ensures { IsUtf8 name.now }
{
    look_at_text(name.items());
}

fn look_at_text(text: &str)
    ensures { IsUtf8 text.now }
{}

fn look_at_labels(labels: &List<Name>)
    ensures { AllByRecursion IsUtf8 labels.now }
{
    look_at_names(labels.items());
}

fn look_at_names(names: &[Name])
    ensures { AllByRecursion IsUtf8 names.now }
{
    for i in 0..names.len() {
        look_at_name(name_at(names, i));
    }
}

fn name_at(names: &[Name], i: usize) -> &Name
    requires { i < length names.now }
    ensures { (d : ListOf ℕ) → result.now ≡ get_or names.now i d }
{
    &names[i]
}

fn look_at_dims(dims: &List<Interval>)
    ensures { IsTrue (list_all are_bounds dims.now) }
{
    look_at_all(dims.items());
}

pub(crate) fn look_at_domain(domain: &Domain)
    ensures { IsPlain 3 (domain_data domain.now) }
{
    look_at_dims(&domain.dims);
    look_at_labels(&domain.labels);
}

pub(crate) fn look_at_transform(transform: &Transform)
    ensures { IsPlain 35 (transform_data transform.now) }
{
    look_at_maps(transform.maps());
    look_at_labels(&transform.domain().labels);
}

fn look_at_maps(maps: &[OutMap])
    ensures { AllByRecursion HasNumbers maps.now }
{
    for map in maps {
        look_at_map(map);
    }
}

fn look_at_map(map: &OutMap)
    ensures { HasNumbers map.now }
{
    match map {
        OutMap::Constant { offset } => look_at_integer(*offset),
        OutMap::Strided {
            offset,
            stride,
            dim,
        } => {
            look_at_integer(*offset);
            look_at_integer(*stride);
            look_at_u32(*dim);
        }
        OutMap::Indexed { offset, stride, .. } => {
            look_at_integer(*offset);
            look_at_integer(*stride);
        }
    }
}
