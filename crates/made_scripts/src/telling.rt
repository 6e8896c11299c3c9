// The one line about a run.
ghost use Rattle.std.specs.Prelude.{◌≡◌, ◌++◌, pos, map, not, IfOk, IfSome, OnOk, codes, decimal};
ghost use Rattle.std.specs.List.{count_by};
ghost use Rattle.std.specs.Fmt.{signed_decimal};
ghost use Rattle.cells.specs.Numbers.{number_of};
ghost use Rattle.answer_text.specs.Status.{is_ok_answer};
ghost use Rattle.made_scripts.specs.Summary.{summary_text, reading_log, first_commit, commit_of, commits, is_commit, refused, numbers_of, numbers_read, added};

use crate::pieces::{put, put_around};
use answer_text::{Answer, Body, is_ok};
use cells::{Dtype, List};
use history::{Event, Kind};
use itoa::Buffer;
use std::alloc::{AllocError, Global};

/// The line that tells how a run of the nine scripts went: the number of the event that the last session committed (0 where it committed
/// none), how many commits and how many events there are, how many answers aren't Ok, and the sum of the numbers that the last session read.
///
/// # Errors
/// An allocation failed, the answers that aren't Ok are 2^64 or more, or the sum has no room in 128 bits.
pub fn summary(
    alloc: Global,
    logs: &[List<Answer>],
    history: &[Event],
) -> Result<Vec<u8>, AllocError>
    ensures { IfOk result (λ line. line.items ≡ summary_text logs.now history.now) }
{
    let last = reading_log(logs);
    let at = first_commit(last);
    let refused = refused(logs).ok_or(AllocError)?;
    let sum = sum_of(last).ok_or(AllocError)?;
    told(
        alloc,
        at,
        commits(history),
        history.len() as u64,
        refused,
        sum,
    )
}

fn told(
    alloc: Global,
    at: u64,
    commits: u64,
    events: u64,
    refused: u64,
    sum: i128,
) -> Result<Vec<u8>, AllocError>
    ensures { IfOk result (λ line. line.items ≡ (codes "{\"at\":" ++ decimal at ++ codes ",\"commits\":")
        ++ (codes "" ++ decimal commits ++ codes ",\"events\":")
        ++ (codes "" ++ decimal events ++ codes ",\"refused\":")
        ++ (codes "" ++ decimal refused ++ codes ",\"sum\":")
        ++ signed_decimal sum
        ++ codes "}\n") }
{
    let mut line = Vec::new(alloc);
    put_around(&mut line, "{\"at\":", at, ",\"commits\":")?;
    put_around(&mut line, "", commits, ",\"events\":")?;
    put_around(&mut line, "", events, ",\"refused\":")?;
    put_around(&mut line, "", refused, ",\"sum\":")?;
    put_sum(&mut line, sum)?;
    put(&mut line, "}\n")?;
    Ok(line)
}

fn put_sum(out: &mut Vec<u8>, sum: i128) -> Result<(), AllocError>
    ensures { OnOk result (out.new.items ≡ out.old.items ++ signed_decimal sum) }
{
    let mut buffer = Buffer::new();
    out.extend_from_slice(buffer.format(sum).as_bytes())
}

fn reading_log(logs: &[List<Answer>]) -> &[Answer]
    ensures { result.now ≡ reading_log logs.now }
{
    match logs.get(8) {
        Some(log) => log.items(),
        None => &[],
    }
}

fn first_commit(log: &[Answer]) -> u64
    ensures { result ≡ first_commit log.now }
{
    for answer in log {
        if let [first, ..] = commit_of(&answer.body) {
            return *first;
        }
    }
    0
}

fn commit_of(body: &Body) -> &[u64]
    ensures { result.now ≡ commit_of body.now }
{
    match body {
        Body::Committed { events } => events.items(),
        _ => &[],
    }
}

#[tactic(auto, using(std::proofs::lemmas::List::Sums::count_by_more_yes, std::proofs::lemmas::List::Sums::count_by_more_no))]
fn commits(history: &[Event]) -> u64
    ensures { result ≡ commits history.now }
{
    let mut count = 0u64;
    for event in history {
        if is_commit(&event.kind) {
            count += 1;
        }
    }
    count
}

fn is_commit(kind: &Kind) -> bool
    ensures { result ≡ is_commit kind.now }
{
    matches!(kind, Kind::Done { .. })
}

fn refused(logs: &[List<Answer>]) -> Option<u64>
    ensures { IfSome result (λ count. count ≡ refused logs.now) }
{
    let mut count = 0u64;
    for log in logs {
        count = count.checked_add(refused_in(log.items()))?;
    }
    Some(count)
}

#[tactic(auto, using(std::proofs::lemmas::List::Sums::count_by_more_yes, std::proofs::lemmas::List::Sums::count_by_more_no))]
fn refused_in(log: &[Answer]) -> u64
    ensures { result ≡ count_by (λ answer. not (is_ok_answer answer)) log.now }
{
    let mut count = 0u64;
    for answer in log {
        if !is_ok(answer) {
            count += 1;
        }
    }
    count
}

fn sum_of(log: &[Answer]) -> Option<i128>
    ensures { IfSome result (λ sum. sum ≡ added (pos 0) (numbers_read log.now)) }
{
    let mut sum = 0i128;
    for answer in log {
        sum = with_numbers(sum, &answer.body)?;
    }
    Some(sum)
}

fn with_numbers(start: i128, body: &Body) -> Option<i128>
    ensures { IfSome result (λ sum. sum ≡ added start (numbers_of body.now)) }
{
    match body {
        Body::Values { dtype, words, .. } => with_words(start, *dtype, words.items()),
        _ => Some(start),
    }
}

fn with_words(start: i128, dtype: Dtype, words: &[u64]) -> Option<i128>
    ensures { IfSome result (λ sum. sum ≡ added start (map (number_of dtype) words.now)) }
{
    let mut sum = start;
    for word in words {
        sum = sum.checked_add(number_of(dtype, *word))?;
    }
    Some(sum)
}

fn number_of(dtype: Dtype, word: u64) -> i128
    ensures { result ≡ number_of dtype word }
{
    if dtype.is_signed() {
        i128::from(word.cast_signed())
    } else {
        i128::from(word)
    }
}
