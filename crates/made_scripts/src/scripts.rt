// The nine scripts.
ghost use Rattle.std.specs.Prelude.{◌≡◌, ◌++◌, ◌<◌, ◌≤◌, ◌+◌, ◌*◌, ◌^◌, IfOk, OnOk, map};
ghost use Rattle.made_scripts.specs.Texts.{parts};
ghost use Rattle.made_scripts.specs.Scripts.{made, script_of, shared_script, own_script, reading_script, write_block, write_rows, own_block, read_part, write_part, open_own, write_own, open_again, read_again, rows_text, row_text, number_at};

use crate::pieces::{put, put_around, put_comma, put_number};
use std::alloc::{AllocError, Global};

const OPEN_SHARED: &str =
    "{\"open\":\"m\",\"spec\":{\"create\":true,\"driver\":\"zarr\",\"kvstore\":{\"driver\":\"memory\",\"path\":\"made\"},\"metadata\":{\"chunks\":[100,100],\"dtype\":\"<i4\",\"shape\":[1000,1000]},\"open\":true}}\n";

/// The nine scripts that are made from a number. Four sessions write every fourth row of one array, in a transaction those of 100 rows; four
/// have an array of their own, of which they read and write 100 cells in a transaction; the last reads all of these arrays in one. The
/// number tells which numbers are written.
///
/// # Errors
/// An allocation failed.
pub fn make_scripts(alloc: Global, number: u32) -> Result<Vec<Vec<u8>>, AllocError>
    ensures { IfOk result (λ scripts. map (λ v. v.items) scripts.items ≡ made number) }
{
    let mut scripts = Vec::with_capacity(alloc, 9)?;
    for session in 0..9 {
        scripts.push(script(alloc, number, session)?)?;
    }
    Ok(scripts)
}

fn script(alloc: Global, number: u32, session: u64) -> Result<Vec<u8>, AllocError>
    requires { session < 9 }
    ensures { IfOk result (λ v. v.items ≡ script_of number session) }
{
    if session < 4 {
        shared_script(alloc, number, session)
    } else if session < 8 {
        own_script(alloc, number, session)
    } else {
        reading_script(alloc)
    }
}

fn shared_script(alloc: Global, number: u32, session: u64) -> Result<Vec<u8>, AllocError>
    requires { session < 4 }
    ensures { IfOk result (λ v. v.items ≡ shared_script number session) }
{
    let mut out = Vec::new(alloc);
    put(&mut out, OPEN_SHARED)?;
    for block in 0..10 {
        put_block(&mut out, number, session, block)?;
    }
    Ok(out)
}

fn put_block(out: &mut Vec<u8>, number: u32, session: u64, block: u64) -> Result<(), AllocError>
    requires session { session < 4 }
    requires block { block < 10 }
    ensures { OnOk result (out.new.items ≡ out.old.items ++ write_block number session block) }
{
    put(out, "{\"begin\":{}}\n")?;
    put_write(out, number, 100 * block + session, 100 * block + 100)?;
    put(out, "{\"commit\":true}\n")
}

#[tactic(auto, unfolding(crate::specs::Scripts::write_rows))]
fn put_write(out: &mut Vec<u8>, number: u32, first: u64, end: u64) -> Result<(), AllocError>
    requires { first < 1000 }
    ensures { OnOk result (out.new.items ≡ out.old.items ++ write_rows number first end) }
{
    put_around(
        out,
        "{\"steps\":[{\"dims\":[0],\"slice\":{\"start\":",
        first,
        ",\"step\":4,\"stop\":",
    )?;
    put_around(out, "", end, "}}],\"values\":")?;
    put_rows(out, number, first)?;
    put(out, ",\"write\":\"m\"}\n")
}

fn put_rows(out: &mut Vec<u8>, number: u32, first: u64) -> Result<(), AllocError>
    requires { first < 1000 }
    ensures { OnOk result (out.new.items ≡ out.old.items ++ rows_text number first) }
{
    put(out, "[")?;
    for place in 0..25 {
        put_comma(out, place)?;
        put_row(out, number, 1000 * (first + 4 * place))?;
    }
    put(out, "]")
}

fn put_row(out: &mut Vec<u8>, number: u32, from: u64) -> Result<(), AllocError>
    requires { from < 2 ^ 32 }
    ensures { OnOk result (out.new.items ≡ out.old.items ++ row_text number from) }
{
    put(out, "[")?;
    for place in 0..1000 {
        put_comma(out, place)?;
        put_number(out, number_at(number, from + place))?;
    }
    put(out, "]")
}

fn number_at(number: u32, place: u64) -> u64
    requires { place < 2 ^ 33 }
    ensures { result ≡ number_at number place }
{
    (u64::from(number) + 31 * place) % 1000 + u64::from(number % 100)
}

fn own_script(alloc: Global, number: u32, session: u64) -> Result<Vec<u8>, AllocError>
    ensures { IfOk result (λ v. v.items ≡ own_script number session) }
{
    let mut out = Vec::new(alloc);
    put_open_own(&mut out, session)?;
    put_write_own(&mut out, number)?;
    for block in 0..10 {
        put_own_block(&mut out, block)?;
    }
    Ok(out)
}

#[tactic(auto, unfolding(crate::specs::Scripts::open_own))]
fn put_open_own(out: &mut Vec<u8>, session: u64) -> Result<(), AllocError>
    ensures { OnOk result (out.new.items ≡ out.old.items ++ open_own session) }
{
    put_around(
        out,
        "{\"open\":\"o\",\"spec\":{\"create\":true,\"driver\":\"zarr\",\"kvstore\":{\"driver\":\"memory\",\"path\":\"own",
        session,
        "\"},\"metadata\":{\"chunks\":[100],\"dtype\":\"<i4\",\"shape\":[1000]}}}\n",
    )
}

fn put_write_own(out: &mut Vec<u8>, number: u32) -> Result<(), AllocError>
    ensures { OnOk result (out.new.items ≡ out.old.items ++ write_own number) }
{
    put(out, "{\"values\":")?;
    put_row(out, number, 0)?;
    put(out, ",\"write\":\"o\"}\n")
}

#[tactic(auto, unfolding(crate::specs::Scripts::own_block))]
fn put_own_block(out: &mut Vec<u8>, block: u64) -> Result<(), AllocError>
    requires { block < 10 }
    ensures { OnOk result (out.new.items ≡ out.old.items ++ own_block block) }
{
    put(out, "{\"begin\":{\"repeatable_read\":true}}\n")?;
    put_read_part(out, block)?;
    put_write_part(out, block)?;
    put(out, "{\"commit\":true}\n")
}

#[tactic(auto, unfolding(crate::specs::Scripts::read_part))]
fn put_read_part(out: &mut Vec<u8>, block: u64) -> Result<(), AllocError>
    requires { block < 10 }
    ensures { OnOk result (out.new.items ≡ out.old.items ++ read_part block) }
{
    put_around(
        out,
        "{\"read\":\"o\",\"steps\":[{\"slice\":{\"start\":",
        100 * block,
        ",\"stop\":",
    )?;
    put_around(out, "", 100 * block + 100, "}}]}\n")
}

#[tactic(auto, unfolding(crate::specs::Scripts::write_part))]
fn put_write_part(out: &mut Vec<u8>, block: u64) -> Result<(), AllocError>
    requires { block < 10 }
    ensures { OnOk result (out.new.items ≡ out.old.items ++ write_part block) }
{
    put_around(
        out,
        "{\"steps\":[{\"slice\":{\"start\":",
        100 * block,
        ",\"stop\":",
    )?;
    put_around(out, "", 100 * block + 100, "}}],\"values\":")?;
    put_around(out, "", block, ",\"write\":\"o\"}\n")
}

#[tactic(auto, unfolding(crate::specs::Scripts::reading_script))]
fn reading_script(alloc: Global) -> Result<Vec<u8>, AllocError>
    ensures { IfOk result (λ v. v.items ≡ reading_script) }
{
    let mut out = Vec::new(alloc);
    put(
        &mut out,
        "{\"open\":\"m\",\"spec\":{\"driver\":\"zarr\",\"kvstore\":{\"driver\":\"memory\",\"path\":\"made\"}}}\n",
    )?;
    put_opens(&mut out)?;
    put(&mut out, "{\"begin\":{\"repeatable_read\":true}}\n")?;
    put(&mut out, "{\"read\":\"m\"}\n")?;
    put_reads(&mut out)?;
    put(&mut out, "{\"commit\":true}\n")?;
    Ok(out)
}

fn put_opens(out: &mut Vec<u8>) -> Result<(), AllocError>
    ensures { OnOk result (out.new.items ≡ out.old.items ++ parts 4 (λ k. open_again (4 + k))) }
{
    for k in 0..4 {
        put_open_again(out, 4 + k)?;
    }
    Ok(())
}

#[tactic(auto, unfolding(crate::specs::Scripts::open_again))]
fn put_open_again(out: &mut Vec<u8>, session: u64) -> Result<(), AllocError>
    ensures { OnOk result (out.new.items ≡ out.old.items ++ open_again session) }
{
    put_around(
        out,
        "{\"open\":\"o",
        session,
        "\",\"spec\":{\"driver\":\"zarr\",\"kvstore\":{\"driver\":\"memory\",\"path\":\"own",
    )?;
    put_around(out, "", session, "\"}}}\n")
}

fn put_reads(out: &mut Vec<u8>) -> Result<(), AllocError>
    ensures { OnOk result (out.new.items ≡ out.old.items ++ parts 4 (λ k. read_again (4 + k))) }
{
    for k in 0..4 {
        put_around(out, "{\"read\":\"o", 4 + k, "\"}\n")?;
    }
    Ok(())
}
