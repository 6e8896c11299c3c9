// Scripts that are read from memory.
ghost use Rattle.std.specs.Prelude.{◌≤◌, length};

use case_lines::{Fault, items, items_if, number_or, text_of};
use script_runner::{MemoryScripts, read_scripts};
use serde_json::Value;
use std::alloc::Global;
use std::str;

// The most bytes of a text that is printed.
const SHORT: usize = 40;

/// What comes of names: how many scripts were read, and of each how long it is, and its text where that is short; else why not.
///
/// `scripts` has names and texts, `sizes` names and how many bytes `x` a script has; `fail_select` and `fail_next` name a call that is to fail.
pub(crate) fn read_line(alloc: Global, v: &Value, names: &Value) -> Result<String, Fault> {
    let mut scripts = MemoryScripts::new(alloc);
    fill(alloc, &mut scripts, v)?;
    read_names(alloc, &mut scripts, items(names)?)
}

fn fill(alloc: Global, scripts: &mut MemoryScripts, v: &Value) -> Result<(), Fault> {
    for script in items_if(v, "scripts")? {
        add(scripts, items(script)?)?;
    }
    for script in items_if(v, "sizes")? {
        add_long(alloc, scripts, items(script)?)?;
    }
    scripts.fail_select(number_or(v, "fail_select", 0)?)?;
    scripts.fail_next(number_or(v, "fail_next", 0)?)?;
    Ok(())
}

fn add(scripts: &mut MemoryScripts, parts: &[Value]) -> Result<(), Fault> {
    let [name, bytes] = parts else {
        return Err(Fault::Line);
    };
    scripts.add(text_of(name)?, text_of(bytes)?.as_bytes())?;
    Ok(())
}

fn add_long(alloc: Global, scripts: &mut MemoryScripts, parts: &[Value]) -> Result<(), Fault> {
    let [name, size] = parts else {
        return Err(Fault::Line);
    };
    let size = size.as_u64().ok_or(Fault::Line)?;
    let bytes = vec![in alloc; b'x'; size as usize]?;
    scripts.add(text_of(name)?, &bytes)?;
    Ok(())
}

fn read_names(
    alloc: Global,
    scripts: &mut MemoryScripts,
    names: &[Value],
) -> Result<String, Fault> {
    let names = strings(alloc, names)?;
    read(alloc, scripts, &names)
}

fn strings(alloc: Global, names: &[Value]) -> Result<Vec<String>, Fault> {
    let mut all = Vec::with_capacity(alloc, names.len())?;
    for name in names {
        all.push(String::from_str(alloc, text_of(name)?)?)?;
    }
    Ok(all)
}

fn read(alloc: Global, scripts: &mut MemoryScripts, names: &[String]) -> Result<String, Fault> {
    if names.len() > 1024 {
        return Err(Fault::Line);
    }
    match read_scripts(alloc, scripts, names) {
        Ok(texts) => shown(alloc, &texts),
        Err(cause) => Ok(format!(in alloc; "{cause:?}")?),
    }
}

fn shown(alloc: Global, texts: &[Vec<u8>]) -> Result<String, Fault> {
    let mut all = String::from_str(alloc, "read")?;
    for bytes in texts {
        put_text(alloc, &mut all, bytes)?;
    }
    Ok(all)
}

fn put_text(alloc: Global, all: &mut String, bytes: &[u8]) -> Result<(), Fault> {
    let part = part(alloc, bytes)?;
    all.push_str(part.as_str())?;
    Ok(())
}

fn part(alloc: Global, bytes: &[u8]) -> Result<String, Fault> {
    let size = bytes.len();
    if size > SHORT {
        return Ok(format!(in alloc; " {size}")?);
    }
    let text = str::from_utf8(bytes).map_err(|_| Fault::Line)?;
    Ok(format!(in alloc; " {size} {text:?}")?)
}
