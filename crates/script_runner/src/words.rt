// The mounts that words ask for.
ghost use Rattle.std.specs.Prelude.{◌≡◌, IfOk, is_some, map, string_bytes};
ghost use Rattle.kv_mounts.specs.Parts.{AreMounts};
ghost use Rattle.script_runner.specs.Parts.{parts_of};
ghost use Rattle.script_runner.specs.Words.{mount_words, names_folder};

use crate::mounts::new_mounts;
use crate::store::Store;
use kv_mounts::Mount;
use std::alloc::AllocError;
use std::fs::Files;

/// The mounts that the words of a command line ask for, and how many words at the front were about them: `memory` and `file` where the first word
/// is `--root` and a folder stands behind it, and two words; else `memory` alone, and none.
///
/// # Errors
/// An allocation failed.
pub fn mounts_by<R: Files + AllocGlobal + Drop>(
    rt: R,
    words: &[String],
) -> Result<(Vec<Mount<Store<R>>>, usize), AllocError>
    ensures are { IfOk result (λ r. AreMounts r.0.items) }
    ensures parts { IfOk result (λ r. r.0.items ≡ parts_of (names_folder (map string_bytes words.now))) }
    ensures words { IfOk result (λ r. r.1 ≡ mount_words (map string_bytes words.now)) }
{
    let folder = folder_of(words);
    let count = if folder.is_some() { 2 } else { 0 };
    Ok((new_mounts(rt, folder)?, count))
}

fn folder_of(words: &[String]) -> Option<&str>
    ensures { is_some result ≡ names_folder (map string_bytes words.now) }
{
    match words {
        [option, folder, ..] if option.as_str() == "--root" => Some(folder.as_str()),
        _ => None,
    }
}
