// What standard error says.
use script_runner::{Mount, Store};

/// Says what went wrong, if anything did, and tells the status. Scripts are counted from 1.
pub(crate) fn say(rt: &impl Eprint, status: u8, script: Option<u32>) -> u8 {
    let number = script.map_or(1, |place| u64::from(place) + 1);
    let _ = match status {
        2 => eprintln!(rt; "tensor_run: words refused"),
        3 => eprintln!(rt; "tensor_run: script {number} was not read"),
        4 => eprintln!(rt; "tensor_run: output failed"),
        5 => eprintln!(rt; "tensor_run: out of memory"),
        _ => Ok(()),
    };
    status
}

/// The same of a check, whose files aren't counted.
pub(crate) fn say_checked(rt: &impl Eprint, status: u8) -> u8 {
    if status == 3 {
        let _ = eprintln!(rt; "tensor_run: a file was not read");
        return status;
    }
    say(rt, status, None)
}

/// Says which mounts were not finished, by their places.
pub(crate) fn say_unfinished(
    rt: &impl Eprint,
    mounts: &[Mount<Store<HostRuntime>>],
    unfinished: &[u32],
) {
    for place in unfinished {
        if let Some(mount) = mounts.get(*place as usize) {
            let name = mount.name.items();
            let _ = eprintln!(rt; "tensor_run: mount {name} was not finished");
        }
    }
}
