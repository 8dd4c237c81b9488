// What the program is asked for besides the rehearsal.
use anyhow::bail;
use std::env;

// The file for what carriage A heard, where one is named.
pub(crate) fn capture_file(rt: &HostRuntime) -> anyhow::Result<Option<String>> {
    let mut words = env::args(rt)?.skip(1);
    let Some(option) = words.next() else {
        return Ok(None);
    };
    match (words.next(), words.next()) {
        (Some(file), None) if option.as_str() == "--capture" => Ok(Some(file)),
        _ => bail!("rehearse takes no arguments, or --capture and the name of a file"),
    }
}
