// A file is written, or the reason why not is told in words.
use anyhow::anyhow;
use std::fs;

pub(crate) fn write_file(rt: &HostRuntime, file: &str, bytes: &[u8]) -> anyhow::Result<()> {
    fs::write(rt, file, bytes).map_err(|e| anyhow!("{file} cannot be written: {e}"))
}
