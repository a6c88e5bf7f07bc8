//! Settings that are read while memory is refused: that is told, and they are read then.

use settings::{Settings, SettingsFault, read_settings, write_settings};
use std::alloc::Global;
use std::io::{self, Write};

const TWICE: &str = "settings were refused twice";

/// The settings of a text, read again if memory was refused.
fn settings_of(alloc: Global, text: &str) -> Result<Settings, &'static str> {
    match read_settings(alloc, text) {
        Ok(settings) => Ok(settings),
        Err(SettingsFault::Memory) => read_settings(alloc, text).map_err(|_| TWICE),
        Err(_) => Err("the settings aren't read"),
    }
}

/// Reads settings, and prints them as the program prints those that it has checked.
pub fn read_again(rt: &impl Print, alloc: Global, text: &[u8]) -> Result<(), &'static str> {
    let Ok(text) = str::from_utf8(text) else {
        return Err("the settings are no text");
    };
    let settings = settings_of(alloc, text)?;
    let mut out = io::writer(rt);
    let written = out
        .write_all(b"settings: ok\n")
        .and_then(|()| write_settings(&settings, &mut out));
    written.map_err(|_| "standard output failed")
}
