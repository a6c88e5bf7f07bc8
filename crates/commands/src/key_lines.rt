//! On which line of a TOML document a key stands: a hint to whoever looks for it.

ghost use Rattle.std.specs.Prelude.{◌≡◌, ◌<◌};
ghost use Rattle.std.specs.Option.{option_copied};
ghost use Rattle.std.specs.Str.{bytes_eq};
ghost use Rattle.commands.specs.Inputs.{line_behind};
ghost use Rattle.commands.specs.KeyLines.{before_mark, behind, is_named, key_in, line_of, path_in};
ghost use Rattle.commands.specs.KeyLines.{table_behind, table_in};

/// What stands behind this beginning, if the text begins so.
fn behind<'a>(text: &'a str, beginning: &str) -> Option<&'a str>
    ensures { option_copied result ≡ behind beginning.now text.now }
{
    text.strip_prefix(beginning)
}

/// What stands before the first such mark, without white space around it.
fn before_mark(text: &str, mark: char) -> Option<&str>
    requires { mark < 128 }
    ensures { option_copied result ≡ before_mark mark text.now }
{
    match text.split_once(mark) {
        Some((before, _)) => Some(before.trim()),
        None => None,
    }
}

/// The table that a line opens, if it is `[TABLE]` or `[[TABLE]]`.
fn table_in(line: &str) -> Option<&str>
    ensures { option_copied result ≡ table_in line.now }
{
    if let Some(inner) = behind(line, "[[") {
        return before_mark(inner, ']');
    }
    match behind(line, "[") {
        Some(inner) => before_mark(inner, ']'),
        None => None,
    }
}

/// The table in which the next line stands, if this one stands in `table`.
fn table_behind<'a>(line: &'a str, table: &'a str) -> &'a str
    ensures { result.now ≡ table_behind table.now line.now }
{
    match table_in(line) {
        Some(name) => name,
        None => table,
    }
}

/// The key that a line sets, as it is written.
fn key_in(line: &str) -> Option<&str>
    ensures { option_copied result ≡ key_in line.now }
{
    before_mark(line, '=')
}

/// Whether this is the path of a key that is written so in this table.
fn is_path(path: &str, table: &str, key: &str) -> bool
    ensures { result ≡ bytes_eq path.now (path_in table.now key.now) }
{
    if table.is_empty() {
        return path == key;
    }
    let Some(rest) = behind(path, table) else {
        return false;
    };
    match behind(rest, ".") {
        Some(name) => name == key,
        None => false,
    }
}

/// Whether a line names this path: it opens the table, or sets the key, whose path this is.
fn is_named(line: &str, table: &str, path: &str) -> bool
    ensures { result ≡ is_named path.now table.now line.now }
{
    match table_in(line) {
        Some(name) => path == name,
        None => match key_in(line) {
            Some(key) => is_path(path, table, key),
            None => false,
        },
    }
}

/// The line, from 1, on which the key of this path stands, behind `before` other lines on which it
/// stands; None if none is found. A key that is quoted, or is set inside of a table that is
/// written on one line, isn't found, or a key that is known is found in its place, if it has this
/// path; a line of a text of several lines may be taken for one that sets a key.
pub fn line_of(text: &str, path: &str, before: usize) -> Option<usize>
    ensures { result ≡ line_of text.now path.now before }
{
    let mut table = "";
    let mut left = before;
    for (i, line) in text.lines().enumerate() {
        let line = line.trim();
        if is_named(line, table, path) {
            if left == 0 {
                return Some(i.saturating_add(1));
            }
            left -= 1;
        }
        table = table_behind(line, table);
    }
    None
}

/// The line, from 1, in which the octet behind these stands.
pub fn line_behind(octets: &[u8]) -> usize
    ensures { result ≡ line_behind octets.now }
{
    octets.iter().filter(|octet| **octet == b'\n').count() + 1
}
