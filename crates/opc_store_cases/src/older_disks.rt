//! Tables of an older version, opened over disks that stop.
use crate::files::{Stop, closed, connected, crashed, disconnected, made, opened, stopping};
use anyhow::{Result, bail};
use sqlite::{Connection, FileStore, Files, Row};
use sqlite_disk::{Crash, Disk};
use std::alloc::Global;

/// The rows of each table with columns that all versions have, each as a text.
const SHARED: [&str; 15] = [
    "SELECT 'meta ' || version FROM meta",
    "SELECT 'classes ' || class || ' ' || active FROM classes",
    "SELECT 'consoles ' || name || ' ' || auth || ' ' || mode || ' ' || online || ' ' ||
        coalesce(usr, '-') || ' ' || monitor FROM consoles",
    "SELECT 'units ' || name || ' ' || kind || ' ' || coalesce(member, '-') || ' ' ||
        cancelable || ' ' || stopping || ' ' || coalesce(last, '-') FROM units",
    "SELECT 'devices ' || number || ' ' || online || ' ' || coalesce(volume, '-') || ' ' ||
        coalesce(unit, '-') FROM devices",
    "SELECT 'replies ' || id || ' ' || text FROM replies",
    "SELECT 'answered ' || number || ' ' || id || ' ' || text FROM answered",
    "SELECT 'log ' || number || ' ' || text FROM log",
    "SELECT 'messages ' || number || ' ' || usr || ' ' || text FROM messages",
    "SELECT 'board ' || halted FROM board",
    "SELECT 'account ' || number || ' ' || moment || ' ' || console || ' ' || usr || ' ' ||
        code || ' ' || rule FROM account",
    "SELECT 'grp ' || name FROM grp",
    "SELECT 'profiles ' || class || ' ' || pattern || ' ' || owner || ' ' || uacc ||
        ' ' || warning || ' ' || hex(skey) || ' ' || head FROM profiles",
    "SELECT 'batches ' || number || ' ' || replace(rows, '\n', ';') FROM batches",
    "SELECT 'connects ' || usr || ' ' || grp FROM connects",
];

/// Those of the others, in version 2.
const OLD: [&str; 2] = [
    "SELECT 'usr ' || id || ' ' || special || ' ' || auditor || ' ' || revoked || ' ' ||
        hex(digest) FROM usr",
    "SELECT 'entries ' || class || ' ' || pattern || ' ' || id || ' ' || level FROM entries",
];

/// Those of the others, in this version.
const NEW: [&str; 2] = [
    "SELECT 'usr ' || id || ' ' || special || ' ' || auditor || ' ' || revoked || ' ' ||
        hex(digest) || ' ' || restricted FROM usr",
    "SELECT 'entries ' || class || ' ' || pattern || ' ' || id || ' (' || console || ') ' || level
        FROM entries",
];

/// Whether each stop of an opening, after one more call each time, leaves the old rows or the new ones, up to one that
/// succeeded; and the new ones, as an opening that nothing stops leaves them.
pub fn older_tables(alloc: Global, statements: &str, stop: Stop) -> Result<String> {
    let old = rows_in(alloc, made(alloc, statements)?)?;
    let (new, _) = trial(alloc, stopping(made(alloc, statements)?, Stop::Nothing, 0))?;
    for calls in 0..2000u64 {
        let (rows, done) = trial(alloc, stopping(made(alloc, statements)?, stop, calls))?;
        let whole = rows.as_str() == new.as_str() || !done && rows.as_str() == old.as_str();
        if !whole || calls == 0 && done {
            bail!("no whole tables after {calls} calls");
        }
        if done {
            return Ok(format!(in alloc; "{new}old tables or new at each stop, and new at last\n")?);
        }
    }
    bail!("never new tables")
}

/// The rows that a crash leaves after an opening, and whether the opening succeeded.
fn trial<D: Crash + Drop>(alloc: Global, files: Files<D>) -> Result<(String, bool)> {
    let (done, files) = tried(alloc, files);
    Ok((rows_in(alloc, crashed(files))?, done))
}

/// Whether an opening succeeded, and the files.
fn tried<D: Disk + Drop>(alloc: Global, files: Files<D>) -> (bool, Files<D>) {
    match opened(alloc, files) {
        Ok(store) => (true, closed(store)),
        Err(files) => (false, files),
    }
}

/// The rows of all tables, read without opening the files as a store.
fn rows_in<D: Disk + Drop>(alloc: Global, files: Files<D>) -> Result<String> {
    let Ok(mut conn) = connected(alloc, files) else {
        bail!("not opened again");
    };
    let rows = rows_on(alloc, &mut conn);
    let _files = disconnected(conn);
    rows
}

fn rows_on<D: Disk + Drop>(alloc: Global, conn: &mut Connection<FileStore<D>>) -> Result<String> {
    let mut text = String::new(alloc);
    add_rows(&mut text, conn, &SHARED)?;
    let is_new = text.as_str().starts_with("meta 3\n");
    add_rows(&mut text, conn, if is_new { &NEW } else { &OLD })?;
    Ok(text)
}

fn add_rows<D: Disk + Drop>(
    text: &mut String,
    conn: &mut Connection<FileStore<D>>,
    queries: &[&str],
) -> Result<()> {
    for sql in queries {
        let rows = conn.query_all(sql, &[])?;
        add_texts(text, rows.as_slice())?;
    }
    Ok(())
}

/// Adds a line of each row.
fn add_texts(text: &mut String, rows: &[Row]) -> Result<()> {
    for row in rows {
        let line: String = row.get(0)?;
        text.push_str(line.as_str())?;
        text.push('\n')?;
    }
    Ok(())
}
