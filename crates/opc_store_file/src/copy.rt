//! A database file or its log, read whole: a file of its own in memory. What is written to it never reaches the disk.
ghost use Rattle.std.specs.Prelude.{◌≡◌, false, IfOk, OnErr, OnOk, is_ok, length};
ghost use Rattle.sqlite_disk.specs.Disk.{CountsFault, Cut, Holds, Torn};
ghost use Rattle.sqlite_disk.specs.Refusal.{finds_no_room};
ghost use Rattle.opc_store_file.specs.Copies.{held_over};

use sqlite_disk::{Disk, Start, Tally, digest_of};
use std::alloc::AllocError;
use std::io;
use std::io::ErrorKind;
use std::marker::PhantomData;

/// What a file held as it was read, and what was written since. `S` stands for what the file held.
#[derive(Drop)]
pub struct CopyFrom<S: Start> {
    read: Vec<u8>,
    /// What it holds since the first write.
    written: Option<Vec<u8>>,
    is_log: bool,
    start: PhantomData<S>,
    faults: u64,
    caught: u64,
}

impl<S: Start> CopyFrom<S> {
    ghost use Rattle.opc_store_file.specs.Copies.{IsAsRead, bytes_read, is_blank};

    pub fn new(read: Vec<u8>, is_log: bool) -> Self
        ensures bytes { bytes_read result ≡ read.items }
        ensures unwritten { IsAsRead is_log result }
    {
        CopyFrom {
            read,
            written: None,
            is_log,
            start: PhantomData,
            faults: 0,
            caught: 0,
        }
    }

    /// Whether the file was empty, or of one byte.
    pub fn is_blank(&self) -> bool
        ensures { result ≡ is_blank (bytes_read self.now) }
    {
        self.read.len() <= 1
    }
}

impl<S: Start> Disk for CopyFrom<S> {
    ghost use Rattle.std.specs.Prelude.{refl, true};
    ghost use Rattle.opc_store_file.specs.Copies.{bytes_held, is_faithful};

    ghost seen = { bytes_held };

    // Nothing here survives a crash, so none leaves anything but what is there.
    ghost may_leave = { λ c bytes. bytes ≡ bytes_held c };

    ghost is_usable = { λ _. true };

    ghost faults = { λ c. c.faults };

    // What was read counts as the file's, if it is what `S` states.
    ghost is_clean = { is_faithful S.Start };

    ghost tally_of = { λ c. record { caught = c.caught; refused = 0 } };

    ghost key_of = { λ _. 0 };

    ghost is_fair = { λ c _. is_faithful S.Start c };

    ghost fair_if_clean = { λ _ _ clean. clean };

    ghost seen_may_stay = { λ _. refl };

    fn mixes(&self) -> bool {
        false
    }

    // Memory returns what was written, so it needs no secret.
    fn key(&self) -> u64 {
        0
    }

    fn tally(&self) -> Tally {
        Tally {
            caught: self.caught,
            refused: 0,
        }
    }

    fn may_be_used(&self) -> bool {
        true
    }

    fn len(&mut self) -> io::Result<usize> {
        Ok(held(&self.read, &self.written).len())
    }

    fn read_at(&mut self, at: usize, buf: &mut [u8]) -> io::Result<()> {
        let outcome = copy_range(held(&self.read, &self.written), at, buf);
        if outcome.is_err() {
            self.faults = self.faults.saturating_add(1);
        }
        outcome
    }

    fn read_checked(&mut self, key: u64, want: u64, at: usize, buf: &mut [u8]) -> io::Result<()> {
        let outcome = copy_range(held(&self.read, &self.written), at, buf);
        if outcome.is_err() {
            self.faults = self.faults.saturating_add(1);
            return outcome;
        }
        if digest_of(key, buf) != want {
            self.faults = self.faults.saturating_add(1);
            self.caught = self.caught.saturating_add(1);
            return Err(ErrorKind::InvalidData.into());
        }
        Ok(())
    }

    fn write_at(&mut self, at: usize, bytes: &[u8]) -> io::Result<()> {
        let outcome = write_over(&self.read, &mut self.written, at, bytes);
        count(outcome, &mut self.faults)
    }

    fn set_len(&mut self, len: usize) -> io::Result<()> {
        let outcome = cut_over(&self.read, &mut self.written, len);
        count(outcome, &mut self.faults)
    }

    fn sync(&mut self) -> io::Result<()> {
        Ok(())
    }
}

fn held<'a>(read: &'a [u8], written: &'a Option<Vec<u8>>) -> &'a [u8]
    ensures { result.now ≡ held_over written.now read.now }
{
    match written {
        Some(bytes) => bytes,
        None => read,
    }
}

fn copy_range(bytes: &[u8], at: usize, buf: &mut [u8]) -> io::Result<()>
    ensures { OnOk result (Holds bytes.now at buf.new) }
{
    if at > bytes.len() || buf.len() > bytes.len() - at {
        return Err(ErrorKind::UnexpectedEof.into());
    }
    buf.copy_from_slice(&bytes[at..at + buf.len()]);
    Ok(())
}

fn count(outcome: Result<(), AllocError>, faults: &mut u64) -> io::Result<()>
    ensures variant { is_ok result ≡ is_ok outcome }
    ensures kind { finds_no_room result ≡ false }
    ensures faults { CountsFault result faults.old faults.new }
{
    if outcome.is_err() {
        *faults = faults.saturating_add(1);
        return Err(io::Error::from(ErrorKind::OutOfMemory));
    }
    Ok(())
}

/// What it holds, to be written to: from now on this counts, and not what was read.
fn start_writing(read: &Vec<u8>, written: &mut Option<Vec<u8>>) -> Result<Vec<u8>, AllocError>
    ensures held { IfOk result (λ bytes. bytes.items ≡ held_over written.old read.now.items) }
    ensures err { OnErr result (written.new ≡ written.old) }
{
    if let Some(bytes) = written.take() {
        return Ok(bytes);
    }
    let mut bytes = Vec::new(*read.allocator());
    bytes.extend_from_slice(read)?;
    Ok(bytes)
}

fn write_over(
    read: &Vec<u8>,
    written: &mut Option<Vec<u8>>,
    at: usize,
    bytes: &[u8],
) -> Result<(), AllocError>
    ensures written { OnOk result (Holds (held_over written.new read.now.items) at bytes.now) }
    ensures others { Torn at (length bytes.now) (held_over written.old read.now.items)
        (held_over written.new read.now.items) }
{
    let mut file = start_writing(read, written)?;
    let outcome = overwrite(&mut file, at, bytes);
    *written = Some(file);
    outcome
}

fn cut_over(read: &Vec<u8>, written: &mut Option<Vec<u8>>, len: usize) -> Result<(), AllocError>
    ensures len { OnOk result (length (held_over written.new read.now.items) ≡ len) }
    ensures others { Cut len (held_over written.old read.now.items) (held_over written.new read.now.items) }
{
    let mut file = start_writing(read, written)?;
    let outcome = resize(&mut file, len);
    *written = Some(file);
    outcome
}

fn resize(file: &mut Vec<u8>, len: usize) -> Result<(), AllocError>
    ensures len { OnOk result (length file.new.items ≡ len) }
    ensures others { Cut len file.old.items file.new.items }
{
    file.resize(len, 0)
}

fn overwrite(file: &mut Vec<u8>, at: usize, bytes: &[u8]) -> Result<(), AllocError>
    ensures written { OnOk result (Holds file.new.items at bytes.now) }
    ensures others { Torn at (length bytes.now) file.old.items file.new.items }
{
    let end = at.checked_add(bytes.len()).ok_or(AllocError)?;
    if end > file.len() {
        resize(file, end)?;
    }
    file[at..end].copy_from_slice(bytes);
    Ok(())
}
