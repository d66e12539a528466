//! A folder that holds the states of a policy as files, and what the system does there.
use std::fs::{File, Files, OpenFile, OpenOptions};
use std::io::{ErrorKind, Read, Write};
use std::os::unix::fs::OpenOptionsExt;
use std::{fs, io};

/// The present state.
const CURRENT: &str = "current.csv";

/// A state that is not yet there as a whole.
const ASIDE: &str = ".new";

/// The system's number for what is not there (ENOENT).
const NO_ENTRY: i32 = 2;

/// A state has the digests of passwords, so its owner alone reads it.
const OWNER_ALONE: u32 = 0o600;

/// Where states of a policy are kept, in folders. Only its calls can show what a function over any of these promises by
/// its facts.
pub trait Folder {
    ghost use Rattle.std.specs.Prelude.{ℕ, Bool, List, IfOk, OnOk};

    /// A state that was written aside.
    type Aside: Drop;

    /// Whether the present state of a folder has this text.
    ghost holds: { Self → (folder text : List ℕ) → Bool → Type 0 };

    /// This text was written aside in a folder, and synced, and no call reported a fault.
    ghost writes: { Self → (folder text : List ℕ) → Self.Aside → Type 0 };

    /// What was written aside became a state of this name, and the present state.
    ghost publishes: { Self → (folder name : List ℕ) → Self.Aside → Type 0 };

    /// Whether the present state of a folder has this text, also after a crash.
    fn has(&self, folder: &str, text: &[u8]) -> io::Result<bool>
        ensures { IfOk result (λ is. holds self.now folder.now text.now is) };

    /// Writes a text aside, where it is no state, and syncs it.
    fn write_aside(&self, folder: &str, text: &[u8]) -> io::Result<Self::Aside>
        ensures { IfOk result (λ aside. writes self.now folder.now text.now aside) };

    /// Makes what was written aside a state of this name, and then the present state, and syncs the folder after each.
    fn publish(&self, folder: &str, name: &str, aside: Self::Aside) -> io::Result<()>
        requires { (text : List ℕ) × writes self.now folder.now text aside }
        ensures { OnOk result (publishes self.now folder.now name.now aside) };
}

/// The path of a file in a folder. No folder has an empty path, which would be that of the root here.
fn path_in<N: AllocGlobal>(rt: &N, folder: &str, name: &str) -> io::Result<String> {
    if folder.is_empty() {
        return Err(io::Error::from_raw_os_error(NO_ENTRY));
    }
    Ok(format!(in rt.alloc(); "{folder}/{name}")?)
}

/// Removes what a service that was killed left aside. It may be a state already, by another name, so it is never
/// written to.
fn remove_left<N: Files>(files: &N, path: &str) -> io::Result<()> {
    match fs::remove_file(files, path) {
        Err(error) if error.kind() == ErrorKind::NotFound => Ok(()),
        removed => removed,
    }
}

/// Gives a file a second name. If that is there, it is the state of the same second and the same text.
fn link<N: Files>(files: &N, path: &str, name: &str) -> io::Result<()> {
    match fs::hard_link(files, path, name) {
        Err(error) if error.kind() == ErrorKind::AlreadyExists => Ok(()),
        linked => linked,
    }
}

/// The bytes of a file, if it is there.
fn bytes_at<N: AllocGlobal + Files>(files: &N, path: &str) -> io::Result<Option<Vec<u8>>> {
    let mut file = match File::open(files, path) {
        Ok(file) => file,
        Err(error) if error.kind() == ErrorKind::NotFound => return Ok(None),
        Err(error) => return Err(error),
    };
    let mut bytes = Vec::new(files.alloc());
    file.read_to_end(&mut bytes)?;
    Ok(Some(bytes))
}

/// Has the system bring the names of a folder to the disk.
fn sync<N: Files>(files: &N, folder: &str) -> io::Result<()> {
    File::open(files, folder)?.sync_all()
}

// No clause states what the system's calls do: `opc_policy_folder_tests` tests each, and `tools/stops` kills between
// them.
impl<N: AllocGlobal + Files> Folder for N {
    ghost use Rattle.std.specs.Prelude.{⊤};

    type Aside = N::File;

    ghost holds = { λ _ _ _ _. ⊤ };

    ghost writes = { λ _ _ _ _. ⊤ };

    ghost publishes = { λ _ _ _ _. ⊤ };

    fn has(&self, folder: &str, text: &[u8]) -> io::Result<bool> {
        let current = path_in(self, folder, CURRENT)?;
        match bytes_at(self, current.as_str())? {
            Some(bytes) if bytes.as_slice() == text => {
                sync(self, folder)?;
                Ok(true)
            }
            // There is none, or it is another one.
            _ => Ok(false),
        }
    }

    fn write_aside(&self, folder: &str, text: &[u8]) -> io::Result<N::File> {
        let path = path_in(self, folder, ASIDE)?;
        remove_left(self, path.as_str())?;
        let mut options = OpenOptions::new();
        options.write(true).create_new(true).mode(OWNER_ALONE);
        let mut aside = options.open(self, path.as_str())?;
        aside.write_all(text)?;
        aside.sync_all()?;
        Ok(aside)
    }

    fn publish(&self, folder: &str, name: &str, _aside: N::File) -> io::Result<()> {
        let aside = path_in(self, folder, ASIDE)?;
        let state = path_in(
            self,
            folder,
            format!(in self.alloc(); "{name}.csv")?.as_str(),
        )?;
        let current = path_in(self, folder, CURRENT)?;
        link(self, aside.as_str(), state.as_str())?;
        // It keeps this name even if only what comes after it is on the disk.
        sync(self, folder)?;
        fs::rename(self, aside.as_str(), current.as_str())?;
        sync(self, folder)
    }
}
