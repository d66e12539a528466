//! A folder is brought up to date with a policy.
ghost use Rattle.std.specs.Prelude.{◌≡◌, IfOk};
ghost use Rattle.opc_policy_folder.specs.Keeping.{IsKeptAs};

use crate::folder::Folder;
use crate::name::state_name;
use opc_board::text::KeptText;
use std::alloc::Global;
use std::io;

/// Makes the text of a policy the present state of a folder, under a name of its own. Returns that name, or nothing if
/// it is the present state already.
pub fn keep<N: Folder>(
    alloc: Global,
    folders: &N,
    folder: &str,
    moment: u64,
    text: &[u8],
) -> io::Result<Option<KeptText>>
    ensures { IfOk result (λ name. IsKeptAs N.holds N.writes N.publishes folders.now folder.now moment text.now name) }
{
    if folders.has(folder, text)? {
        return Ok(None);
    }
    let name = state_name(alloc, moment, text)?;
    let aside = folders.write_aside(folder, text)?;
    folders.publish(folder, name.as_str(), aside)?;
    Ok(Some(KeptText::from(name)))
}
