//! The directory: what is kept of each file, in the order of making.

ghost use Rattle.std.specs.Prelude.{◌≡◌, ◌<◌, ◌≤◌, true, [], ◌∷◌, ◌++◌, length, is_some};
ghost use Rattle.std.specs.Prelude.{option_copied, None, IsOk, OnOk, OnErr};
ghost use Rattle.block_files.specs.Disks.{place_at};
ghost use Rattle.block_files.specs.Rows.{body_at, without, Grows};
ghost use Rattle.indexmap.specs.IndexMap.{spare};

use basic_values::NoMemory;
use indexmap::IndexMap;
use monitor_calls::FileName;

/// What is kept of a file in addition to its name: its code, and the places of its pages.
#[derive(Drop)]
pub(crate) struct FileBody {
    pub(crate) code: u8,
    pub(crate) places: Vec<u16>,
}

/// The files by their names.
pub(crate) type Directory = IndexMap<FileName, FileBody>;

/// Returns what is kept of a name.
pub(crate) fn body_of<'a>(files: &'a Directory, name: &FileName) -> Option<&'a FileBody>
    ensures { option_copied result ≡ body_at files.now.entries name.now }
{
    files.get(name)
}

/// Returns the place of a block. Blocks count from 1.
pub(crate) fn place_in(places: &[u16], block: u16) -> Option<u16>
    ensures { result ≡ place_at places.now block }
{
    if block == 0 {
        return None;
    }
    places.get(block as usize - 1).copied()
}

/// Removes a name. The others keep their order.
pub(crate) fn take_out(files: &mut Directory, name: &FileName) -> Option<FileBody>
    ensures value { result ≡ body_at files.old.entries name.now }
    ensures entries { files.new.entries ≡ without files.old.entries name.now }
    ensures room { spare files.old ≤ spare files.new }
{
    files.shift_remove(name)
}

/// Takes the memory for one name more.
pub(crate) fn make_room(files: &mut Directory) -> Result<(), NoMemory>
    ensures entries { files.new.entries ≡ files.old.entries }
    ensures room { OnOk result (0 < spare files.new) }
{
    files.reserve(1)?;
    Ok(())
}

/// Puts a new name after the others. The memory for it was taken before.
pub(crate) fn put_last(files: &mut Directory, name: FileName, body: FileBody)
    requires fresh { body_at files.old.entries name ≡ None }
    requires room { 0 < spare files.old }
    ensures { files.new.entries ≡ files.old.entries ++ (name, body) ∷ [] }
{
    let _ = files.insert(name, body);
}

/// Gives a file these places more. With none it takes no memory.
pub(crate) fn add_places(
    files: &mut Directory,
    name: &FileName,
    taken: &[u16],
) -> Result<(), NoMemory>
    requires { is_some (body_at files.old.entries name.now) ≡ true }
    ensures ok { OnOk result (Grows name.now taken.now files.old.entries files.new.entries) }
    ensures err { OnErr result (Grows name.now [] files.old.entries files.new.entries) }
    ensures none { length taken.now ≡ 0 → IsOk result }
{
    if let Some(body) = files.get_mut(name) {
        body.places.extend_from_slice(taken)?;
    }
    Ok(())
}
