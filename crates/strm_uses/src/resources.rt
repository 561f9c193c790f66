//! A resource table of files and folders: a file comes under a key, and goes.

ghost use Rattle.std.specs.Prelude.{◌≡◌, Some, None, IfSome, IfOk, OnOk, OnErr};
ghost use Rattle.strm_resources.specs.Entries.{value_at, next_number};
ghost use Rattle.strm_uses.specs.declared.resources.Place.TheVariants.{File};

use strm_codes::ids::Resource;
use strm_resources::errors::ResourceTableError;
use strm_resources::kinds::{Resident, Tag};
use strm_resources::tables::{ResourceTable, links_have_both_ends};

/// What the table holds, by its number on the host.
#[derive(Clone, Copy, Debug)]
pub enum Place {
    File(u32),
    Folder(u32),
}

impl Resident for Place {
    ghost use Rattle.strm_uses.specs.Places.{place_kind};

    ghost kind = { place_kind };

    fn kind(&self) -> u32 {
        match self {
            Place::File(_) => 1,
            Place::Folder(_) => 2,
        }
    }
}

/// The type of a file's key.
pub struct Files;

impl Tag for Files {
    ghost kind = { 1 };

    fn kind() -> u32 {
        1
    }
}

/// Puts a file into the table: its key, by which it is found from now on.
pub fn open_file(
    table: &mut ResourceTable<Place>,
    file: u32,
) -> Result<Resource<Files>, ResourceTableError>
    ensures found { IfOk result (λ key. value_at table.new.entries key ≡ Some (File file)) }
    ensures refused { OnErr result (table.new ≡ table.old) }
{
    links_have_both_ends(table);
    table.push(Place::File(file))
}

/// Takes the file out. Its number then leads nowhere, and is the one given next.
pub fn close_file(
    table: &mut ResourceTable<Place>,
    key: Resource<Files>,
) -> Result<Place, ResourceTableError>
    ensures gone { OnOk result (value_at table.new.entries key ≡ None) }
    ensures next { OnOk result (next_number table.new.entries ≡ key) }
    ensures refused { OnErr result (table.new ≡ table.old) }
{
    table.delete(key)
}

/// The file behind a key that a guest gave, or none: the key leads nowhere, or to no file.
pub fn find_file(table: &ResourceTable<Place>, key: &Resource<Files>) -> Option<u32>
    ensures found { IfSome result (λ file. value_at table.now.entries key.now ≡ Some (File file)) }
{
    match table.get(key) {
        Ok(Place::File(file)) => Some(*file),
        // NotPresent or WrongType: no other error comes.
        Ok(Place::Folder(_)) | Err(_) => None,
    }
}
