//! The files of a command.

ghost use Rattle.std.specs.Prelude.{◌≡◌, [], ◌∷◌, None, IfOk, IfErr, IsTrue};
ghost use Rattle.acg_base.specs.declared.status.Status.TheVariants.{Done};
ghost use Rattle.acg_words.specs.Lines.{status_of};
ghost use Rattle.acg_driver.specs.Texts.{IsUnread};
ghost use Rattle.acg_driver.specs.Files.{ReadOnly, FaultsWhere, read_status};

use acg_base::{Memory, Name, Store, StoreError};
use acg_words::Line;
use std::alloc::Global;

/// Reads the file of the name: its bytes, or one more than the limit where it has more than that.
pub fn read_file<S: Store>(
    alloc: Global,
    name: &str,
    limit: u32,
    store: &mut S,
) -> Result<Vec<u8>, Line>
    ensures given { IfOk result (λ read. ReadOnly S.Store
        (record { name = name.now; limit = limit; given = read.items } ∷ []) Done store.old store.new) }
    ensures unread { IfErr result (λ line. IsUnread name.now line × ReadOnly S.Store
        [] (status_of line) store.old store.new) }
    ensures surely { IsTrue (S.sure store.old) →
        FaultsWhere (S.contents store.old name.now ≡ None) (read_status result) }
{
    let name = Name::new(alloc, name)?;
    let mut read = Vec::new(alloc);
    match store.read(&name, limit, &mut read) {
        Ok(()) => Ok(read),
        Err(StoreError::Memory) => Err(Line::Memory),
        Err(StoreError::Failed) => Err(Line::ReadFault { name }),
    }
}
