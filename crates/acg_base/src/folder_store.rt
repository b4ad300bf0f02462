//! The files of a folder.

ghost use Rattle.std.specs.Prelude.{◌≡◌, ◌+◌, ◌++◌, ◌⊎◌, [], false, drop, length, Some, IsTrue, IsNone, IsErrOf, IfSome, OnOk, OnErr};
ghost use Rattle.std.specs.Io.KnownBytes.{Consumes};
ghost use Rattle.acg_base.specs.Outside.{SameContents, SameElsewhere, GainsAtMost, counted, front};
ghost use Rattle.acg_base.specs.Transfers.{Holds, HoldsFront, RefusedOrBroke, BrokeOnce};

use crate::folder::Folder;
use crate::name::Name;
use crate::store::{Store, StoreError};
use crate::transfer::{append_front, hand_on};

/// A store over a folder. It tells no content, logs no read and isn't sure.
#[derive(Drop)]
pub struct FolderStore<F: Folder + Drop> {
    /// Where the files are.
    pub folder: F,
    reads: u64,
    failed_reads: u64,
    failed_writes: u64,
}

impl<F: Folder + Drop> FolderStore<F> {
    /// The files of the folder, with no fault so far.
    pub fn new(folder: F) -> FolderStore<F>
        ensures folder { result.folder ≡ folder }
        ensures none_read { ⟦<FolderStore<F> as Store>⟧.reads result ≡ 0 }
        ensures reads { ⟦<FolderStore<F> as Store>⟧.failed_reads result ≡ 0 }
        ensures writes { ⟦<FolderStore<F> as Store>⟧.failed_writes result ≡ 0 }
    {
        FolderStore {
            folder,
            reads: 0,
            failed_reads: 0,
            failed_writes: 0,
        }
    }
}

// Appends at most `limit + 1` bytes of the file, or leaves `into` as it was.
#[tactic(auto, using(crate::proofs::TransferLemmas::held))]
fn append_file<F: Folder>(
    folder: &mut F,
    name: &str,
    limit: u32,
    into: &mut Vec<u8>,
) -> Result<(), StoreError>
    ensures given { OnOk result (IsTrue (F.tells folder.old) → IfSome (F.contents folder.old name.now)
        (λ bytes. into.new.items ≡ into.old.items ++ front limit bytes)) }
    ensures taken { OnOk result (IsTrue (F.tells folder.old) →
        Consumes (F.contents folder.old name.now) (F.closed_remaining folder.new)
        (drop (length into.old.items) into.new.items)) }
    ensures bound { OnOk result (GainsAtMost (limit + 1) into.old.items into.new.items) }
    ensures err { OnErr result (into.new.items ≡ into.old.items) }
    ensures absent { IsTrue (F.tells folder.old) → IsNone (F.contents folder.old name.now) →
        IsErrOf result StoreError.Failed }
    ensures fault { IsErrOf result StoreError.Failed →
        RefusedOrBroke (F.failed_opens folder.old) (F.failed_opens folder.new)
        (F.closed_read_faults folder.new) (F.closed_read_failed folder.new) }
    ensures told_fault { IsErrOf result StoreError.Failed → IsTrue (F.tells folder.old) →
        IsNone (F.contents folder.old name.now) ⊎ BrokeOnce (F.closed_source folder.new) name.now
        (F.closed_read_faults folder.new) (F.closed_read_failed folder.new) }
    ensures no_fault { ¬ (IsErrOf result StoreError.Failed) → F.closed_read_faults folder.new ≡ 0 }
    ensures opened { ¬ (IsErrOf result StoreError.Failed) →
        F.failed_opens folder.new ≡ F.failed_opens folder.old }
    ensures once { F.opens folder.new ≡ counted (F.opens folder.old) }
    ensures makes_none { F.creates folder.new ≡ F.creates folder.old }
    ensures same { IsTrue (F.tells folder.old) →
        SameContents (F.contents folder.old) (F.contents folder.new) }
    ensures makes_still { F.makes folder.new ≡ F.makes folder.old }
    ensures tells_still { F.tells folder.new ≡ F.tells folder.old }
{
    let Ok(mut reader) = folder.open(name) else {
        return Err(StoreError::Failed);
    };
    let outcome = append_front(&mut reader, limit, into);
    folder.close_reader(reader);
    outcome
}

// Hands the bytes to a writer of a new file of that name, and closes it.
#[tactic(auto, using(crate::proofs::TransferLemmas::held))]
fn write_file<F: Folder>(folder: &mut F, name: &str, bytes: &[u8]) -> Result<(), StoreError>
    ensures handed { OnOk result (IsTrue (F.tells folder.old) →
        Holds (F.closed_target folder.new) (F.closed_contents folder.new) name.now bytes.now) }
    ensures part { OnErr result (IsTrue (F.tells folder.old) → IsTrue (F.makes folder.old name.now) →
        HoldsFront (F.closed_target folder.new) (F.closed_contents folder.new) name.now bytes.now) }
    ensures fault { OnErr result
        (RefusedOrBroke (F.failed_creates folder.old) (F.failed_creates folder.new)
        (F.closed_write_faults folder.new) (F.closed_write_failed folder.new)) }
    ensures told_fault { OnErr result (IsTrue (F.tells folder.old) →
        (F.makes folder.old name.now ≡ false) ⊎ BrokeOnce (F.closed_target folder.new) name.now
        (F.closed_write_faults folder.new) (F.closed_write_failed folder.new)) }
    ensures no_fault { OnOk result (F.closed_write_faults folder.new ≡ 0) }
    ensures created { OnOk result (F.failed_creates folder.new ≡ F.failed_creates folder.old) }
    ensures failed { OnErr result (IsErrOf result StoreError.Failed) }
    ensures once { F.creates folder.new ≡ counted (F.creates folder.old) }
    ensures opens_none { F.opens folder.new ≡ F.opens folder.old }
    ensures others { IsTrue (F.tells folder.old) →
        SameElsewhere (F.contents folder.old) (F.contents folder.new) name.now }
    ensures makes_still { F.makes folder.new ≡ F.makes folder.old }
    ensures tells_still { F.tells folder.new ≡ F.tells folder.old }
{
    let Ok(mut writer) = folder.create(name) else {
        return Err(StoreError::Failed);
    };
    let outcome = hand_on(&mut writer, bytes);
    folder.close_writer(writer);
    if outcome.is_err() {
        return Err(StoreError::Failed);
    }
    Ok(())
}

impl<F: Folder + Drop> Store for FolderStore<F> {
    ghost use Rattle.std.specs.Prelude.{◌≡◌, ◌+◌, ◌≤◌, ◌⊎◌, ◌++◌, [], drop, length, Some, None, false, IsTrue, IsNone, IsErrOf, IfSome, OnOk, OnErr};
    ghost use Rattle.std.specs.Io.KnownBytes.{Consumes};
    ghost use Rattle.acg_base.specs.Outside.{SameContents, SameElsewhere, GainsAtMost, counted, front};
    ghost use Rattle.acg_base.specs.Transfers.{Holds, HoldsFront, RefusedOrBroke, BrokeOnce};

    ghost contents = { λ _ _. None };

    ghost tells = { λ _. false };

    ghost readings = { λ _. [] };

    ghost logs = { λ _. false };

    ghost reads = { λ store. store.reads };

    ghost failed_reads = { λ store. store.failed_reads };

    ghost failed_writes = { λ store. store.failed_writes };

    ghost sure = { λ _. false };

    /// Gives what a reader of that name gives, and fails exactly where the folder can't open it or its
    /// reader failed, from which nothing is read behind the fault, nor behind what is given.
    fn read(&mut self, name: &Name, limit: u32, into: &mut Vec<u8>) -> Result<(), StoreError>
        ensures given { OnOk result (IsTrue (F.tells self.old.folder) →
            IfSome (F.contents self.old.folder name.now) (λ bytes.
            into.new.items ≡ into.old.items ++ front limit bytes)) }
        ensures taken { OnOk result (IsTrue (F.tells self.old.folder) →
            Consumes (F.contents self.old.folder name.now) (F.closed_remaining self.new.folder)
            (drop (length into.old.items) into.new.items)) }
        ensures bound { OnOk result (GainsAtMost (limit + 1) into.old.items into.new.items) }
        ensures err { OnErr result (into.new.items ≡ into.old.items) }
        ensures absent { IsTrue (F.tells self.old.folder) →
            IsNone (F.contents self.old.folder name.now) → IsErrOf result StoreError.Failed }
        ensures fault { IsErrOf result StoreError.Failed →
            RefusedOrBroke (F.failed_opens self.old.folder) (F.failed_opens self.new.folder)
            (F.closed_read_faults self.new.folder) (F.closed_read_failed self.new.folder) }
        ensures told_fault { IsErrOf result StoreError.Failed → IsTrue (F.tells self.old.folder) →
            IsNone (F.contents self.old.folder name.now)
            ⊎ BrokeOnce (F.closed_source self.new.folder) name.now
            (F.closed_read_faults self.new.folder) (F.closed_read_failed self.new.folder) }
        ensures no_fault { ¬ (IsErrOf result StoreError.Failed) →
            F.closed_read_faults self.new.folder ≡ 0 }
        ensures opened { ¬ (IsErrOf result StoreError.Failed) →
            F.failed_opens self.new.folder ≡ F.failed_opens self.old.folder }
        ensures once { self.new.reads ≡ counted self.old.reads }
        ensures failed { IsErrOf result StoreError.Failed →
            self.new.failed_reads ≡ counted self.old.failed_reads }
        ensures passed { ¬ (IsErrOf result StoreError.Failed) →
            self.new.failed_reads ≡ self.old.failed_reads }
        ensures counts { self.old.failed_reads ≤ self.new.failed_reads }
        ensures writes { self.new.failed_writes ≡ self.old.failed_writes }
        ensures opens { F.opens self.new.folder ≡ counted (F.opens self.old.folder) }
        ensures makes_none { F.creates self.new.folder ≡ F.creates self.old.folder }
        ensures folder_same { IsTrue (F.tells self.old.folder) →
            SameContents (F.contents self.old.folder) (F.contents self.new.folder) }
        ensures folder_makes { F.makes self.new.folder ≡ F.makes self.old.folder }
        ensures folder_tells { F.tells self.new.folder ≡ F.tells self.old.folder }
    {
        let outcome = append_file(&mut self.folder, name.text(), limit, into);
        self.reads = self.reads.saturating_add(1);
        if outcome == Err(StoreError::Failed) {
            self.failed_reads = self.failed_reads.saturating_add(1);
        }
        outcome
    }

    /// Hands the bytes to a writer that the folder creates for the name, and closes it. Fails exactly
    /// where the folder can't make it or the writer failed, which then has a front of the bytes, and
    /// to which nothing is handed behind the fault.
    fn write(&mut self, name: &Name, bytes: &[u8]) -> Result<(), StoreError>
        ensures handed { OnOk result (IsTrue (F.tells self.old.folder) →
            Holds (F.closed_target self.new.folder) (F.closed_contents self.new.folder)
            name.now bytes.now) }
        ensures part { OnErr result (IsTrue (F.tells self.old.folder) →
            IsTrue (F.makes self.old.folder name.now) →
            HoldsFront (F.closed_target self.new.folder) (F.closed_contents self.new.folder)
            name.now bytes.now) }
        ensures fault { OnErr result
            (RefusedOrBroke (F.failed_creates self.old.folder) (F.failed_creates self.new.folder)
            (F.closed_write_faults self.new.folder) (F.closed_write_failed self.new.folder)) }
        ensures told_fault { OnErr result (IsTrue (F.tells self.old.folder) →
            (F.makes self.old.folder name.now ≡ false)
            ⊎ BrokeOnce (F.closed_target self.new.folder) name.now
            (F.closed_write_faults self.new.folder) (F.closed_write_failed self.new.folder)) }
        ensures no_fault { OnOk result (F.closed_write_faults self.new.folder ≡ 0) }
        ensures created { OnOk result
            (F.failed_creates self.new.folder ≡ F.failed_creates self.old.folder) }
        ensures failed { OnErr result (self.new.failed_writes ≡ counted self.old.failed_writes) }
        ensures passed { OnOk result (self.new.failed_writes ≡ self.old.failed_writes) }
        ensures error { OnErr result (IsErrOf result StoreError.Failed) }
        ensures counts { self.old.failed_writes ≤ self.new.failed_writes }
        ensures reads { self.new.failed_reads ≡ self.old.failed_reads }
        ensures unread { self.new.reads ≡ self.old.reads }
        ensures makes_one { F.creates self.new.folder ≡ counted (F.creates self.old.folder) }
        ensures opens_none { F.opens self.new.folder ≡ F.opens self.old.folder }
        ensures folder_others { IsTrue (F.tells self.old.folder) →
            SameElsewhere (F.contents self.old.folder) (F.contents self.new.folder) name.now }
        ensures folder_makes { F.makes self.new.folder ≡ F.makes self.old.folder }
        ensures folder_tells { F.tells self.new.folder ≡ F.tells self.old.folder }
    {
        let outcome = write_file(&mut self.folder, name.text(), bytes);
        if outcome.is_err() {
            self.failed_writes = self.failed_writes.saturating_add(1);
        }
        outcome
    }

    ghost sure_tells = { λ _ sure. sure };

    ghost sure_logs = { λ _ sure. sure };
}
