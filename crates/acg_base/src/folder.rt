//! Files that are opened by name.

ghost use Rattle.std.specs.Prelude.{◌≡◌, ℕ, List, [], Bool, Option, Some, IsTrue, IfOk, OnOk, OnErr};
ghost use Rattle.std.specs.Option.{is_none};
ghost use Rattle.std.specs.Result.{is_err, is_ok};
ghost use Rattle.acg_base.specs.Outside.{Contents, SameContents, SameElsewhere, counted};

use crate::counting::{CountingRead, CountingWrite};
use std::io;

/// Files that are opened by name.
///
/// A folder counts how often a file was to be opened, how often one was to be made, and how often each
/// of the two failed. It knows how often the reader and the writer that it closed last were called, and
/// may tell what they held. Opening changes no content, and making and closing a file that of its name
/// alone; none of them changes what the folder tells, or which files can be made.
pub trait Folder {
    /// Reads an opened file.
    type Reader: CountingRead + Drop;
    /// Writes a created file.
    type Writer: CountingWrite + Drop;

    // The bytes that a reader of each name gives, or nothing where the name isn't there, where the folder
    // tells it.
    ghost contents: { Self → Contents };

    // Whether a file of each name can be made, where the folder tells it.
    ghost makes: { Self → List ℕ → Bool };

    // Whether the folder tells what it has and what it can make.
    ghost tells: { Self → Bool };

    // How many times a file was to be opened, and how many times that failed.
    ghost opens: { Self → ℕ };

    ghost failed_opens: { Self → ℕ };

    // How many times a file was to be made, and how many times that failed.
    ghost creates: { Self → ℕ };

    ghost failed_creates: { Self → ℕ };

    // Of the reader that was closed last: the name that it was opened for and the bytes that it had left,
    // where the folder tells them, how many of its reads failed, and whether the last one did.
    ghost closed_source: { Self → Option (List ℕ) };

    ghost closed_remaining: { Self → Option (List ℕ) };

    ghost closed_read_faults: { Self → ℕ };

    ghost closed_read_failed: { Self → Bool };

    // Of the writer that was closed last: the name that it was created for and the bytes that it held,
    // where the folder tells them, how many of its writes failed, and whether the last one did.
    ghost closed_target: { Self → Option (List ℕ) };

    ghost closed_contents: { Self → Option (List ℕ) };

    ghost closed_write_faults: { Self → ℕ };

    ghost closed_write_failed: { Self → Bool };

    /// Opens the file of that name. Answers an error where it isn't there or can't be opened.
    fn open(&mut self, name: &str) -> io::Result<Self::Reader>
        ensures gives { IfOk result (λ reader. IsTrue (tells self.old) →
            Self.Reader.remaining reader ≡ contents self.old name.now) }
        ensures source { IfOk result (λ reader. IsTrue (tells self.old) →
            Self.Reader.source reader ≡ Some name.now) }
        ensures absent { IsTrue (tells self.old) → is_err result ≡ is_none (contents self.old name.now) }

        // The reader is new: nothing was read, and nothing failed.
        ensures unread { IfOk result (λ reader. Self.Reader.reads reader ≡ 0) }
        ensures no_fault { IfOk result (λ reader. Self.Reader.faults reader ≡ 0) }

        ensures once { opens self.new ≡ counted (opens self.old) }
        ensures failed { OnErr result (failed_opens self.new ≡ counted (failed_opens self.old)) }
        ensures opened { OnOk result (failed_opens self.new ≡ failed_opens self.old) }
        ensures makes_none { creates self.new ≡ creates self.old }
        ensures same { IsTrue (tells self.old) →
            SameContents (contents self.old) (contents self.new) }
        ensures makes_still { makes self.new ≡ makes self.old }
        ensures tells_still { tells self.new ≡ tells self.old };

    /// Makes an empty file of that name, in the place of one that is there. Answers an error where it
    /// can't be made.
    fn create(&mut self, name: &str) -> io::Result<Self::Writer>
        ensures empty { IfOk result (λ writer. IsTrue (tells self.old) →
            Self.Writer.contents writer ≡ Some []) }
        ensures target { IfOk result (λ writer. IsTrue (tells self.old) →
            Self.Writer.target writer ≡ Some name.now) }
        ensures makes { IsTrue (tells self.old) → is_ok result ≡ makes self.old name.now }

        // The writer is new: nothing was written, and nothing failed.
        ensures unwritten { IfOk result (λ writer. Self.Writer.writes writer ≡ 0) }
        ensures no_fault { IfOk result (λ writer. Self.Writer.faults writer ≡ 0) }

        ensures once { creates self.new ≡ counted (creates self.old) }
        ensures failed { OnErr result (failed_creates self.new ≡ counted (failed_creates self.old)) }
        ensures created { OnOk result (failed_creates self.new ≡ failed_creates self.old) }
        ensures opens_none { opens self.new ≡ opens self.old }
        ensures others { IsTrue (tells self.old) →
            SameElsewhere (contents self.old) (contents self.new) name.now }
        ensures makes_still { makes self.new ≡ makes self.old }
        ensures tells_still { tells self.new ≡ tells self.old };

    /// Closes a reader that the folder opened.
    fn close_reader(&mut self, reader: Self::Reader)
        ensures source { IsTrue (tells self.old) →
            closed_source self.new ≡ Self.Reader.source reader }
        ensures remaining { IsTrue (tells self.old) →
            closed_remaining self.new ≡ Self.Reader.remaining reader }
        ensures faults { closed_read_faults self.new ≡ Self.Reader.faults reader }
        ensures failed { closed_read_failed self.new ≡ Self.Reader.last_failed reader }
        ensures opens_none { opens self.new ≡ opens self.old }
        ensures failed_opens { failed_opens self.new ≡ failed_opens self.old }
        ensures makes_none { creates self.new ≡ creates self.old }
        ensures same { IsTrue (tells self.old) →
            SameContents (contents self.old) (contents self.new) }
        ensures makes_still { makes self.new ≡ makes self.old }
        ensures tells_still { tells self.new ≡ tells self.old };

    /// Closes a writer that the folder created.
    fn close_writer(&mut self, writer: Self::Writer)
        ensures target { IsTrue (tells self.old) →
            closed_target self.new ≡ Self.Writer.target writer }
        ensures contents { IsTrue (tells self.old) →
            closed_contents self.new ≡ Self.Writer.contents writer }
        ensures faults { closed_write_faults self.new ≡ Self.Writer.faults writer }
        ensures failed { closed_write_failed self.new ≡ Self.Writer.last_failed writer }
        ensures opens_none { opens self.new ≡ opens self.old }
        ensures makes_none { creates self.new ≡ creates self.old }
        ensures failed_creates { failed_creates self.new ≡ failed_creates self.old }
        ensures others { IsTrue (tells self.old) → (name : List ℕ) →
            Self.Writer.target writer ≡ Some name →
            SameElsewhere (contents self.old) (contents self.new) name }
        ensures makes_still { makes self.new ≡ makes self.old }
        ensures tells_still { tells self.new ≡ tells self.old };
}
