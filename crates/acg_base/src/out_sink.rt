//! Output to a writer of the library, as standard output is.

ghost use Rattle.std.specs.Prelude.{◌≡◌, Bool, true, false, refl};
ghost use Rattle.std.specs.Option.{is_some};

use crate::counting::{CountingWrite, CountingWriter};
use crate::sink::{Sink, SinkError};
use crate::transfer::hand_on;
use std::io::Printer;

/// A writer whose type says whether the bytes that it holds are known.
pub trait Telling: CountingWrite {
    // Whether they are known.
    ghost tells: { Bool };

    // They are known of each writer of the type, or of none.
    ghost known: { (writer : Self) → is_some (Self.contents writer) ≡ tells };
}

/// Of standard output nothing is known.
impl<P: Print> Telling for CountingWriter<Printer<'_, P>> {
    ghost tells = { false };

    ghost known = { λ _. refl };
}

/// A vector tells its bytes.
impl Telling for CountingWriter<Vec<u8>> {
    ghost tells = { true };

    ghost known = { λ _. refl };
}

/// A sink that hands each piece to a writer. It tells what was written where the writer's type does.
#[derive(Drop)]
pub struct OutSink<W: Telling + Drop> {
    /// Where the pieces go.
    pub writer: W,
    faults: u64,
    writes: u64,
    last_failed: bool,
}

impl<W: Telling + Drop> OutSink<W> {
    /// A sink over the writer, with no write so far.
    pub fn new(writer: W) -> OutSink<W>
        ensures writer { result.writer ≡ writer }
        ensures faults { ⟦<OutSink<W> as Sink>⟧.faults result ≡ 0 }
        ensures writes { ⟦<OutSink<W> as Sink>⟧.writes result ≡ 0 }
    {
        OutSink {
            writer,
            faults: 0,
            writes: 0,
            last_failed: false,
        }
    }
}

#[tactic(auto, using(crate::proofs::TransferLemmas::known))]
impl<W: Telling + Drop> Sink for OutSink<W> {
    ghost use Rattle.std.specs.Prelude.{◌≡◌, ◌≤◌, [], IsTrue, OnOk, OnErr};
    ghost use Rattle.std.specs.Option.{unwrap_or};
    ghost use Rattle.std.specs.Result.{is_err};
    ghost use Rattle.std.specs.Io.KnownBytes.{Appends};
    ghost use Rattle.acg_base.specs.Outside.{counted};
    ghost use Rattle.acg_base.specs.Transfers.{AppendsFrontOf};

    ghost written = { λ sink. unwrap_or (W.contents sink.writer) [] };

    ghost tells = { λ _. W.tells };

    ghost faults = { λ sink. sink.faults };

    ghost writes = { λ sink. sink.writes };

    ghost last_failed = { λ sink. sink.last_failed };

    /// Hands the piece to the writer. It fails where one write of the writer failed, which is its last.
    fn write(&mut self, piece: &[u8]) -> Result<(), SinkError>
        ensures done { OnOk result
            (Appends (W.contents self.old.writer) (W.contents self.new.writer) piece.now) }
        ensures part { OnErr result
            (AppendsFrontOf piece.now (W.contents self.old.writer) (W.contents self.new.writer)) }
        ensures fault { OnErr result (W.faults self.new.writer ≡ counted (W.faults self.old.writer)) }
        ensures fault_last { OnErr result (IsTrue (W.last_failed self.new.writer)) }
        ensures no_fault { OnOk result (W.faults self.new.writer ≡ W.faults self.old.writer) }
        ensures writes { self.new.writes ≡ counted self.old.writes }
        ensures failed { OnErr result (self.new.faults ≡ counted self.old.faults) }
        ensures passed { OnOk result (self.new.faults ≡ self.old.faults) }
        ensures counts { self.old.faults ≤ self.new.faults }
        ensures last { self.new.last_failed ≡ is_err result }
    {
        let outcome = hand_on(&mut self.writer, piece);
        self.writes = self.writes.saturating_add(1);
        self.last_failed = outcome.is_err();
        if self.last_failed {
            self.faults = self.faults.saturating_add(1);
        }
        outcome
    }
}
