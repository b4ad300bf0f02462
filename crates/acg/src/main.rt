//! The program: serves its arguments over the folder and standard output.
#![tactic(auto)]

ghost use Rattle.std.specs.Prelude.{◌≡◌, ◌≢◌, [], drop, IfOk, OnOk, OnErr};
ghost use Rattle.std.specs.Process.{exit_status};
ghost use Rattle.std.specs.Vec.Iter.{into_iter_items};
ghost use Rattle.acg.specs.Arguments.{words_of, AreUnkept};
ghost use Rattle.acg.specs.Exits.{Exits, ExitsUnserved};

use acg_base::{CountingWriter, FolderStore, OutSink, Sink, Status, Store, Words, WorkingFolder};
use acg_driver::serve;
use std::alloc::{AllocError, Global};
use std::env::Args;
use std::io::ErrorKind;
use std::process::ExitCode;
use std::{env, io};

// The arguments without the first. There may be no memory for them where there is one.
fn without_first(alloc: Global, args: Args) -> Result<Vec<String>, AllocError>
    ensures ok { IfOk result (λ list. list.items ≡ drop 1 (into_iter_items args)) }
    ensures err { OnErr result (drop 1 (into_iter_items args) ≢ []) }
{
    let mut list = Vec::new(alloc);
    for argument in args.skip(1) {
        list.push(argument)?;
    }
    Ok(list)
}

// The words of the command line: the arguments without the program's name, or one empty word where they aren't text.
// An `Err` says want of memory for the words; where there are none, it doesn't come.
fn words_of(alloc: Global, args: io::Result<Args>) -> Result<Words, AllocError>
    ensures ok { IfOk result (λ words. words ≡ words_of args) }
    ensures err { OnErr result (words_of args ≢ []) }
    ensures kept { OnOk result (¬ (AreUnkept args)) }
{
    match args {
        Ok(args) => Ok(Words::new(without_first(alloc, args)?)),
        Err(error) if matches!(error.kind(), ErrorKind::OutOfMemory) => Err(AllocError),
        Err(_) => {
            let mut list = Vec::new(alloc);
            list.push(String::new(alloc))?;
            Ok(Words::new(list))
        }
    }
}

// Serves the words of the arguments over a store and a sink: the program, but for which ones it is given. Where there is
// no memory for the words, the exit status is that of want of memory, and nothing is read or written.
fn serve_arguments<S: Store, K: Sink>(
    alloc: Global,
    args: io::Result<Args>,
    store: &mut S,
    out: &mut K,
) -> ExitCode
    ensures ends { Exits S.Store K.Sink (words_of args)
        store.old store.new out.old out.new (exit_status result) }

    // Where there was no memory for the arguments themselves, no words are served.
    ensures unkept { AreUnkept args → ExitsUnserved (words_of args)
        store.old store.new out.old out.new (exit_status result) }
{
    match words_of(alloc, args) {
        Ok(words) => ExitCode::from(serve(alloc, &words, store, out).code()),
        Err(_) => ExitCode::from(Status::Memory.code()),
    }
}

fn main(rt: HostRuntime) -> ExitCode {
    let mut store = FolderStore::new(WorkingFolder::new(&rt));
    let mut out = OutSink::new(CountingWriter::new(io::writer(&rt)));
    serve_arguments(rt.alloc(), env::args(&rt), &mut store, &mut out)
}
