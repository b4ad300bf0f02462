//! What every crate of the compiler generator stands on: words, names, limits and statuses, decimals, stores and sinks.
#![tactic(auto)]

mod call_numbers;
mod calls;
mod capacity;
mod counting;
mod decimal;
mod folder;
mod folder_store;
mod limits;
mod list_sink;
mod map_store;
mod memory;
mod name;
mod out_sink;
mod sink;
mod status;
mod store;
mod transfer;
mod words;
mod working_folder;

pub use capacity::{Capacity, DEFAULT_BUDGET, DEFAULT_STACK, DEFAULT_UNITS};
pub use counting::{CountingRead, CountingReader, CountingWrite, CountingWriter};
pub use decimal::{decimal_into, read_decimal, unsigned_into};
pub use folder::Folder;
pub use folder_store::FolderStore;
pub use limits::{
    LIMIT_ACTION, LIMIT_DESCRIPTION, LIMIT_IMAGE, LIMIT_INPUT, LIMIT_LEXEMES, LIMIT_NODES,
    LIMIT_SOURCE,
};
pub use list_sink::ListSink;
pub use map_store::{LoggedRead, MapStore};
pub use memory::Memory;
pub use name::Name;
pub use out_sink::{OutSink, Telling};
pub use sink::{Sink, SinkError};
pub use status::Status;
pub use store::{Store, StoreError};
pub use transfer::{append_front, hand_on};
pub use words::Words;
pub use working_folder::WorkingFolder;

#[cfg(test)]
mod callers;
#[cfg(test)]
mod own_faults;
#[cfg(test)]
mod streams;
#[cfg(test)]
mod tests;
