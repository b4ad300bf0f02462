//! What the tests share: words, files, sinks, and whether a request answers as wanted.

use acg_base::{ListSink, MapStore, Name, Status, Words};
use acg_driver::serve;
use std::alloc::Global;
use std::test::Fail;

/// The words of a command line.
pub fn words(alloc: Global, list: &[&str]) -> Result<Words, Fail> {
    let mut words = Vec::new(alloc);
    for word in list {
        words.push(String::from_str(alloc, word)?)?;
    }
    Ok(Words::new(words))
}

// A file.
fn file(alloc: Global, name: &str, bytes: &[u8]) -> Result<(Name, Vec<u8>), Fail> {
    let name = Name::new(alloc, name).ok().ok_or("memory")?;
    Ok((name, Vec::from_slice(alloc, bytes)?))
}

/// A store with an action at the name `a` and an input at the name `i`. Its reads of these numbers fail.
pub fn store(
    alloc: Global,
    action: &[u8],
    input: &[u8],
    reads: Vec<u32>,
) -> Result<MapStore, Fail> {
    let mut files = Vec::new(alloc);
    files.push(file(alloc, "a", action)?)?;
    files.push(file(alloc, "i", input)?)?;
    Ok(MapStore::new(alloc, files, reads, Vec::new(alloc)))
}

/// A sink with room for every row. Its writes of these numbers fail.
pub fn sink(alloc: Global, writes: Vec<u32>) -> Result<ListSink, Fail> {
    Ok(ListSink::new(alloc, 2048, writes).ok().ok_or("memory")?)
}

/// Whether the words print these lines for the action and the input, and answer this status.
pub fn answers(
    alloc: Global,
    list: &[&str],
    action: &[u8],
    input: &[u8],
    printed: &[u8],
    status: Status,
) -> Result<bool, Fail> {
    let mut files = store(alloc, action, input, Vec::new(alloc))?;
    let mut out = sink(alloc, Vec::new(alloc))?;
    let answer = serve(alloc, &words(alloc, list)?, &mut files, &mut out);
    Ok(answer == status && out.bytes() == printed)
}

/// Code that sends its first four bytes, and exits with their number.
#[rattlefmt::skip]
pub const CALLS: [u32; 7] = [
    0x0400_0893, 0x0010_0513, 0x0001_05b7, 0x0040_0613, 0x0000_0073, 0x05d0_0893, 0x0000_0073,
];

// The headers of the file of an image up to the size of its segment in the file: the entry 65536, and
// one segment there, flags R and X, whose bytes stand at 4096.
#[rattlefmt::skip]
const FRONT: [u8; 96] = [
    0x7f, 0x45, 0x4c, 0x46, 2, 1, 1, 0, 0, 0, 0, 0, 0, 0, 0, 0,
    2, 0, 243, 0, 1, 0, 0, 0,
    0, 0, 1, 0, 0, 0, 0, 0,
    64, 0, 0, 0, 0, 0, 0, 0,
    0, 0, 0, 0, 0, 0, 0, 0,
    0, 0, 0, 0,
    64, 0, 56, 0, 1, 0, 0, 0, 0, 0, 0, 0,
    1, 0, 0, 0, 5, 0, 0, 0,
    0, 16, 0, 0, 0, 0, 0, 0,
    0, 0, 1, 0, 0, 0, 0, 0,
    0, 0, 1, 0, 0, 0, 0, 0,
];

/// The file of the image that has the words of code, with flags R and X, at 65536, and begins there.
pub fn image_of(alloc: Global, code: &[u32]) -> Result<Vec<u8>, Fail> {
    let size = (code.len() as u64).wrapping_mul(4).to_le_bytes();
    let mut file = Vec::from_slice(alloc, &FRONT)?;
    file.extend_from_slice(&size)?;
    file.extend_from_slice(&size)?;
    file.extend_from_slice(&[0, 16, 0, 0, 0, 0, 0, 0])?;
    file.resize(4096, 0)?;
    for word in code {
        file.extend_from_slice(&word.to_le_bytes())?;
    }
    Ok(file)
}
