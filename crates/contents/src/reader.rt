// Reading the table of contents that opens a file, for files of any number of bodies.
ghost use Rattle.std.specs.Prelude.{◌≡◌, ◌+◌, ◌≤◌, length};
ghost use Rattle.refusal.specs.Answers.{answer_of};
ghost use Rattle.contents.specs.Contents.{table_length, table_fits, entries_fit, entry_tag, entry_start, entry_length, body_of};
ghost use Rattle.contents.specs.Steps.{read_contents};

use refusal::causes::Refusal;
use wire::numbers::{get16, get32};

// Whether the table is there and has count entries.
fn table_fits(file: &[u8], count: usize) -> bool
    ensures { result ≡ table_fits count file.now }
{
    2 <= file.len() && get16(file, 0) as usize == count && 2 + 10 * count <= file.len()
}

// Where the body of entry i starts.
pub fn entry_start(file: &[u8], i: usize) -> u32
    requires { table_length (i + 1) ≤ length file.now }
    ensures { result ≡ entry_start file.now i }
{
    get32(file, 2 + 10 * i + 2)
}

// How long the body of entry i is.
pub fn entry_length(file: &[u8], i: usize) -> u32
    requires { table_length (i + 1) ≤ length file.now }
    ensures { result ≡ entry_length file.now i }
{
    get32(file, 2 + 10 * i + 6)
}

// The tag of entry i.
fn entry_tag(file: &[u8], i: usize) -> u16
    requires { table_length (i + 1) ≤ length file.now }
    ensures { result ≡ entry_tag file.now i }
{
    get16(file, 2 + 10 * i)
}

// Whether the entries have these tags, each body starts where the last ended, and the last ends
// with the file. The sums of starts and lengths are taken in 64 bits.
fn entries_fit(file: &[u8], tags: &[u16]) -> bool
    requires { table_length (length tags.now) ≤ length file.now }
    ensures { result ≡ entries_fit tags.now file.now }
{
    let mut start = 2 + 10 * (tags.len() as u64);
    for (i, tag) in tags.iter().enumerate() {
        if entry_tag(file, i) != *tag || entry_start(file, i) as u64 != start {
            return false;
        }
        start += entry_length(file, i) as u64;
    }
    start == file.len() as u64
}

// The first checks of every file, whose bodies have these tags: causes 1 and 2.
pub fn read_contents(file: &[u8], tags: &[u16]) -> Result<(), Refusal>
    ensures { answer_of result ≡ read_contents tags.now file.now }
{
    if !table_fits(file, tags.len()) {
        return Err(Refusal::Table);
    }
    if !entries_fit(file, tags) {
        return Err(Refusal::Contents);
    }
    Ok(())
}

// The body that entry i names: its own part of the file.
pub fn body(file: &[u8], i: usize) -> &[u8]
    requires { (table_length (i + 1) ≤ length file.now) × (entry_start file.now i + entry_length file.now i ≤ length file.now) }
    ensures { result.now ≡ body_of file.now i }
{
    let start = entry_start(file, i) as usize;
    let end = start + entry_length(file, i) as usize;
    &file[start..end]
}
